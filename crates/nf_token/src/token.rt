//! What a token is, and where it stands.

use nf_value::{Place, Txt};

/// A keyword: a word that is never a name, wherever it stands (own: these eight).
#[derive(Debug, Clone, Copy, PartialEq, Eq)]
pub enum Keyword {
    /// `def`
    Def,
    /// `else`
    Else,
    /// `false`
    False,
    /// `if`
    If,
    /// `in`
    In,
    /// `null`
    Null,
    /// `return`
    Return,
    /// `true`
    True,
}

/// A mark: a token of punctuation, of one to three bytes (own: these thirty). Where a text begins with several, the longest is its token:
/// `==~` is one mark and not `==` and `~`.
#[derive(Debug, Clone, Copy, PartialEq, Eq)]
pub enum Mark {
    /// `(`
    OpenRound,
    /// `)`
    CloseRound,
    /// `[`
    OpenSquare,
    /// `]`
    CloseSquare,
    /// `{`
    OpenBrace,
    /// `}`
    CloseBrace,
    /// `,`
    Comma,
    /// `:`
    Colon,
    /// `.`
    Dot,
    /// `?.`
    QuestionDot,
    /// `..`
    DotDot,
    /// `->`
    Arrow,
    /// `=`
    Equals,
    /// `+`
    Plus,
    /// `-`
    Minus,
    /// `*`
    Times,
    /// `%`
    Percent,
    /// `<`
    Less,
    /// `<=`
    AtMost,
    /// `>`
    Greater,
    /// `>=`
    AtLeast,
    /// `==`
    Same,
    /// `!=`
    Differs,
    /// `==~`
    Matches,
    /// `&&`
    And,
    /// `||`
    Or,
    /// `|`
    Pipe,
    /// `!`
    Not,
    /// `?`
    Question,
    /// `?:`
    Elvis,
}

/// How a plain string is written (own).
#[derive(Debug, Clone, Copy, PartialEq, Eq)]
pub enum PlainKind {
    /// `'..'`, on one line, with escapes
    Single,
    /// `'''..'''`, over lines, with escapes
    TripleSingle,
    /// `/../`, on one line; `\/` stands for `/`, and every other backslash is kept
    Slashes,
}

/// How a template is written (Nextflow reference documentation, Syntax, Dynamic string; the escapes own).
#[derive(Debug, Clone, Copy, PartialEq, Eq)]
pub enum TemplateKind {
    /// `".."`, on one line
    Double,
    /// `"""..."""`, over lines
    TripleDouble,
}

/// What stands between quotes: a plain string, a pattern or a template (own).
#[derive(Clone, Copy)]
pub enum TextKind {
    /// A plain string.
    Plain(PlainKind),
    /// A pattern, `~/../`.
    Pattern,
    /// A template.
    Template(TemplateKind),
}

/// A token of a script (own). A template is a row of tokens: its opening, its texts and holes in turn, and its closing. So is a hole: its
/// opening, its tokens, and its end. `"a${b}"` is `OpenTemplate`, `TemplateText`, `OpenHole`, `Name`, `CloseHole`, `CloseTemplate`.
pub enum Token {
    /// A name: the longest run of ASCII letters, digits and `_` that doesn't begin with a digit and isn't a keyword.
    Name(Txt),
    /// Such a run that is a keyword.
    Keyword(Keyword),
    /// The longest run of decimal digits, also with leading zeros. Its value is at most 9223372036854775807.
    Number(i64),
    /// A plain string: its kind, and the text that it stands for.
    Plain(PlainKind, Txt),
    /// A pattern `~/../` with its text. `\/` stands for `/`, and every other backslash is kept.
    Pattern(Txt),
    /// The opening of a template.
    OpenTemplate(TemplateKind),
    /// A text of a template: what stands between its quotes and holes, where that isn't empty, as the text that it stands for. It begins
    /// where the quotes or the hole before it end.
    TemplateText(Txt),
    /// The opening of a hole: `${`, or the `$` of `$name`.
    OpenHole,
    /// The end of a hole: its `}`, or the place after `$name`, which has no byte of its own.
    CloseHole,
    /// The closing of a template.
    CloseTemplate(TemplateKind),
    /// A mark.
    Mark(Mark),
    /// A `;`, or a line end that separates. Of several in a row only the first is a token.
    Separator,
}

impl Drop for Token {
    fn drop(self) {
        match self {
            Token::Name(_)
            | Token::Keyword(_)
            | Token::Number(_)
            | Token::Plain(_, _)
            | Token::Pattern(_)
            | Token::OpenTemplate(_)
            | Token::TemplateText(_)
            | Token::OpenHole
            | Token::CloseHole
            | Token::CloseTemplate(_)
            | Token::Mark(_)
            | Token::Separator => {}
        }
    }
}

/// A token, and the place of its first byte; of a separator, of its `;` or line feed.
pub struct Lexeme {
    /// The token.
    pub token: Token,
    /// Where it begins.
    pub place: Place,
}

impl Drop for Lexeme {
    fn drop(self) {
        let Lexeme { token: _, place: _ } = self;
    }
}
