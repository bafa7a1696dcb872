//! How marks and keywords are spelled.

ghost use Rattle.std.specs.Prelude.{◌≡◌};
ghost use Rattle.nf_writer.specs.Ink.{mark_text as text_of_mark, keyword_text as text_of_keyword};

use nf_token::{Keyword, Mark};

/// The text of a mark.
pub fn mark_text(mark: Mark) -> &'static str
    ensures { result.now ≡ text_of_mark mark }
{
    match mark {
        Mark::OpenRound => "(",
        Mark::CloseRound => ")",
        Mark::OpenSquare => "[",
        Mark::CloseSquare => "]",
        Mark::OpenBrace => "{",
        Mark::CloseBrace => "}",
        Mark::Comma => ",",
        Mark::Colon => ":",
        Mark::Dot => ".",
        Mark::QuestionDot => "?.",
        Mark::DotDot => "..",
        Mark::Arrow => "->",
        Mark::Equals => "=",
        Mark::Plus => "+",
        Mark::Minus => "-",
        Mark::Times => "*",
        Mark::Percent => "%",
        Mark::Less => "<",
        Mark::AtMost => "<=",
        Mark::Greater => ">",
        Mark::AtLeast => ">=",
        Mark::Same => "==",
        Mark::Differs => "!=",
        Mark::Matches => "==~",
        Mark::And => "&&",
        Mark::Or => "||",
        Mark::Pipe => "|",
        Mark::Not => "!",
        Mark::Question => "?",
        Mark::Elvis => "?:",
    }
}

/// The text of a keyword.
pub fn keyword_text(keyword: Keyword) -> &'static str
    ensures { result.now ≡ text_of_keyword keyword }
{
    match keyword {
        Keyword::Def => "def",
        Keyword::Else => "else",
        Keyword::False => "false",
        Keyword::If => "if",
        Keyword::In => "in",
        Keyword::Null => "null",
        Keyword::Return => "return",
        Keyword::True => "true",
    }
}
