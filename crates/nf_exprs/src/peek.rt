//! Looks at the next tokens: what they are, and the tokens after them.

ghost use Rattle.std.specs.Prelude.{◌≡◌, true, false, not, length, MatchOption, Some, IfOk, option_map};
ghost use Rattle.nf_grammar.specs.Parts.{no_next};
ghost use Rattle.nf_ast.specs.Tree as tree;
ghost use Rattle.nf_token.specs.declared.token.Mark.TheVariants as m;
ghost use Rattle.nf_exprs.specs.Rules as row;
ghost use Rattle.nf_exprs.specs.Tokens as kind;
ghost use Rattle.nf_exprs.specs.Tokens.{operator};
ghost use Rattle.nf_exprs.specs.Parses.{Takes, TakesTwo, TakesBranch, NoBranch, LabelAt};
ghost use Rattle.nf_ast.specs.View.{view};

use crate::band::Band;
use nf_ast::{BranchOperator, Expr, InfixOperator, PrefixOperator};
use nf_token::{Keyword, Lexeme, Mark, PlainKind, TemplateKind, Token};
use nf_value::{Mem, Place, Txt};

/// The mark, with its place, and what stands after it.
pub fn mark(tokens: &[Lexeme], mark: Mark) -> Option<(Place, &[Lexeme])>
    ensures { MatchOption result (no_next (kind.mark_of mark) tokens.now ≡ true) (λ x. Takes (kind.mark_of mark) tokens.now (tree.point x.0) x.1.now) }
{
    match tokens {
        [
            Lexeme {
                token: Token::Mark(found),
                place,
            },
            rest @ ..,
        ] if *found == mark => Some((*place, rest)),
        _ => None,
    }
}

/// The keyword, with its place, and what stands after it.
pub fn keyword(tokens: &[Lexeme], word: Keyword) -> Option<(Place, &[Lexeme])>
    ensures { MatchOption result (no_next (kind.keyword_of word) tokens.now ≡ true) (λ x. Takes (kind.keyword_of word) tokens.now (tree.point x.0) x.1.now) }
{
    match tokens {
        [
            Lexeme {
                token: Token::Keyword(found),
                place,
            },
            rest @ ..,
        ] if *found == word => Some((*place, rest)),
        _ => None,
    }
}

/// A name, with its place, and what stands after it.
pub fn name(tokens: &[Lexeme]) -> Option<(Place, &Txt, &[Lexeme])>
    ensures { MatchOption result (no_next kind.name_of tokens.now ≡ true) (λ x. Takes kind.name_of tokens.now (tree.name x.0 x.1.now) x.2.now) }
{
    match tokens {
        [
            Lexeme {
                token: Token::Name(name),
                place,
            },
            rest @ ..,
        ] => Some((*place, name, rest)),
        _ => None,
    }
}

/// The name that is spelled so, with its place, and what stands after it.
pub fn word<'a>(tokens: &'a [Lexeme], word: &str) -> Option<(Place, &'a [Lexeme])>
    ensures { MatchOption result (no_next (kind.word_of word.now) tokens.now ≡ true) (λ x. Takes (kind.word_of word.now) tokens.now (tree.name x.0 word.now) x.1.now) }
{
    match tokens {
        [
            Lexeme {
                token: Token::Name(name),
                place,
            },
            rest @ ..,
        ] if name.as_str() == word => Some((*place, rest)),
        _ => None,
    }
}

/// A separator, with its place, and what stands after it.
pub fn separator(tokens: &[Lexeme]) -> Option<(Place, &[Lexeme])>
    ensures { MatchOption result (no_next kind.separator tokens.now ≡ true) (λ x. Takes kind.separator tokens.now (tree.point x.0) x.1.now) }
{
    match tokens {
        [
            Lexeme {
                token: Token::Separator,
                place,
            },
            rest @ ..,
        ] => Some((*place, rest)),
        _ => None,
    }
}

/// A plain string, with its place and its kind, and what stands after it.
pub fn plain(tokens: &[Lexeme]) -> Option<(Place, PlainKind, &Txt, &[Lexeme])>
    ensures { MatchOption result (no_next kind.plain tokens.now ≡ true) (λ x. Takes kind.plain tokens.now (tree.text x.0 x.1 x.2.now) x.3.now) }
{
    match tokens {
        [
            Lexeme {
                token: Token::Plain(kind, text),
                place,
            },
            rest @ ..,
        ] => Some((*place, *kind, text, rest)),
        _ => None,
    }
}

/// The opening of a template, with its place and its kind, and what stands after it.
pub fn open_template(tokens: &[Lexeme]) -> Option<(Place, TemplateKind, &[Lexeme])>
    ensures { MatchOption result (no_next kind.open_template tokens.now ≡ true) (λ x. Takes kind.open_template tokens.now (tree.template x.0 x.1 tree.empty) x.2.now) }
{
    match tokens {
        [
            Lexeme {
                token: Token::OpenTemplate(kind),
                place,
            },
            rest @ ..,
        ] => Some((*place, *kind, rest)),
        _ => None,
    }
}

/// The closing of a template, with its place, and what stands after it.
pub fn close_template(tokens: &[Lexeme]) -> Option<(Place, &[Lexeme])>
    ensures { MatchOption result (no_next kind.close_template tokens.now ≡ true) (λ x. Takes kind.close_template tokens.now (tree.point x.0) x.1.now) }
{
    match tokens {
        [
            Lexeme {
                token: Token::CloseTemplate(_),
                place,
            },
            rest @ ..,
        ] => Some((*place, rest)),
        _ => None,
    }
}

/// A text of a template, with its place, and what stands after it.
pub fn template_text(tokens: &[Lexeme]) -> Option<(Place, &Txt, &[Lexeme])>
    ensures { MatchOption result (no_next kind.template_text tokens.now ≡ true) (λ x. Takes kind.template_text tokens.now (tree.piece x.0 x.1.now) x.2.now) }
{
    match tokens {
        [
            Lexeme {
                token: Token::TemplateText(text),
                place,
            },
            rest @ ..,
        ] => Some((*place, text, rest)),
        _ => None,
    }
}

/// The opening of a hole, with its place, and what stands after it.
pub fn open_hole(tokens: &[Lexeme]) -> Option<(Place, &[Lexeme])>
    ensures { MatchOption result (no_next kind.open_hole tokens.now ≡ true) (λ x. Takes kind.open_hole tokens.now (tree.point x.0) x.1.now) }
{
    match tokens {
        [
            Lexeme {
                token: Token::OpenHole,
                place,
            },
            rest @ ..,
        ] => Some((*place, rest)),
        _ => None,
    }
}

/// The end of a hole, with its place, and what stands after it.
pub fn close_hole(tokens: &[Lexeme]) -> Option<(Place, &[Lexeme])>
    ensures { MatchOption result (no_next kind.close_hole tokens.now ≡ true) (λ x. Takes kind.close_hole tokens.now (tree.point x.0) x.1.now) }
{
    match tokens {
        [
            Lexeme {
                token: Token::CloseHole,
                place,
            },
            rest @ ..,
        ] => Some((*place, rest)),
        _ => None,
    }
}

/// An operator of the band, with its place, and what stands after it.
pub fn infix(tokens: &[Lexeme], band: Band) -> Option<(Place, InfixOperator, &[Lexeme])>
    ensures { MatchOption result (no_next (kind.infix_of band) tokens.now ≡ true) (λ x. Takes (kind.infix_of band) tokens.now (operator x.0 x.1) x.2.now) }
{
    let (first, rest) = tokens.split_first()?;
    let found = infix_operator(band, &first.token)?;
    Some((first.place, found, rest))
}

/// The operator of a band that a token is.
fn infix_operator(band: Band, token: &Token) -> Option<InfixOperator>
    ensures { result ≡ kind.infix_operator band token.now }
{
    match (band, token) {
        (Band::Or, Token::Mark(Mark::Or)) => Some(InfixOperator::Or),
        (Band::And, Token::Mark(Mark::And)) => Some(InfixOperator::And),
        (Band::Pipe, Token::Mark(Mark::Pipe)) => Some(InfixOperator::Pipe),
        (Band::Same, Token::Mark(Mark::Same)) => Some(InfixOperator::Same),
        (Band::Same, Token::Mark(Mark::Differs)) => Some(InfixOperator::Differs),
        (Band::Same, Token::Mark(Mark::Matches)) => Some(InfixOperator::Matches),
        (Band::Compare, Token::Mark(Mark::Less)) => Some(InfixOperator::Less),
        (Band::Compare, Token::Mark(Mark::AtMost)) => Some(InfixOperator::AtMost),
        (Band::Compare, Token::Mark(Mark::Greater)) => Some(InfixOperator::Greater),
        (Band::Compare, Token::Mark(Mark::AtLeast)) => Some(InfixOperator::AtLeast),
        (Band::Compare, Token::Keyword(Keyword::In)) => Some(InfixOperator::In),
        (Band::Range, Token::Mark(Mark::DotDot)) => Some(InfixOperator::Range),
        (Band::Sum, Token::Mark(Mark::Plus)) => Some(InfixOperator::Plus),
        (Band::Sum, Token::Mark(Mark::Minus)) => Some(InfixOperator::Minus),
        (Band::Term, Token::Mark(Mark::Times)) => Some(InfixOperator::Times),
        (Band::Term, Token::Mark(Mark::Percent)) => Some(InfixOperator::Remainder),
        _ => None,
    }
}

/// An operator before an operand, with its place, and what stands after it.
pub fn prefix(tokens: &[Lexeme]) -> Option<(Place, PrefixOperator, &[Lexeme])>
    ensures { MatchOption result (no_next kind.prefix_operator tokens.now ≡ true) (λ x. Takes kind.prefix_operator tokens.now (tree.prefix x.0 x.1 tree.empty) x.2.now) }
{
    match tokens {
        [
            Lexeme {
                token: Token::Mark(Mark::Not),
                place,
            },
            rest @ ..,
        ] => Some((*place, PrefixOperator::Not, rest)),
        [
            Lexeme {
                token: Token::Mark(Mark::Minus),
                place,
            },
            rest @ ..,
        ] => Some((*place, PrefixOperator::Minus, rest)),
        _ => None,
    }
}

/// Whether the next token begins an expression.
pub fn starts(tokens: &[Lexeme]) -> bool
    ensures { result ≡ kind.starts tokens.now }
{
    match tokens.split_first() {
        Some((first, _)) => starts_at(&first.token),
        None => false,
    }
}

fn starts_at(token: &Token) -> bool
    ensures { result ≡ kind.starts_at token.now }
{
    match token {
        Token::Name(_)
        | Token::Number(_)
        | Token::Plain(_, _)
        | Token::Pattern(_)
        | Token::OpenTemplate(_)
        | Token::Keyword(Keyword::True | Keyword::False | Keyword::Null)
        | Token::Mark(
            Mark::Not | Mark::Minus | Mark::OpenRound | Mark::OpenSquare | Mark::OpenBrace,
        ) => true,
        _ => false,
    }
}

/// Whether a `}` comes next, or no token is left.
pub fn at_end(tokens: &[Lexeme]) -> bool
    ensures { result ≡ kind.at_end tokens.now }
{
    tokens.is_empty() || mark(tokens, Mark::CloseBrace).is_some()
}

/// A name with a colon after it, and what stands after the colon.
pub fn label(tokens: &[Lexeme]) -> Option<(Place, &Txt, &[Lexeme])>
    ensures { MatchOption result (kind.labels tokens.now ≡ false) (λ x. TakesTwo kind.name_of kind.colon tokens.now (tree.name x.0 x.1.now) x.2.now) }
{
    let (place, name, rest) = name(tokens)?;
    let (_, rest) = mark(rest, Mark::Colon)?;
    Some((place, name, rest))
}

/// Where a name and a colon come next: the number of tokens from the colon on.
pub fn past_label(tokens: &[Lexeme]) -> Option<usize>
    ensures { MatchOption result (kind.labels tokens.now ≡ false) (λ n. LabelAt tokens.now n) }
{
    let (_, _, rest) = name(tokens)?;
    let left = rest.len();
    mark(rest, Mark::Colon)?;
    Some(left)
}

/// A name with an equals sign after it, and what stands after the sign.
pub fn assigned(tokens: &[Lexeme]) -> Option<(Place, &Txt, &[Lexeme])>
    ensures { MatchOption result (kind.assigns tokens.now ≡ false) (λ x. TakesTwo kind.name_of (kind.mark_of m.Equals) tokens.now (tree.name x.0 x.1.now) x.2.now) }
{
    let (place, name, rest) = name(tokens)?;
    let (_, rest) = mark(rest, Mark::Equals)?;
    Some((place, name, rest))
}

/// Whether a name comes next.
pub fn is_name(tokens: &[Lexeme]) -> bool
    ensures { result ≡ kind.is_next kind.name_of tokens.now }
{
    name(tokens).is_some()
}

/// Whether the next token begins a part of a postfix chain.
pub fn starts_part(tokens: &[Lexeme]) -> bool
    ensures { result ≡ not (kind.no_post tokens.now) }
{
    match tokens.split_first() {
        Some((first, _)) => starts_part_at(&first.token),
        None => false,
    }
}

fn starts_part_at(token: &Token) -> bool
    ensures { result ≡ kind.post_at token.now }
{
    matches!(
        token,
        Token::Mark(
            Mark::Dot | Mark::QuestionDot | Mark::OpenSquare | Mark::OpenRound | Mark::OpenBrace
        )
    )
}

/// Whether a statement comes next, and no label.
pub fn starts_stmt(tokens: &[Lexeme]) -> bool
    ensures { result ≡ not (kind.body_ends tokens.now) }
{
    match tokens.split_first() {
        Some((first, _)) => starts_stmt_at(&first.token) && label(tokens).is_none(),
        None => false,
    }
}

fn starts_stmt_at(token: &Token) -> bool
    ensures { result ≡ kind.stmt_starts_at token.now }
{
    match token {
        Token::Keyword(Keyword::Def | Keyword::If | Keyword::Return) => true,
        _ => starts_at(token),
    }
}

/// Whether a text or a hole of a template comes next.
pub fn starts_piece(tokens: &[Lexeme]) -> bool
    ensures { result ≡ not (row.no_part tokens.now) }
{
    template_text(tokens).is_some() || open_hole(tokens).is_some()
}

/// An operator of a conditional expression; a `:` only where one is due.
pub fn branch(tokens: &[Lexeme], due: bool) -> Option<(Place, BranchOperator, &[Lexeme])>
    ensures { MatchOption result (NoBranch due tokens.now) (λ x. TakesBranch due x.1 tokens.now x.0 x.2.now) }
{
    if let Some((place, rest)) = mark(tokens, Mark::Question) {
        return Some((place, BranchOperator::Then, rest));
    }
    if let Some((place, rest)) = mark(tokens, Mark::Elvis) {
        return Some((place, BranchOperator::Elvis, rest));
    }
    if !due {
        return None;
    }
    let (place, rest) = mark(tokens, Mark::Colon)?;
    Some((place, BranchOperator::Else, rest))
}

/// Whether a closure's parameters come next: an arrow, or a name with an arrow or a comma after it.
pub fn begins_params(tokens: &[Lexeme]) -> bool
    ensures { result ≡ kind.begins_params tokens.now }
{
    if mark(tokens, Mark::Arrow).is_some() {
        return true;
    }
    match name(tokens) {
        Some((_, _, rest)) => {
            mark(rest, Mark::Arrow).is_some() || mark(rest, Mark::Comma).is_some()
        }
        None => false,
    }
}

/// Whether a `println` comes next, and an expression begins after it.
pub fn prints(tokens: &[Lexeme]) -> bool
    ensures { result ≡ kind.prints tokens.now }
{
    match word(tokens, "println") {
        Some((_, rest)) => starts(rest),
        None => false,
    }
}

/// Whether a `log.name` comes next, and an expression begins after it.
pub fn logs(tokens: &[Lexeme]) -> bool
    ensures { result ≡ kind.logs tokens.now }
{
    let Some((_, rest)) = word(tokens, "log") else {
        return false;
    };
    let Some((_, rest)) = mark(rest, Mark::Dot) else {
        return false;
    };
    match name(rest) {
        Some((_, _, rest)) => starts(rest),
        None => false,
    }
}

/// Whether a pair of a map comes next: its key and a colon.
pub fn starts_pair(tokens: &[Lexeme]) -> bool
    ensures { result ≡ kind.pair_next tokens.now }
{
    match tokens.split_first() {
        Some((first, rest)) => match &first.token {
            Token::Name(_) | Token::Plain(_, _) => mark(rest, Mark::Colon).is_some(),
            Token::OpenTemplate(_) => closes_plain(rest),
            _ => false,
        },
        None => false,
    }
}

/// Whether the rest of a template without a hole comes next, and a colon.
fn closes_plain(tokens: &[Lexeme]) -> bool
    ensures { result ≡ kind.closes_plain tokens.now }
{
    match template_text(tokens) {
        Some((_, _, rest)) => closes_template(rest),
        None => closes_template(tokens),
    }
}

/// Whether the closing of a template comes next, and a colon.
fn closes_template(tokens: &[Lexeme]) -> bool
    ensures { result ≡ kind.closes_template tokens.now }
{
    match close_template(tokens) {
        Some((_, rest)) => mark(rest, Mark::Colon).is_some(),
        None => false,
    }
}

/// A number, a plain string, a pattern, `true`, `false`, `null` or a name.
pub fn literal(tokens: &[Lexeme]) -> Result<Option<(Expr, &[Lexeme])>, Mem>
    ensures { IfOk result (λ r. MatchOption r (no_next kind.literal tokens.now ≡ true) (λ x. Takes kind.literal tokens.now (view x.0) x.1.now)) }
{
    match tokens.split_first() {
        Some((first, rest)) => match literal_at(&first.token, first.place)? {
            Some(expr) => Ok(Some((expr, rest))),
            None => Ok(None),
        },
        None => Ok(None),
    }
}

fn literal_at(token: &Token, place: Place) -> Result<Option<Expr>, Mem>
    ensures { IfOk result (λ r. option_map view r ≡ kind.literal_at token.now place) }
{
    let expr = match token {
        Token::Number(number) => Expr::number(place, *number),
        Token::Plain(kind, text) => Expr::text(place, *kind, text.copy()?),
        Token::Pattern(text) => Expr::pattern(place, text.copy()?),
        Token::Keyword(Keyword::True) => Expr::truth(place, true),
        Token::Keyword(Keyword::False) => Expr::truth(place, false),
        Token::Keyword(Keyword::Null) => Expr::null(place),
        Token::Name(name) => Expr::name(place, name.copy()?),
        _ => return Ok(None),
    };
    Ok(Some(expr))
}
