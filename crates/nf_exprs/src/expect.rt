//! Takes a token that must come next, or answers a fault.

ghost use Rattle.std.specs.Prelude.{length, IfOk, ◌<◌, ◌≤◌, List};
ghost use Rattle.nf_token.specs.declared.token.Lexeme as lexeme;
ghost use Rattle.nf_grammar.specs.Gram.{bind, gives};
ghost use Rattle.nf_grammar.specs.Outcome.{got};
ghost use Rattle.nf_ast.specs.Tree.{Tree, empty, point, name as name_tree};
ghost use Rattle.nf_exprs.specs.Level.{Gram};
ghost use Rattle.nf_exprs.specs.Tokens as token;
ghost use Rattle.nf_exprs.specs.Tokens.{mark_of, keyword_of, name_of, word_of, no_start};
ghost use Rattle.nf_exprs.specs.Rules as row;
ghost use Rattle.nf_exprs.specs.Rules.{kind};
ghost use Rattle.nf_exprs.specs.Parses.{Outcome, Parses, past_label};

use crate::fault::Fault;
use crate::peek;
use nf_token::{Keyword, Lexeme, Mark};
use nf_value::{Place, Txt};

/// The most brackets that may be open at once (own).
pub const MOST_OPEN: u32 = 64;

/// The most parts of a chain (own).
pub const MOST_PARTS: u32 = 256;

/// The mark.
pub fn mark(tokens: &[Lexeme], mark: Mark) -> Result<(Place, &[Lexeme]), Fault>
    ensures parses { Parses (λ x. point x.0) (λ x. x.1.now) (row.mark mark) tokens.now result }
    ensures shorter { IfOk result (λ x. length x.1.now < length tokens.now) }
{
    peek::mark(tokens, mark).ok_or(Fault::Unexpected(tokens.len()))
}

/// The keyword.
pub fn keyword(tokens: &[Lexeme], word: Keyword) -> Result<(Place, &[Lexeme]), Fault>
    ensures parses { Parses (λ x. point x.0) (λ x. x.1.now) (kind (keyword_of word)) tokens.now result }
    ensures shorter { IfOk result (λ x. length x.1.now < length tokens.now) }
{
    peek::keyword(tokens, word).ok_or(Fault::Unexpected(tokens.len()))
}

/// A name.
pub fn name(tokens: &[Lexeme]) -> Result<(Place, &Txt, &[Lexeme]), Fault>
    ensures parses { Parses (λ x. name_tree x.0 x.1.now) (λ x. x.2.now) (kind name_of) tokens.now result }
    ensures shorter { IfOk result (λ x. length x.2.now < length tokens.now) }
{
    peek::name(tokens).ok_or(Fault::Unexpected(tokens.len()))
}

/// The name that is spelled so.
pub fn word<'a>(tokens: &'a [Lexeme], word: &str) -> Result<(Place, &'a [Lexeme]), Fault>
    ensures parses { Parses (λ x. name_tree x.0 word.now) (λ x. x.1.now) (row.word word.now) tokens.now result }
    ensures shorter { IfOk result (λ x. length x.1.now < length tokens.now) }
{
    peek::word(tokens, word).ok_or(Fault::Unexpected(tokens.len()))
}

/// The end of a hole.
pub fn close_hole(tokens: &[Lexeme]) -> Result<(Place, &[Lexeme]), Fault>
    ensures parses { Parses (λ x. point x.0) (λ x. x.1.now) (kind token.close_hole) tokens.now result }
    ensures shorter { IfOk result (λ x. length x.1.now < length tokens.now) }
{
    peek::close_hole(tokens).ok_or(Fault::Unexpected(tokens.len()))
}

/// The closing of a template.
pub fn close_template(tokens: &[Lexeme]) -> Result<(Place, &[Lexeme]), Fault>
    ensures parses { Parses (λ x. point x.0) (λ x. x.1.now) (kind token.close_template) tokens.now result }
    ensures shorter { IfOk result (λ x. length x.1.now < length tokens.now) }
{
    peek::close_template(tokens).ok_or(Fault::Unexpected(tokens.len()))
}

/// A bracket that opens, where `depth` are open. `TooDeep` where that is the most.
pub fn opens(tokens: &[Lexeme], depth: u32, bracket: Mark) -> Result<(Place, &[Lexeme]), Fault>
    ensures parses { Parses (λ x. point x.0) (λ x. x.1.now) (row.opens depth bracket) tokens.now result }
    ensures shorter { IfOk result (λ x. length x.1.now < length tokens.now) }
    ensures within { IfOk result (λ x. depth < 64) }
{
    let Some((place, rest)) = peek::mark(tokens, bracket) else {
        return Err(Fault::Unexpected(tokens.len()));
    };
    if depth >= MOST_OPEN {
        return Err(Fault::TooDeep(tokens.len()));
    }
    Ok((place, rest))
}

/// The opening of a hole, where `depth` brackets are open. `TooDeep` where that is the most.
pub fn open_hole(tokens: &[Lexeme], depth: u32) -> Result<(Place, &[Lexeme]), Fault>
    ensures parses { Parses (λ x. point x.0) (λ x. x.1.now) (row.opens_hole depth) tokens.now result }
    ensures shorter { IfOk result (λ x. length x.1.now < length tokens.now) }
    ensures within { IfOk result (λ x. depth < 64) }
{
    let Some((place, rest)) = peek::open_hole(tokens) else {
        return Err(Fault::Unexpected(tokens.len()));
    };
    if depth >= MOST_OPEN {
        return Err(Fault::TooDeep(tokens.len()));
    }
    Ok((place, rest))
}

/// The tokens after a separator that may come.
pub fn past_separator(tokens: &[Lexeme]) -> &[Lexeme]
    ensures parses { Outcome row.past_separator tokens.now (got empty result.now (length result.now)) }
    ensures shorter { length result.now ≤ length tokens.now }
{
    match peek::separator(tokens) {
        Some((_, rest)) => rest,
        None => tokens,
    }
}

/// A separator, which may be missing before `}` and at the end.
pub fn sep(tokens: &[Lexeme]) -> Result<&[Lexeme], Fault>
    ensures parses { Parses (λ x. empty) (λ x. x.now) row.sep tokens.now result }
    ensures shorter { IfOk result (λ x. length x.now ≤ length tokens.now) }
{
    if let Some((_, rest)) = peek::separator(tokens) {
        return Ok(rest);
    }
    if peek::at_end(tokens) {
        return Ok(tokens);
    }
    Err(Fault::Unexpected(tokens.len()))
}

/// A `}`, before which a separator may stand.
pub fn closes(tokens: &[Lexeme]) -> Result<&[Lexeme], Fault>
    ensures parses { Parses (λ x. empty) (λ x. x.now) row.closes tokens.now result }
    ensures shorter { IfOk result (λ x. length x.now < length tokens.now) }
{
    let rest = past_separator(tokens);
    let (_, rest) = mark(rest, Mark::CloseBrace)?;
    Ok(rest)
}

/// The `}` after statements. A name with a colon after it goes wrong at the colon, since the name alone could begin a statement.
pub fn closes_body(tokens: &[Lexeme]) -> Result<&[Lexeme], Fault>
    ensures parses { (g : Gram) → (us : List lexeme.Lexeme) → (v : Tree) → Outcome g us (got v tokens.now (past_label tokens.now)) → Parses (λ x. v) (λ x. x.now) (bind g (λ a. bind row.closes (λ c. gives a))) us result }
    ensures shorter { IfOk result (λ x. length x.now < length tokens.now) }
{
    if let Some(left) = peek::past_label(tokens) {
        return Err(Fault::Unexpected(left));
    }
    closes(tokens)
}
