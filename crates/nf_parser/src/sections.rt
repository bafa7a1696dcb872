//! Parses sections: a word, a colon, and statements.

ghost use Rattle.std.specs.Prelude.{◌≡◌, ◌<◌, length, IfOk, MatchOption, true, false, ◌⊎◌, not};
ghost use Rattle.nf_ast.specs.Tree.{name};
ghost use Rattle.nf_ast.specs.Tops.{view_section};
ghost use Rattle.nf_exprs.specs.Tokens.{labels, directives_end};
ghost use Rattle.nf_exprs.specs.Rules as row;
ghost use Rattle.nf_exprs.specs.Parses.{Parses, ParsesToLabel};
ghost use Rattle.nf_parser.specs.Ends.{IsStray};

use nf_ast::Section;
use nf_exprs::{Fault, expect, peek, stmts};
use nf_token::{Lexeme, Mark};
use nf_value::Place;
use std::alloc::Global;

/// The word of a section and its colon.
pub fn head<'a>(tokens: &'a [Lexeme], word: &str) -> Result<(Place, &'a [Lexeme]), Fault>
    ensures parses { Parses (λ x. name x.0 word.now) (λ x. x.1.now) (row.head word.now) tokens.now result }
    ensures shorter { IfOk result (λ x. length x.1.now < length tokens.now) }
{
    let (place, rest) = expect::word(tokens, word)?;
    let (_, rest) = expect::mark(rest, Mark::Colon)?;
    Ok((place, rest))
}

/// A section of statements.
pub fn section<'a>(
    alloc: Global,
    tokens: &'a [Lexeme],
    word: &str,
) -> Result<(Section, &'a [Lexeme]), Fault>
    ensures parses { ParsesToLabel (λ x. view_section x.0) (λ x. x.1.now) (row.body_section word.now) tokens.now result }
    ensures shorter { IfOk result (λ x. length x.1.now < length tokens.now) }
{
    let (place, rest) = head(tokens, word)?;
    let (body, rest) = stmts::body(alloc, 1, rest)?;
    Ok((Section { place, body }, rest))
}

/// Where a label comes next that begins no section: the number of tokens from its colon on. `known` says that it begins one.
pub fn stray_label(tokens: &[Lexeme], known: bool) -> Option<usize>
    ensures { MatchOption result ((known ≡ true) ⊎ (labels tokens.now ≡ false)) (λ n. IsStray tokens.now known n) }
{
    if known {
        return None;
    }
    peek::past_label(tokens)
}

/// Whether a name comes next, without a colon after it.
pub fn starts_name(tokens: &[Lexeme]) -> bool
    ensures { result ≡ not (directives_end tokens.now) }
{
    peek::is_name(tokens) && peek::label(tokens).is_none()
}
