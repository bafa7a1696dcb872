//! Parses all tokens as one script.

ghost use Rattle.std.specs.Prelude.{◌≡◌, IfOk, IfErr};
ghost use Rattle.nf_ast.specs.Tree.{Tree};
ghost use Rattle.nf_ast.specs.Tops.{view_script};
ghost use Rattle.nf_parser.specs.Spells.{Whole, Spells, Answers, Refuses};

use crate::tops;
use nf_ast::Script;
use nf_exprs::{Fault, ParseFault, place_at};
use nf_token::{Lexeme, Tokens};
use std::alloc::Global;

/// The script that all the tokens spell (Nextflow reference documentation, "Syntax"; which part of that is read, and where a part ends,
/// are this project's own). Limits (own): 64 brackets open at once, 256 parts of a chain. Takes time that grows with
/// the number of tokens.
///
/// # Errors
///
/// `Unexpected` where the tokens spell no script and no reading of them passes a limit, `TooDeep` where a reading passes one, each with
/// its place; `Mem` where there is no memory for the tree.
pub fn script(alloc: Global, tokens: &Tokens) -> Result<Script, ParseFault>
    ensures spelled { IfOk result (λ s. Spells tokens.now.0 (view_script s)) }
    ensures only { IfOk result (λ s. (v : Tree) → Whole tokens.now.0 v → v ≡ view_script s) }
    ensures refused { IfErr result (Refuses tokens.now.0 tokens.now.1) }
{
    match whole(alloc, tokens.items()) {
        Ok(script) => Ok(script),
        Err(Fault::Unexpected(left)) => Err(ParseFault::Unexpected {
            place: place_at(tokens.items(), tokens.end(), left),
        }),
        Err(Fault::TooDeep(left)) => Err(ParseFault::TooDeep {
            place: place_at(tokens.items(), tokens.end(), left),
        }),
        Err(Fault::Mem) => Err(ParseFault::Mem),
    }
}

fn whole(alloc: Global, tokens: &[Lexeme]) -> Result<Script, Fault>
    ensures { Answers view_script tokens.now result }
{
    let (script, rest) = tops::script(alloc, tokens)?;
    if !rest.is_empty() {
        return Err(Fault::Unexpected(rest.len()));
    }
    Ok(script)
}
