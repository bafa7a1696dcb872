//! Prints a script and reads what was printed.

ghost use Rattle.std.specs.Prelude.{IfOk};
ghost use Rattle.nf_lexer.specs.Tokens.{IsTokensOf};
ghost use Rattle.nf_ast.specs.Tree.{Tree};
ghost use Rattle.nf_ast.specs.Tops.{view_script};
ghost use Rattle.nf_printer.specs.Tops.{canonical};
ghost use Rattle.nf_parser.specs.Spells.{Whole};
ghost use Rattle.fmt_trees.specs.Again.{SpellsAgain};
ghost use Rattle.fmt_laws.specs.Again.{IsSpelled, IsReadAgain, IsLexLimit, IsTooLong, IsParseLimit, IsAtPlace};

use nf_ast::Script;
use nf_lexer::{LexFault, laws, tokens};
use nf_parser::{ParseFault, script};
use nf_printer::print;
use nf_token::Tokens;
use nf_value::{Mem, Place};
use std::alloc::Global;

/// What reading a printed script gives (own).
#[derive(Drop)]
pub enum Again {
    /// The same script: its tree differs in the places of its parts alone, and its canonical text is the same.
    Same(Script),
    /// The canonical text has more than 1,048,576 bytes.
    TooLong,
    /// The canonical text has too many brackets open or too long a chain, first at this place.
    TooDeep(Place),
}

/// Prints a script and reads what was printed (own). The result shows that formatting never changes a script: what is read is the same
/// script, or the printed text passes a limit.
///
/// The caller shows that the tokens of some text spell the script. The printed text can pass a limit that this text kept: without the
/// brackets that change nothing, two chains may become one, and indented lines are longer.
///
/// # Errors
///
/// `Mem` where there is no memory for the text, its tokens or its tree.
pub fn read_again(alloc: Global, script: &Script) -> Result<Again, Mem>
    requires spelled { IsSpelled (view_script script.now) }
    ensures again { IfOk result (IsReadAgain (view_script script.now)) }
{
    laws::one_list();
    laws::never_both();
    let text = print(alloc, script)?;
    match tokens(alloc, text.as_slice()) {
        Ok(found) => read(alloc, &found),
        Err(fault) => not_lexed(fault),
    }
}

/// Why a canonical text has no tokens: it is too long, unless memory ran out.
fn not_lexed(fault: LexFault) -> Result<Again, Mem>
    requires limit { IsLexLimit fault }
    ensures long { IfOk result (IsTooLong fault) }
{
    match fault {
        LexFault::ScriptTooLong => Ok(Again::TooLong),
        LexFault::Mem => Err(Mem),
        _ => unreachable!(),
    }
}

/// The script that the tokens of a canonical text spell.
fn read(alloc: Global, found: &Tokens) -> Result<Again, Mem>
    requires spelled { (v : Tree) × Whole found.now.0 v }
    ensures again { IfOk result (λ a. (tree : Tree) → IsTokensOf (canonical tree) found.now → SpellsAgain found.now.0 tree → IsReadAgain tree a) }
{
    match script(alloc, found) {
        Ok(script) => Ok(Again::Same(script)),
        Err(fault) => not_read(fault),
    }
}

/// Why tokens that spell a script weren't read: they pass a limit, unless memory ran out.
fn not_read(fault: ParseFault) -> Result<Again, Mem>
    requires limit { IsParseLimit fault }
    ensures deep { IfOk result (IsAtPlace fault) }
{
    match fault {
        ParseFault::TooDeep { place } => Ok(Again::TooDeep(place)),
        ParseFault::Mem => Err(Mem),
        ParseFault::Unexpected { .. } => unreachable!(),
    }
}
