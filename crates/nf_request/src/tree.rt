//! The tree of a script's text.

ghost use Rattle.nf_request.specs.Steps.{GivesTree};

use nf_ast::Script;
use nf_ends::End;
use nf_lexer::tokens;
use nf_parser::script;
use std::alloc::Global;

/// The script that a text spells (Nextflow reference documentation, "Syntax"; the profile is own).
///
/// # Errors
///
/// `Lex` exactly if the text breaks a rule of the tokens, with the first such rule. `Parse` exactly if its tokens spell no script, with
/// the place. `Mem` if there is no memory for it.
pub fn script_of_text(alloc: Global, text: &[u8]) -> Result<Script, End>
    ensures { GivesTree text.now result }
{
    nf_lexer::laws::one_list();
    nf_lexer::laws::one_break();
    nf_lexer::laws::never_both();
    nf_parser::laws::one_tree();
    nf_parser::laws::one_unexpected();
    nf_parser::laws::one_too_deep();
    nf_parser::laws::unexpected_spells_none();
    nf_parser::laws::too_deep_spells_none();
    nf_parser::laws::not_both();
    let tokens = tokens(alloc, text)?;
    let script = script(alloc, &tokens)?;
    Ok(script)
}
