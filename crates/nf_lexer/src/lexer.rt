//! The tokens of a script.

ghost use Rattle.std.specs.Prelude.{◌≡◌, ◌≤◌, ◌<◌, ◌↔◌, IfOk, MatchResult, Err, length};
ghost use Rattle.nf_lexer.specs.declared.fault.LexFault.TheVariants.{ScriptTooLong};
ghost use Rattle.nf_lexer.specs.Tokens.{IsTokensOf, Refuses, at_start as at_start_of, most_bytes};

use crate::fault::LexFault;
use crate::front;
use crate::front::Front;
use crate::joiner::Joiner;
use crate::open::{Change, Open, Opened};
use crate::place::past;
use nf_token::Tokens;
use nf_value::{Mem, Place};
use std::alloc::Global;

/// The most bytes of a script.
const MOST_BYTES: usize = 1048576;

/// The tokens of a script, each with its place, and the place after the script's last byte; or the rule of the
/// tokens that the script breaks first, and where.
///
/// Blanks, tabs and carriage returns stand between tokens and are nothing else; a line ends at a line feed alone
/// (own). `// ..` to its line's end and `/* .. */` are comments, and a comment between two tokens is as if it weren't
/// there. A first line that begins with `#!` is skipped (Nextflow reference documentation, Syntax, Comments and
/// Shebang). Characters past ASCII are free in comments, in the first line that is skipped, and in strings, templates
/// and patterns (own).
///
/// A line end between two tokens separates where three things hold (own). The innermost thing that is open is `{`, or
/// nothing is open; a hole counts as an open bracket. The token before isn't one of `, ( [ { -> : = + - * % < <= > >=
/// == != ==~ && || | ? ?: . ?. ..`. The next token, past other line ends, isn't one of `. ?. | || && ? ?: ..` or
/// `else`. A `;` separates always, and of several separators in a row the first counts. A `)` or `]` closes the
/// innermost open bracket only where that is of its own kind, and a `}` the nearest open `{` or hole with all that is
/// open in it.
///
/// A string `'..'` or `/../`, a pattern `~/../` and a template `".."` end on their line; `'''..'''` and `"""..."""`
/// may go over lines. A `/` that begins no comment begins a string (own). In `/../` and patterns `\/` stands for `/`,
/// and every other backslash is kept. Elsewhere the escapes are `\n \t \r \b \f \\ \' \" \$` and `\u` with four
/// hexadecimal digits that are no surrogate, and a backslash before a line end removes both (own).
///
/// In a template `${` opens a hole, up to its `}`. A `$` before a letter or `_` opens one too: of the name or keyword
/// that follows, and of each `.` with a name that is no keyword, which follow directly. Any other `$` stands for
/// itself (Nextflow reference documentation, Syntax, Dynamic string; the parts after `$name` own).
///
/// # Errors
///
/// `ScriptTooLong` where the text has more than 1,048,576 bytes. Else the rule that one who reads from left to right
/// sees broken first: `BadByte`, `BadEscape` and `BigNumber` where they stand; `OpenString` and `OpenComment` where a
/// line or the text ends, at the opening. A line end in a hole of a template `".."` breaks that template's rule, and
/// of several that are open there the outermost is named. `Mem` where there is no memory for the tokens.
pub fn tokens(alloc: Global, text: &[u8]) -> Result<Tokens, LexFault>
    ensures gives { MatchResult result (λ t. IsTokensOf text.now t) (λ e. Refuses text.now e) }
    ensures long { (result ≡ Err ScriptTooLong) ↔ (most_bytes < length text.now) }
{
    if text.len() > MOST_BYTES {
        return Err(LexFault::ScriptTooLong);
    }
    short_tokens(alloc, text)
}

/// The same of a script within the limit: reads from left to right what stands first, until the end or a fault.
fn short_tokens(alloc: Global, text: &[u8]) -> Result<Tokens, LexFault>
    requires { length text.now ≤ most_bytes }
    ensures { MatchResult result (λ t. IsTokensOf text.now t) (λ e. Refuses text.now e) }
{
    let mut opened = at_start(alloc, text)?;
    let mut joiner = Joiner::new(alloc);
    let mut place = Place { line: 1, col: 1 };
    let mut rest = text;
    loop {
        match front::first(&opened, place, rest) {
            Front::Finished => return Ok(Tokens::of(joiner.finish()?, place)),
            Front::Broken(fault) => return Err(fault),
            Front::Passes(part, change, bytes) => {
                joiner.part(alloc, part, place)?;
                opened.change(change)?;
                let (taken, after) = rest.split_at(bytes);
                place = past(place, taken);
                rest = after;
            }
        }
    }
}

/// What is open where a script begins: a first line with `#!` is a comment.
#[tactic(auto, unfolding(crate::specs::Tokens::at_start))]
fn at_start(alloc: Global, text: &[u8]) -> Result<Opened, Mem>
    ensures { IfOk result (λ o. o ≡ at_start_of text.now) }
{
    let mut opened = Opened::new(alloc);
    if text.starts_with(b"#!") {
        opened.change(Change::Enter(Open::LineComment))?;
    }
    Ok(opened)
}
