//! The deepest expressions.

use crate::makers::deepest;
use nf_exprs::{ParseFault, expr};
use nf_lexer::tokens;
use std::alloc::Global;
use std::test::Fail;

/// A bracket and its closing, how many of them, and how reading ends. Of tokens there are 256 operators before it, 2 brackets, 512 of parts, 2556 of the
/// levels and 512 of `?:` for each bracket, and one name; of bytes, 256 operators stand before each bracket.
const DEEPEST: &[(&str, &str, u32, &str)] = &[
    ("(", ")", 64, "ok 245633 of 245633"),
    ("{", "}", 64, "ok 245633 of 245633"),
    ("(", ")", 65, "1:16705 TooDeep"),
    ("{", "}", 65, "1:16705 TooDeep"),
];

/// How reading ends: `ok` with the number of the token after the expression, or the fault with its place.
fn answer(alloc: Global, text: &str) -> Result<String, Fail> {
    let tokens = tokens(alloc, text.as_bytes())?;
    match expr(alloc, &tokens, 0) {
        Ok((read, next)) => {
            let _copy = read.copy(alloc)?;
            Ok(format!(in alloc; "ok {next} of {}", tokens.items().len())?)
        }
        Err(ParseFault::TooDeep { place }) => Ok(format!(in alloc; "{place} TooDeep")?),
        Err(_) => Err(Fail::from("another fault")),
    }
}

/// As many brackets as may be open, with as much before and after each as may stand there, are read, copied and dropped; one more is too
/// deep.
#[test]
fn reads_the_deepest(rt: HostRuntime) -> Result<(), Fail> {
    for (open, close, brackets, want) in DEEPEST.iter().copied() {
        let text = deepest(rt.alloc(), open, close, brackets)?;
        let found = answer(rt.alloc(), text.as_str())?;
        assert_eq!(rt; found.as_str(), want, "at {brackets} {open:?}");
    }
    Ok(())
}
