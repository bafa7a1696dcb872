//! The fronts of a script, and the deepest script, as trees.

use crate::makers::{PIPELINE, deepest};
use nf_ast::Script;
use nf_lexer::tokens;
use nf_outcomes::laws as outcomes;
use nf_parser::{ParseFault, laws, script};
use nf_printer::print;
use std::alloc::Global;
use std::test::Fail;

#[test]
fn has_laws() {
    laws::one_tree();
    laws::one_unexpected();
    laws::one_too_deep();
    laws::unexpected_spells_none();
    laws::too_deep_spells_none();
    laws::not_both();
    outcomes::some_outcome();
    outcomes::one_outcome();
    outcomes::some_text_outcome();
    outcomes::one_text_outcome();
}

/// A script as users write it, and each front of it: a fault at one place, or a tree.
#[test]
fn reads_each_front_of_a_pipeline(rt: HostRuntime) -> Result<(), Fail> {
    assert_eq!(rt; read(rt.alloc(), PIPELINE)?.tops.len(), 6);
    for end in 0..PIPELINE.len() {
        let front = PIPELINE.get(..end).unwrap_or("");
        if let Ok(tokens) = tokens(rt.alloc(), front.as_bytes()) {
            assert!(rt;
                !matches!(script(rt.alloc(), &tokens), Err(ParseFault::Mem)),
                "at {end}"
            );
        }
    }
    Ok(())
}

/// The tree of a script.
fn read(alloc: Global, text: &str) -> Result<Script, Fail> {
    let tokens = tokens(alloc, text.as_bytes())?;
    match script(alloc, &tokens) {
        Ok(script) => Ok(script),
        Err(_) => Err(Fail::from("not read")),
    }
}

/// A bracket and its closing, how many bytes the canonical text of `workflow { channel.of(..) }` round the deepest expression has for each
/// bracket, and how many besides. For each bracket: 256 operators before it and 512 bytes of parts; of the levels 255 times ` * a`, ` + a`, ` | a`, ` && a`
/// and ` || a`, which are 5610, and `..a`, ` < a` and ` == a`, which are 12; 256 times ` ?: a`, which are 1280. That is 7670. A closure has
/// `{ ` and ` }` besides; a round bracket 2, but the innermost, round a name alone, isn't printed. Outside are the name `a`, `workflow {` and
/// its line end, four blanks, `channel.of(`, `)` and its line end, `}` and its line end: 31.
const DEEPEST: &[(&str, &str, usize, usize)] = &[("(", ")", 7672, 29), ("{", "}", 7674, 31)];

/// As many brackets as may be open, with as much before and after each as may stand there; it is read, printed and dropped.
#[test]
fn reads_the_deepest(rt: HostRuntime) -> Result<(), Fail> {
    for (open, close, each, besides) in DEEPEST.iter().copied() {
        let deep = deepest(rt.alloc(), open, close, 62)?;
        let text = format!(in rt.alloc(); "workflow {{ channel.of({deep}) }}")?;
        let script = read(rt.alloc(), text.as_str())?;
        let printed = print(rt.alloc(), &script)?;
        let bytes = each.saturating_mul(62).saturating_add(besides);
        assert_eq!(rt; printed.len(), bytes, "at {open:?}");
    }
    Ok(())
}
