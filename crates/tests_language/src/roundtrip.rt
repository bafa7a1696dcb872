//! Scripts that are printed and read again.

ghost use Rattle.std.specs.Prelude.{IfOk, IfSome};
ghost use Rattle.nf_ast.specs.Tops.{view_script};
ghost use Rattle.fmt_laws.specs.Again.{IsSpelled};

use fmt_laws::{Again, laws, read_again};
use nf_ast::Script;
use nf_lexer::tokens;
use nf_parser::script;
use nf_printer::print;
use std::alloc::Global;
use std::test::Fail;

/// Scripts that are the same when they are printed and read.
const SAME: &[&str] = &[
    "",
    "workflow{channel.of( 1 ).view( )}",
    "workflow { (println)(1); x = ((1 + 2)) * 3; f { a, b -> c } }",
    "process P { script: \"a$x ${[y: {it}]}\" }",
];

/// The script of a text.
fn read(alloc: Global, text: &str) -> Result<Option<Script>, Fail>
    ensures { IfOk result (λ found. IfSome found (λ s. IsSpelled (view_script s))) }
{
    let tokens = tokens(alloc, text.as_bytes())?;
    Ok(script(alloc, &tokens).ok())
}

/// How a script comes back: `same` where its canonical text is that of the script.
fn answer(alloc: Global, text: &str) -> Result<&'static str, Fail> {
    let Some(script) = read(alloc, text)? else {
        return Ok("no script");
    };
    Ok(match read_again(alloc, &script)? {
        Again::Same(again) => {
            if print(alloc, &again)? == print(alloc, &script)? {
                "same"
            } else {
                "another"
            }
        }
        Again::TooLong => "too long",
        Again::TooDeep(_) => "too deep",
    })
}

#[test]
fn formats_once(rt: HostRuntime) -> Result<(), Fail> {
    laws::formatted_once();
    laws::printed_spells_again();
    for text in SAME.iter().copied() {
        assert_eq!(rt; answer(rt.alloc(), text)?, "same", "at {text:?}");
    }
    let text = joined(rt.alloc())?;
    assert_eq!(rt; answer(rt.alloc(), text.as_str())?, "too deep");
    Ok(())
}

/// Two chains of 200 operands, one in brackets. Formatted they are one of 399, and so past the limit.
fn joined(alloc: Global) -> Result<String, Fail> {
    let mut chain = String::new(alloc);
    for _ in 1..200u32 {
        chain.push_str(" + 1")?;
    }
    Ok(format!(in alloc; "workflow {{ (1{chain}){chain} }}")?)
}
