//! A script that is accepted.

use nf_ast::Script;
use nf_order::check;
use std::test::Fail;

#[test]
fn accepted_script_is_told(rt: HostRuntime) -> Result<(), Fail> {
    let alloc = rt.alloc();
    let script = Script {
        tops: Vec::new(alloc),
    };
    let accepted = check(alloc, script)?;
    assert!(rt; accepted.script().tops.is_empty());
    Ok(())
}
