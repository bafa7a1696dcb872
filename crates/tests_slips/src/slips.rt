//! What a script defines, and what it shares with others.

use nf_ast::{Expr, Script};
use nf_exprs::expr;
use nf_kinds::{BodyScope, Broken, Kinds};
use nf_lexer::tokens;
use nf_parser::script;
use nf_slips::{
    Definition, Form, add_process, add_shared, add_shared_in, closure_kinds, entry, facts,
    find_definition, name_of, output_names, read_form,
};
use std::alloc::Global;
use std::test::Fail;

/// A process that assigns to a name of others in a closure, and reads `task.index`.
const SCRIPT: &str = "\
process P {
    output:
    path 'a', emit: x
    script:
    z = [1].collect { y = it }
    \"${task.index}\"
}
workflow A {
    P()
}
workflow {
    A()
}
";

/// The tree of a script.
fn read(alloc: Global, text: &str) -> Result<Script, Fail> {
    let tokens = tokens(alloc, text.as_bytes())?;
    match script(alloc, &tokens) {
        Ok(script) => Ok(script),
        Err(_) => Err(Fail::from("not read")),
    }
}

/// The tree of an expression.
fn read_expr(alloc: Global, text: &str) -> Result<Expr, Fail> {
    let tokens = tokens(alloc, text.as_bytes())?;
    match expr(alloc, &tokens, 0) {
        Ok((expr, _next)) => Ok(expr),
        Err(_) => Err(Fail::from("not read")),
    }
}

#[test]
fn definitions_are_found(rt: HostRuntime) -> Result<(), Fail> {
    let script = read(rt.alloc(), SCRIPT)?;
    assert!(rt; entry(&script.tops).is_some());
    assert!(rt; matches!(find_definition(&script.tops, "A"), Definition::Workflow(_)));
    assert!(rt; matches!(find_definition(&script.tops, "Q"), Definition::Nothing));
    Ok(())
}

#[test]
fn processes_break_rules(rt: HostRuntime) -> Result<(), Fail> {
    let script = read(rt.alloc(), SCRIPT)?;
    let Definition::Process(process) = find_definition(&script.tops, "P") else {
        return Err(Fail::from("no process"));
    };
    let names = output_names(rt.alloc(), &process.outputs)?;
    assert_eq!(rt; names.len(), 1);
    let mut broken = Vec::new(rt.alloc());
    add_process(rt.alloc(), process, &mut broken)?;
    let places = written(rt.alloc(), &broken)?;
    assert_eq!(rt; places.as_str(), "5:23 Order rule 6; 6:8 Order rule 6; ");
    Ok(())
}

/// The broken rules, with their places.
fn written(alloc: Global, broken: &[Broken]) -> Result<String, Fail> {
    let mut text = String::new(alloc);
    for one in broken {
        let line = format!(in alloc; "{} {}; ", one.place, one.rule)?;
        text.push_str(line.as_str())?;
    }
    Ok(text)
}

#[test]
fn closures_are_judged(rt: HostRuntime) -> Result<(), Fail> {
    let read = read_expr(rt.alloc(), "{ a, b -> x = Math.max(b, a) }")?;
    let Form::Closure(closure) = read_form(&read) else {
        return Err(Fail::from("no closure"));
    };
    let scope = BodyScope::started(rt.alloc(), Vec::new(rt.alloc()))?;
    let mut broken = Vec::new(rt.alloc());
    add_shared(rt.alloc(), closure, &mut broken)?;
    add_shared_in(rt.alloc(), &read, &mut broken)?;
    let kinds = closure_kinds(rt.alloc(), closure, &[], &scope, &mut broken)?;
    assert_eq!(rt; kinds, Kinds::plain());
    let places = written(rt.alloc(), &broken)?;
    assert_eq!(rt;
        places.as_str(),
        "1:11 Order rule 6; 1:11 Order rule 6; 1:11 Order rule 6; "
    );
    Ok(())
}

#[test]
fn totals_are_told(rt: HostRuntime) -> Result<(), Fail> {
    let read = read_expr(rt.alloc(), "{ a, b -> Math.max(b, a) }")?;
    let Form::Closure(closure) = read_form(&read) else {
        return Err(Fail::from("no closure"));
    };
    assert!(rt; facts(rt.alloc(), closure)?.is_total());
    let name = read_expr(rt.alloc(), "ch")?;
    assert!(rt; name_of(read_form(&name))?.is_some());
    Ok(())
}
