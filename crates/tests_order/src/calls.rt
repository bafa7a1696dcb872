//! Calls of operators, sources and processes.

use crate::makers::{PLACE, txt};
use nf_kinds::{
    BodyScope, ClosureFacts, Given, Kinds, OrderRule, Shape, any_queue, any_unknown, earliest,
};
use nf_opkinds::{is_queue_source, member_call, or_plain, process_call, shape_of, source_call};
use std::alloc::Global;
use std::test::Fail;

/// Two queues as arguments.
fn two_queues(alloc: Global) -> Result<Vec<Given>, Fail> {
    let mut args = Vec::new(alloc);
    for _ in 0..2 {
        args.push(Given {
            option: None,
            shape: Shape::alone(Kinds::channel(true)),
            closure: None,
        })?;
    }
    Ok(args)
}

#[test]
fn closures_are_asked(rt: HostRuntime) -> Result<(), Fail> {
    let alloc = rt.alloc();
    let mut labels = Vec::new(alloc);
    labels.push(txt(alloc, "small")?)?;
    let facts = ClosureFacts::new(labels, Some(txt(alloc, "x")?), true);
    assert_eq!(rt; facts.labels().len(), 1);
    assert!(rt; facts.name().is_some());
    assert!(rt; facts.is_total());
    Ok(())
}

#[test]
fn operators_give_kinds(rt: HostRuntime) -> Result<(), Fail> {
    let alloc = rt.alloc();
    let queue = Kinds::channel(true);
    let mut scope = BodyScope::started(alloc, Vec::new(alloc))?;
    let mut broken = Vec::new(alloc);
    assert!(rt; is_queue_source("fromPath"));
    assert_eq!(rt; source_call("of", &[]), queue);
    let shape = Shape::alone(queue);
    let first = member_call(alloc, PLACE, "first", shape, &[], &mut scope, &mut broken)?;
    assert_eq!(rt; first.kinds(), queue);
    let rule = earliest(&broken).map(|one| one.rule);
    assert_eq!(rt; rule, Some(OrderRule::Arrival));
    Ok(())
}

#[test]
fn processes_have_outputs(rt: HostRuntime) -> Result<(), Fail> {
    let alloc = rt.alloc();
    let name = txt(alloc, "P")?;
    let args = two_queues(alloc)?;
    assert!(rt; any_queue(&args));
    assert!(rt; !any_unknown(&args));
    let mut scope = BodyScope::started(alloc, Vec::new(alloc))?;
    let mut broken = Vec::new(alloc);
    let names = Vec::new(alloc);
    let shape = process_call(alloc, PLACE, &name, names, &args, &mut scope, &mut broken)?;
    assert_eq!(rt; shape.kinds(), Kinds::none());
    let rule = earliest(&broken).map(|one| one.rule);
    assert_eq!(rt; rule, Some(OrderRule::ProcessQueues));
    let nothing = shape_of(alloc, &[])?;
    assert!(rt; nothing.has_outputs());
    assert_eq!(rt; or_plain(alloc, true, nothing)?.kinds(), Kinds::plain());
    Ok(())
}
