//! The scope of a body, and the rules that are broken in it.

use crate::makers::{PLACE, txt};
use nf_kinds::{BodyScope, Broken, Kinds, OrderRule, Shape, earliest, given_kinds, note_if};
use std::alloc::Global;
use std::test::Fail;

/// A body that takes the queue `x`, and has defined `y` and then `z`.
fn body(alloc: Global) -> Result<BodyScope, Fail> {
    let mut names = Vec::new(alloc);
    names.push((txt(alloc, "x")?, Shape::alone(Kinds::channel(true))))?;
    let mut scope = BodyScope::started(alloc, names)?;
    scope.define(&txt(alloc, "y")?, Shape::alone(Kinds::plain()))?;
    let mut others = Vec::new(alloc);
    others.push((PLACE, txt(alloc, "z")?))?;
    scope.define_all(&others, Kinds::plain())?;
    Ok(scope)
}

#[test]
fn names_are_read(rt: HostRuntime) -> Result<(), Fail> {
    let alloc = rt.alloc();
    let mut scope = body(alloc)?;
    assert_eq!(rt; scope.local_count(), 2);
    assert!(rt; scope.bound("y").is_some());
    assert!(rt; scope.is_unknown("nope"));
    assert!(rt; scope.call("P").is_none());
    scope.add_call(&txt(alloc, "P")?, Shape::alone(Kinds::none()))?;
    assert!(rt; scope.call("P").is_some());
    scope.leave(alloc, 1)?;
    assert!(rt; scope.is_unknown("z"));
    assert_eq!(rt; scope.read(alloc, "params")?.kinds(), Kinds::plain());
    Ok(())
}

#[test]
fn arms_are_merged(rt: HostRuntime) -> Result<(), Fail> {
    let alloc = rt.alloc();
    let value = Kinds::channel(false);
    let mut scope = body(alloc)?;
    let mut arm = scope.copy(alloc)?;
    arm.assign(alloc, &txt(alloc, "x")?, Shape::alone(value))?;
    scope.merge(alloc, &arm)?;
    let after = scope.read(alloc, "x")?.kinds();
    assert_eq!(rt; after, value.either(Kinds::channel(true)));
    Ok(())
}

#[test]
fn names_of_one_arm_may_be_unbound(rt: HostRuntime) -> Result<(), Fail> {
    let alloc = rt.alloc();
    let value = Kinds::channel(false);
    let mut scope = body(alloc)?;
    let mut arm = scope.copy(alloc)?;
    arm.assign(alloc, &txt(alloc, "params")?, Shape::alone(value))?;
    scope.merge(alloc, &arm)?;
    assert!(rt; scope.is_half_bound("params"));
    assert!(rt; !scope.is_half_bound("x"));
    let after = scope.read(alloc, "params")?.kinds();
    assert_eq!(rt; after, value.either(given_kinds("params")));
    scope.assign(alloc, &txt(alloc, "params")?, Shape::alone(value))?;
    assert!(rt; !scope.is_half_bound("params"));
    Ok(())
}

#[test]
fn rules_are_noted(rt: HostRuntime) -> Result<(), Fail> {
    let alloc = rt.alloc();
    let mut broken = Vec::new(alloc);
    note_if(false, OrderRule::ProcessQueues, PLACE, &mut broken)?;
    note_if(true, OrderRule::ReduceClosure, PLACE, &mut broken)?;
    note_if(true, OrderRule::Arrival, PLACE, &mut broken)?;
    let first = Broken {
        rule: OrderRule::Arrival,
        place: PLACE,
    };
    assert_eq!(rt; earliest(&broken), Some(first));
    let text = format!(in alloc; "{}", OrderRule::Arrival)?;
    assert_eq!(rt; text.as_str(), "Order rule 2");
    Ok(())
}
