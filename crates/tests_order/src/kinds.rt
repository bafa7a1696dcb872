//! What expressions may be, and the outputs of calls.

use crate::makers::txt;
use nf_kinds::{Key, Kinds, Output, Shape, output_in, some_output};
use std::alloc::Global;
use std::test::Fail;

#[test]
fn kinds_are_joined(rt: HostRuntime) {
    let queue = Kinds::channel(true);
    let value = Kinds::channel(false);
    assert!(rt; queue.is_channel());
    assert_eq!(rt; Kinds::plain_unless(true), Kinds::unknown());
    assert_eq!(rt; Kinds::unknown().either(queue), queue);
    assert_eq!(rt; value.either(queue), Kinds::known(false, true, true));
    assert_eq!(rt; Kinds::plain().as_channel(), value);
}

/// A queue, by its place and as `x`.
fn queue_called_x(alloc: Global) -> Result<Vec<Output>, Fail> {
    let kinds = Kinds::channel(true);
    let name = txt(alloc, "x")?;
    let mut outputs = Vec::new(alloc);
    outputs.push(Output {
        key: Key::At(0),
        kinds,
    })?;
    outputs.push(Output {
        key: Key::Called(name),
        kinds,
    })?;
    Ok(outputs)
}

#[test]
fn outputs_are_found(rt: HostRuntime) -> Result<(), Fail> {
    let alloc = rt.alloc();
    let queue = Kinds::channel(true);
    let x = Key::Called(txt(alloc, "x")?);
    let outputs = queue_called_x(alloc)?;
    assert!(rt; x.is(&x.copy()?));
    assert_eq!(rt; output_in(&x, &outputs), queue);
    assert_eq!(rt; some_output(&outputs), queue);
    let shape = Shape::called(Kinds::none(), outputs);
    assert!(rt; shape.has_outputs());
    assert_eq!(rt; shape.output(&x), queue);
    assert_eq!(rt; shape.some_output(), queue);
    Ok(())
}

#[test]
fn shapes_are_merged(rt: HostRuntime) -> Result<(), Fail> {
    let alloc = rt.alloc();
    let queue = Kinds::channel(true);
    let x = Key::Called(txt(alloc, "x")?);
    let called = Shape::called(Kinds::none(), queue_called_x(alloc)?);
    let either = called.merged(alloc, &Shape::alone(Kinds::plain()))?;
    assert_eq!(rt; either.kinds(), Kinds::plain());
    assert_eq!(rt; either.output(&x), queue.either(Kinds::plain()));
    let other = either.copy(alloc)?.with_kinds(queue);
    assert_eq!(rt; other.output(&x), queue);
    Ok(())
}
