//! Judges calls, and enters workflows.

ghost use Rattle.std.specs.Prelude.{◌≡◌, ◌==◌, ◌||◌, ◌++◌, ◌∷◌, [], IfOk, OnOk};
ghost use Rattle.nf_builtins.specs.Natives.{is_among};
ghost use Rattle.nf_order.specs.Callees.{call_of, operator_on as operator_on_by, unless_unknown as unless_unknown_by};
ghost use Rattle.nf_order.specs.Memory.{IsLighter, call_in, entered_in, led_in};
ghost use Rattle.nf_order.specs.Natives.{by_tables};
ghost use Rattle.nf_order.specs.Standing.{Gives, around_of, call_now, free_now, half_now, rest as rest_of};
ghost use Rattle.nf_opkinds.specs.Operators.{member_call as member_call_by};

use crate::around::{Around, State};
use crate::natives::is_source_or_method;
use crate::receiver::take_receiver;
use crate::subject::{Free, Head, Subject, read_head};
use crate::workflows::run;
use nf_ast::WorkflowBody;
use nf_kinds::{Given, Kinds, Shape, any_unknown};
use nf_opkinds::{member_call, process_call, source_call};
use nf_optable::operator_named;
use nf_slips::{Definition, find_definition, output_names};
use nf_value::{Mem, Place, Txt};

/// What an expression may be that is read to its end.
#[cycle(judge)]
pub(crate) fn settle(subject: Subject, around: &Around<'_>, state: &mut State) -> Result<Shape, Mem>
    ensures { IfOk result (λ v. Gives (rest_of (around_of around.now) subject).thing state.old v state.new) }
{
    let Subject { head, args } = subject;
    match args {
        None => read_head(head, around, state),
        Some(args) => called(head, args, around, state),
    }
}

#[cycle(judge)]
pub(crate) fn called(
    head: Head,
    args: Vec<Given>,
    around: &Around<'_>,
    state: &mut State,
) -> Result<Shape, Mem>
    ensures { IfOk result (λ v. Gives (call_now (around_of around.now) head args.items) state.old v state.new) }
{
    match head {
        Head::Value(shape) => {
            let is_unknown = shape.kinds().unknown || any_unknown(&args);
            Ok(Shape::alone(Kinds::plain_unless(is_unknown)))
        }
        Head::Name(place, name) => call(place, &name, args, around, state),
        Head::Member(shape, place, name) => {
            method_call(shape, place, &name, &args, around, state)
        }
        Head::Source(name) => Ok(Shape::alone(source_call(name.as_str(), &args))),
        Head::HalfBound(shape, free, place, name) => {
            half_bound_call(shape, free, place, &name, &args, around, state)
        }
    }
}

/// `m.name(..)`, where one arm of an `if` alone bound m to this; each way begins in the scope before both.
fn half_bound_call(
    shape: Shape,
    free: Free,
    place: Place,
    name: &Txt,
    args: &[Given],
    around: &Around<'_>,
    state: &mut State,
) -> Result<Shape, Mem>
    ensures { IfOk result (λ v. Gives (half_now shape free place name.now args.now) state.old v state.new) }
{
    let before = state.scope.copy(around.alloc)?;
    let bound = method_call(shape, place, name, args, around, state)?;
    let ended = std::mem::replace(&mut state.scope, before);
    let other = free_call(free, place, name, args, around, state)?;
    state.scope.merge(around.alloc, &ended)?;
    bound.merged(around.alloc, &other)
}

/// `m.name(..)`, where nothing in the body binds m.
fn free_call(
    free: Free,
    place: Place,
    name: &Txt,
    args: &[Given],
    around: &Around<'_>,
    state: &mut State,
) -> Result<Shape, Mem>
    ensures { IfOk result (λ v. Gives (free_now free place name.now args.now) state.old v state.new) }
{
    match free {
        Free::Channel => Ok(Shape::alone(source_call(name.as_str(), args))),
        Free::Output(shape) => {
            let is_unknown = shape.kinds().unknown || any_unknown(args);
            Ok(Shape::alone(Kinds::plain_unless(is_unknown)))
        }
        Free::Word(shape) => method_call(shape, place, name, args, around, state),
    }
}

/// A call of what stands before a dot.
fn method_call(
    shape: Shape,
    place: Place,
    name: &Txt,
    args: &[Given],
    around: &Around<'_>,
    state: &mut State,
) -> Result<Shape, Mem>
    ensures { IfOk result (λ v. Gives (member_call_by place name.now shape args.now) state.old v state.new) }
{
    member_call(
        around.alloc,
        place,
        name.as_str(),
        shape,
        args,
        &mut state.scope,
        &mut state.broken,
    )
}

/// A call by a name.
#[cycle(judge)]
pub(crate) fn call(
    place: Place,
    name: &Txt,
    args: Vec<Given>,
    around: &Around<'_>,
    state: &mut State,
) -> Result<Shape, Mem>
    ensures { IfOk result (λ v. Gives (call_in around.now place name.now args.items) state.old v state.new) }
{
    match find_definition(around.tops, name.as_str()) {
        Definition::Nothing => undefined(place, name, args, around, state),
        Definition::Function => Ok(Shape::alone(Kinds::plain_unless(any_unknown(&args)))),
        Definition::Process(process) => {
            let names = output_names(around.alloc, &process.outputs)?;
            process_call(
                around.alloc,
                place,
                name,
                names,
                &args,
                &mut state.scope,
                &mut state.broken,
            )
        }
        Definition::Workflow(workflow) => enter(workflow, name, &args, around, state),
    }
}

/// A call by a name that the script doesn't define: of an operator, or, if no table has it, of a function of the
/// program.
fn undefined(
    place: Place,
    name: &Txt,
    args: Vec<Given>,
    around: &Around<'_>,
    state: &mut State,
) -> Result<Shape, Mem>
    ensures { IfOk result (λ v. Gives (call_of (by_tables name.now) place name.now args.items) state.old v state.new) }
{
    if operator_named(name.as_str()).is_some() {
        return operator_on(place, name, args, around, state);
    }
    if is_source_or_method(around.alloc, name.as_str())? {
        return Ok(Shape::alone(Kinds::unknown()));
    }
    Ok(Shape::alone(Kinds::plain_unless(any_unknown(&args))))
}

/// `view(ch)` is `ch.view()`; a plain value becomes a value channel.
fn operator_on(
    place: Place,
    name: &Txt,
    args: Vec<Given>,
    around: &Around<'_>,
    state: &mut State,
) -> Result<Shape, Mem>
    ensures { IfOk result (λ v. Gives (operator_on_by place name.now args.items) state.old v state.new) }
{
    let mut others = args;
    match take_receiver(&mut others) {
        None => Ok(Shape::alone(Kinds::unknown())),
        Some(receiver) => {
            let kinds = receiver.shape.kinds().as_channel();
            let shape = receiver.shape.with_kinds(kinds);
            method_call(shape, place, name, &others, around, state)
        }
    }
}

/// A call of a workflow, which isn't entered where the call leads back to it. What a call with something unknown gives
/// is unknown.
#[cycle(judge)]
fn enter(
    workflow: &WorkflowBody,
    name: &Txt,
    args: &[Given],
    around: &Around<'_>,
    state: &mut State,
) -> Result<Shape, Mem>
    requires lighter { IsLighter around.now name.now workflow.now }
    ensures { IfOk result (λ v. Gives (entered_in around.now name.now workflow.now args.now) state.old v state.new) }
{
    let inside = entered(workflow, name, args, around, state)?;
    let shape = unless_unknown(args, inside);
    state.scope.add_call(name, shape.copy(around.alloc)?)?;
    Ok(shape)
}

/// What a call gives, where its workflow gives this.
fn unless_unknown(args: &[Given], shape: Shape) -> Shape
    ensures { result ≡ unless_unknown_by args.now shape }
{
    if any_unknown(args) {
        return Shape::alone(Kinds::unknown());
    }
    shape
}

/// What a workflow gives for these arguments.
#[cycle(judge)]
fn entered(
    workflow: &WorkflowBody,
    name: &Txt,
    args: &[Given],
    around: &Around<'_>,
    state: &mut State,
) -> Result<Shape, Mem>
    requires lighter { IsLighter around.now name.now workflow.now }
    ensures gives { IfOk result (λ v. v ≡ (led_in around.now name.now workflow.now args.now).gives) }
    ensures broken { OnOk result (state.new.broken.items ≡ state.old.broken.items
        ++ (led_in around.now name.now workflow.now args.now).broken) }
    ensures scope { OnOk result (state.new.scope ≡ state.old.scope) }
{
    if leads_back(around, name) {
        return Ok(Shape::alone(Kinds::unknown()));
    }
    let within = with_name(around, name)?;
    let inner = Around {
        alloc: around.alloc,
        tops: around.tops,
        within: &within,
        left: around.left - 1,
        unknown: around.unknown,
    };
    run(workflow, args, &inner, &mut state.broken)
}

/// Whether a call leads back to its workflow, or no call is left.
fn leads_back(around: &Around<'_>, name: &Txt) -> bool
    ensures { result ≡ (around.now.left == 0 || is_among name.now around.now.within.now) }
{
    around.left == 0 || has_name(around.within, name.as_str())
}

/// Whether a name is among these.
fn has_name(names: &[Txt], name: &str) -> bool
    ensures { result ≡ is_among name.now names.now }
{
    for other in names {
        if other.as_str() == name {
            return true;
        }
    }
    false
}

/// The workflows that calls led to, and one after them.
fn with_name(around: &Around<'_>, name: &Txt) -> Result<Vec<Txt>, Mem>
    ensures { IfOk result (λ v. v.items ≡ around.now.within.now ++ name.now ∷ []) }
{
    let mut names = Vec::new(around.alloc);
    for other in around.within {
        names.push(other.copy()?)?;
    }
    names.push(name.copy()?)?;
    Ok(names)
}
