//! Judges pipes: `a | f` is `f(a)`.

ghost use Rattle.std.specs.Prelude.{◌≡◌, ◌∷◌, ◌||◌, [], map, option_map, IfOk};
ghost use Rattle.nf_kinds.specs.Scope.{bound_in, is_half_bound};
ghost use Rattle.nf_kinds.specs.Kinds.{alone};
ghost use Rattle.nf_kinds.specs.Walk.{gives};
ghost use Rattle.nf_ast.specs.Tops.{view_top};
ghost use Rattle.nf_ast.specs.View.{trees};
ghost use Rattle.nf_slips.specs.Definitions.{definition_in};
ghost use Rattle.nf_order.specs.Memory.{call_in, head_in, piped_in};
ghost use Rattle.nf_order.specs.Parts.{beside as beside_by, bound_or_free, handed, value_or_call as value_or_call_by};
ghost use Rattle.nf_order.specs.declared.subject.Head.TheVariants as heads;
ghost use Rattle.nf_order.specs.Standing.{Gives, args_or_none, around_of, is_task as is_task_by, rest as rest_of, uncalled};

use crate::around::{Around, State};
use crate::calls::{call, called, settle};
use crate::subject::{Head, Subject, plain_of, read_head};
use nf_kinds::{Given, Kinds, Shape, given_kinds};
use nf_slips::{Definition, find_definition};
use nf_value::{Mem, Place, Txt};

/// What stands before a `|`: the name of a process or a workflow is its call, if nothing in the body has the name.
#[cycle(judge)]
pub(crate) fn pipe_first(
    first: Subject,
    around: &Around<'_>,
    state: &mut State,
) -> Result<Shape, Mem>
    ensures { IfOk result (λ v. Gives (rest_of (around_of around.now) first).head state.old v state.new) }
{
    let Subject { head, args } = first;
    match args {
        None => first_head(head, around, state),
        Some(args) => called(head, args, around, state),
    }
}

#[cycle(judge)]
fn first_head(head: Head, around: &Around<'_>, state: &mut State) -> Result<Shape, Mem>
    ensures { IfOk result (λ v. Gives (uncalled (around_of around.now) head).head state.old v state.new) }
{
    match head {
        Head::Name(place, name) => first_name(place, name, around, state),
        other => read_head(other, around, state),
    }
}

#[cycle(judge)]
fn first_name(place: Place, name: Txt, around: &Around<'_>, state: &mut State) -> Result<Shape, Mem>
    ensures { IfOk result (λ v. Gives (uncalled (around_of around.now) (heads.Name place name)).head
        state.old v state.new) }
{
    match bound_shape(&name, around, state)? {
        None => free_name(place, &name, around, state),
        Some(shape) => bound_name(shape, place, &name, around, state),
    }
}

/// What binds a name.
fn bound_shape(name: &Txt, around: &Around<'_>, state: &State) -> Result<Option<Shape>, Mem>
    ensures { IfOk result (λ o. o ≡ bound_in name.now state.now.scope) }
{
    match state.scope.bound(name.as_str()) {
        Some(shape) => Ok(Some(shape.copy(around.alloc)?)),
        None => Ok(None),
    }
}

/// A name that is bound to this, perhaps in one arm of an `if` alone.
#[cycle(judge)]
fn bound_name(
    shape: Shape,
    place: Place,
    name: &Txt,
    around: &Around<'_>,
    state: &mut State,
) -> Result<Shape, Mem>
    ensures { IfOk result (λ v. Gives (bound_or_free (is_half_bound name.now state.old.scope) (gives shape)
        (head_in around.now place name.now)) state.old v state.new) }
{
    if !state.scope.is_half_bound(name.as_str()) {
        return Ok(shape);
    }
    let before = state.scope.copy(around.alloc)?;
    let other = free_name(place, name, around, state)?;
    state.scope.merge(around.alloc, &before)?;
    shape.merged(around.alloc, &other)
}

/// A name that nothing in the body binds.
#[cycle(judge)]
fn free_name(place: Place, name: &Txt, around: &Around<'_>, state: &mut State) -> Result<Shape, Mem>
    ensures { IfOk result (λ v. Gives (head_in around.now place name.now) state.old v state.new) }
{
    let value = given_kinds(name.as_str());
    if is_task(around, name.as_str()) {
        let none = Vec::new(around.alloc);
        return value_or_call(value.plain, value, place, name, none, around, state);
    }
    Ok(Shape::alone(value))
}

/// The call of a name, or, if the name may stand for a value, perhaps nothing but this value.
#[cycle(judge)]
fn value_or_call(
    is_value: bool,
    value: Kinds,
    place: Place,
    name: &Txt,
    args: Vec<Given>,
    around: &Around<'_>,
    state: &mut State,
) -> Result<Shape, Mem>
    ensures { IfOk result (λ v. Gives (value_or_call_by is_value (alone value)
        (call_in around.now place name.now args.items)) state.old v state.new) }
{
    if !is_value {
        return call(place, name, args, around, state);
    }
    let before = state.scope.copy(around.alloc)?;
    let called = call(place, name, args, around, state)?;
    state.scope.merge(around.alloc, &before)?;
    Shape::alone(value).merged(around.alloc, &called)
}

/// Whether a name is that of a process or a workflow.
fn is_task(around: &Around<'_>, name: &str) -> bool
    ensures { result ≡ is_task_by (definition_in name.now (trees (map view_top around.now.tops.now))) }
{
    matches!(
        find_definition(around.tops, name),
        Definition::Process(_) | Definition::Workflow(_)
    )
}

/// What stands after a `|`, with what stands before it.
#[cycle(judge)]
pub(crate) fn pipe_to(
    left: Shape,
    right: Subject,
    around: &Around<'_>,
    state: &mut State,
) -> Result<Shape, Mem>
    ensures { IfOk result (λ v. Gives ((rest_of (around_of around.now) right).piped (handed left))
        state.old v state.new) }
{
    let Subject { head, args } = right;
    match head {
        Head::Name(place, name) => match args {
            None => pipe_to_name(left, place, &name, around, state),
            Some(args) => {
                let given = with_first(left, Some(args), around)?;
                call(place, &name, given, around, state)
            }
        },
        other => beside(left, Subject { head: other, args }, around, state),
    }
}

/// A name alone after a `|`. Where it may stand for a value, as in an operand that isn't evaluated, nothing may be
/// called.
#[cycle(judge)]
fn pipe_to_name(
    left: Shape,
    place: Place,
    name: &Txt,
    around: &Around<'_>,
    state: &mut State,
) -> Result<Shape, Mem>
    ensures { IfOk result (λ v. Gives (piped_in around.now place name.now (handed left)) state.old v state.new) }
{
    let named = state.scope.read(around.alloc, name.as_str())?;
    let is_value = named.kinds().plain;
    let value = Kinds::plain_unless(left.kinds().unknown);
    let given = with_first(left, None, around)?;
    value_or_call(is_value, value, place, name, given, around, state)
}

/// What stands before a `|` as the first of the arguments.
fn with_first(left: Shape, args: Option<Vec<Given>>, around: &Around<'_>) -> Result<Vec<Given>, Mem>
    ensures { IfOk result (λ v. v.items ≡ handed left ∷ args_or_none (option_map (λ v. v.items) args)) }
{
    let mut given = args.unwrap_or(Vec::new(around.alloc));
    let first = Given {
        option: None,
        shape: left,
        closure: None,
    };
    given.insert(0, first)?;
    Ok(given)
}

/// What is no process, workflow or operator, after what stands before it.
#[cycle(judge)]
fn beside(left: Shape, right: Subject, around: &Around<'_>, state: &mut State) -> Result<Shape, Mem>
    ensures { IfOk result (λ v. Gives (beside_by (handed left) (rest_of (around_of around.now) right).thing)
        state.old v state.new) }
{
    let right = settle(right, around, state)?;
    Ok(plain_of(&left, &right))
}
