//! Judges the parts after an expression: properties, indexes, calls and closures.

ghost use Rattle.std.specs.Prelude.{◌≡◌, ◌++◌, ◌∷◌, [], map, option_map, Some, IfOk, if◌then◌else◌};
ghost use Rattle.nf_ast.specs.Tree.{empty};
ghost use Rattle.nf_ast.specs.View.{view, view_arg, view_postfix};
ghost use Rattle.nf_kinds.specs.Scope.{bound_in};
ghost use Rattle.nf_slips.specs.Forms.{facts_of};
ghost use Rattle.nf_slips.specs.Memory.{view_form};
ghost use Rattle.nf_order.specs.Parts as spec;
ghost use Rattle.nf_opkinds.specs.Results.{or_plain as or_plain_by};
ghost use Rattle.nf_order.specs.declared.subject.Free.TheVariants as frees;
ghost use Rattle.nf_order.specs.Memory.{IfRead, IsCalled, args_of, closure_of, of_member, part_in};
ghost use Rattle.nf_order.specs.Parts.{of_call, of_closed, of_property, of_safe_property};
ghost use Rattle.nf_order.specs.Standing.{Gives, IsFree, after_index, after_part, after_parts, args_or_none, around_of};
ghost use Rattle.nf_order.specs.Standing.{marked_by, option_name as option_name_of, rest as rest_of, uncalled, view_index};

use crate::around::{Around, State};
use crate::calls::{called, settle};
use crate::exprs::value;
use crate::subject::{Free, Head, Subject, read_head};
use nf_ast::{Arg, ClosureExpr, Expr, Postfix, Prefix, PrefixOperator};
use nf_kinds::{ClosureFacts, Given, Key, Kinds, Shape, given_kinds};
use nf_opkinds::or_plain;
use nf_slips::{Form, closure_kinds, facts, read_form};
use nf_value::{Mem, Place, Txt};

/// An expression with the parts after it.
#[cycle(judge)]
pub(crate) fn parts(
    first: Subject,
    rest: &[Postfix],
    around: &Around<'_>,
    state: &mut State,
) -> Result<Subject, Mem>
    ensures { IfRead result around.now (λ a. after_parts a (rest_of a first) (map view_postfix rest.now))
        state.old state.new }
{
    let mut so_far = first;
    for part in rest {
        so_far = with_part(so_far, part, around, state)?;
    }
    Ok(so_far)
}

#[cycle(judge)]
fn with_part(
    before: Subject,
    part: &Postfix,
    around: &Around<'_>,
    state: &mut State,
) -> Result<Subject, Mem>
    ensures { IfRead result around.now (λ a. after_part a (rest_of a before) (view_postfix part.now))
        state.old state.new }
{
    match part {
        Postfix::Property(place, name) => with_member(before, *place, name, around, state),
        Postfix::SafeProperty(place, name) => member_of(before, *place, name, around, state),
        Postfix::Index(_, index) => with_index(before, index, around, state),
        Postfix::Call(_, list) => with_args(before, list, around, state),
        Postfix::With(closure) => with_closure(before, closure, around, state),
    }
}

/// `e.name`.
#[cycle(judge)]
fn with_member(
    before: Subject,
    place: Place,
    name: &Txt,
    around: &Around<'_>,
    state: &mut State,
) -> Result<Subject, Mem>
    ensures { IfRead result around.now (λ a. of_property empty (rest_of a before) place name.now)
        state.old state.new }
{
    let Subject { head, args } = before;
    match args {
        None => member_of_head(head, place, name, around, state),
        Some(args) => {
            let shape = called(head, args, around, state)?;
            Subject::member(shape, place, name)
        }
    }
}

/// `e.name`, where e isn't called.
fn member_of_head(
    head: Head,
    place: Place,
    name: &Txt,
    around: &Around<'_>,
    state: &State,
) -> Result<Subject, Mem>
    ensures { IfRead result around.now (λ a. of_property empty (uncalled a head) place name.now)
        state.now state.now }
{
    match head {
        Head::Name(_, object) => part_of_name(&object, place, name, around, state),
        other => {
            let shape = read_head(other, around, state)?;
            Subject::member(shape, place, name)
        }
    }
}

/// A part of what an expression gives.
#[cycle(judge)]
fn member_of(
    before: Subject,
    place: Place,
    name: &Txt,
    around: &Around<'_>,
    state: &mut State,
) -> Result<Subject, Mem>
    ensures { IfRead result around.now (λ a. of_safe_property empty (rest_of a before) place name.now)
        state.old state.new }
{
    let shape = settle(before, around, state)?;
    Subject::member(shape, place, name)
}

/// `m.name`, where m is a name: what binds it in the body comes first.
fn part_of_name(
    object: &Txt,
    place: Place,
    name: &Txt,
    around: &Around<'_>,
    state: &State,
) -> Result<Subject, Mem>
    ensures { IfRead result around.now (λ a. of_member a object.now place name.now) state.now state.now }
{
    match state.scope.bound(object.as_str()) {
        Some(shape) => {
            let shape = shape.copy(around.alloc)?;
            part_of_bound(shape, object, place, name, around, state)
        }
        None => {
            let free = free_object(object, name, around, state)?;
            Subject::free(free, place, name)
        }
    }
}

/// `m.name`, where m is bound to this. Bound in one arm of an `if` alone, m may be free too, and so may `Math`.
fn part_of_bound(
    shape: Shape,
    object: &Txt,
    place: Place,
    name: &Txt,
    around: &Around<'_>,
    state: &State,
) -> Result<Subject, Mem>
    requires bound { bound_in object.now state.now.scope ≡ Some shape }
    ensures { IfRead result around.now (λ a. of_member a object.now place name.now) state.now state.now }
{
    if state.scope.is_half_bound(object.as_str()) || object.as_str() == "Math" {
        let free = free_object(object, name, around, state)?;
        return Subject::half_bound(shape, free, place, name);
    }
    Subject::member(shape, place, name)
}

/// `channel`, `Math`, `P.out` and the like before `.name`, where nothing in the body binds the word.
fn free_object(object: &Txt, name: &Txt, around: &Around<'_>, state: &State) -> Result<Free, Mem>
    ensures { IfOk result (λ f. IsFree state.now.scope object.now name.now f) }
{
    if object.as_str() == "channel" || object.as_str() == "Channel" {
        return Ok(Free::Channel);
    }
    match state.scope.call(object.as_str()) {
        Some(shape) if name.as_str() == "out" => output_of(object, shape, around),
        _ => Ok(Free::Word(Shape::alone(free_kinds(object.as_str())))),
    }
}

/// `P.out`, where P was called and gave this. A word that stands for a value where nothing binds it may stand for that
/// too.
fn output_of(object: &Txt, shape: &Shape, around: &Around<'_>) -> Result<Free, Mem>
    ensures { IfOk result (λ f. f ≡ frees.Output (or_plain_by (spec.free_kind object.now).plain shape.now)) }
{
    let may_be_plain = free_kinds(object.as_str()).plain;
    let shape = shape.copy(around.alloc)?;
    Ok(Free::Output(or_plain(around.alloc, may_be_plain, shape)?))
}

/// What a name is before a dot that nothing binds in the body.
fn free_kinds(object: &str) -> Kinds
    ensures { result ≡ spec.free_kind object.now }
{
    if object == "Math" {
        return Kinds::plain();
    }
    given_kinds(object)
}

/// `e[i]`.
#[cycle(judge)]
fn with_index(
    before: Subject,
    index: &Expr,
    around: &Around<'_>,
    state: &mut State,
) -> Result<Subject, Mem>
    ensures { IfRead result around.now (λ a. after_index a (rest_of a before) (view index.now)) state.old state.new }
{
    let shape = settle(before, around, state)?;
    let place = value(index, around, state)?;
    if place.kinds().unknown {
        return Ok(Subject::of_kind(Kinds::unknown()));
    }
    Ok(Subject::of_kind(indexed(index, &shape)))
}

/// What an index is, as far as it is known before a run.
#[derive(Drop)]
enum Index {
    /// A number.
    At(i64),
    /// A number with a minus before it.
    Below(i64),
    /// Anything else.
    Other,
}

fn indexed(index: &Expr, shape: &Shape) -> Kinds
    ensures { result ≡ spec.index_kind (view index.now) shape.now }
{
    match read_index(index) {
        Index::At(number) => at_number(number, shape),
        Index::Below(number) => below(number, shape),
        Index::Other => shape.some_output(),
    }
}

fn read_index(expr: &Expr) -> Index
    ensures { view_index result ≡ spec.index_of (view expr.now) }
{
    match expr {
        Expr::Number(_, number) => Index::At(*number),
        Expr::Prefix(operators, of) => after_prefixes(operators, read_index(of)),
        Expr::Infix(first, rest) => alone(rest.is_empty(), read_index(first)),
        Expr::Conditional(first, rest) => alone(rest.is_empty(), read_index(first)),
        Expr::Postfix(first, rest) => alone(rest.is_empty(), read_index(first)),
        Expr::Text(_, _, _)
        | Expr::Pattern(_, _)
        | Expr::Template(_, _, _)
        | Expr::Truth(_, _)
        | Expr::Null(_)
        | Expr::Name(_, _)
        | Expr::List(_, _)
        | Expr::Map(_, _)
        | Expr::Closure(_) => Index::Other,
    }
}

/// The index, if it stands alone in its node.
fn alone(is_alone: bool, index: Index) -> Index
    ensures { view_index result ≡ (if is_alone then view_index index else spec.other) }
{
    if is_alone { index } else { Index::Other }
}

fn after_prefixes(operators: &[Prefix], index: Index) -> Index
    ensures { view_index result ≡ marked_by operators.now (view_index index) }
{
    match operators {
        [] => index,
        [one] => after_prefix(one.operator, index),
        _ => Index::Other,
    }
}

fn after_prefix(operator: PrefixOperator, index: Index) -> Index
    ensures { view_index result ≡ spec.marked operator (view_index index) }
{
    match (operator, index) {
        (PrefixOperator::Minus, Index::At(number)) => Index::Below(number),
        _ => Index::Other,
    }
}

fn at_number(number: i64, shape: &Shape) -> Kinds
    ensures { result ≡ spec.at_number number shape.now }
{
    match usize::try_from(number) {
        Ok(place) => shape.output(&Key::At(place)),
        Err(_) => no_output(shape),
    }
}

fn below(number: i64, shape: &Shape) -> Kinds
    ensures { result ≡ spec.at_number (spec.below number) shape.now }
{
    if number > 0 {
        return no_output(shape);
    }
    match usize::try_from(number.unsigned_abs()) {
        Ok(place) => shape.output(&Key::At(place)),
        Err(_) => no_output(shape),
    }
}

/// What an index is that no output has: unknown, or a part of a plain value.
fn no_output(shape: &Shape) -> Kinds
    ensures { result ≡ spec.no_output_of shape.now }
{
    let kinds = shape.kinds();
    if shape.has_outputs() {
        return Kinds::plain_unless(!kinds.plain);
    }
    Kinds::plain_unless(kinds.unknown)
}

/// `e(..)`.
#[cycle(judge)]
fn with_args(
    before: Subject,
    list: &[Arg],
    around: &Around<'_>,
    state: &mut State,
) -> Result<Subject, Mem>
    ensures { IfRead result around.now (λ a. of_call empty (rest_of a before) (args_of a list.now))
        state.old state.new }
{
    let head = callable(before, around, state)?;
    let given = args(list, around, state)?;
    Ok(Subject::called(head, given))
}

/// What is called by arguments: what isn't called yet, or the result of a call.
#[cycle(judge)]
fn callable(before: Subject, around: &Around<'_>, state: &mut State) -> Result<Head, Mem>
    ensures { IfOk result (λ h. IsCalled around.now before h state.old state.new) }
{
    let Subject { head, args } = before;
    match args {
        None => Ok(head),
        Some(args) => Ok(Head::Value(called(head, args, around, state)?)),
    }
}

#[cycle(judge)]
fn args(list: &[Arg], around: &Around<'_>, state: &mut State) -> Result<Vec<Given>, Mem>
    ensures { IfOk result (λ v. Gives (spec.all_given (args_of (around_of around.now) list.now))
        state.old v.items state.new) }
{
    let mut given = Vec::new(around.alloc);
    for one in list {
        let last = arg(one, around, state)?;
        given.push(last)?;
    }
    Ok(given)
}

#[cycle(judge)]
fn arg(arg: &Arg, around: &Around<'_>, state: &mut State) -> Result<Given, Mem>
    ensures { IfOk result (λ v. Gives (part_in around.now (view_arg arg.now)).argument state.old v state.new) }
{
    let shape = value(&arg.value, around, state)?;
    let option = option_name(arg)?;
    let closure = closure_facts(read_form(&arg.value), around)?;
    Ok(Given {
        option,
        shape,
        closure,
    })
}

/// The name before an argument's colon.
fn option_name(arg: &Arg) -> Result<Option<Txt>, Mem>
    ensures { IfOk result (λ n. n ≡ option_name_of arg.now.name) }
{
    match &arg.name {
        Some((_, name)) => Ok(Some(name.copy()?)),
        None => Ok(None),
    }
}

/// What an argument is to an operator, if it is a closure.
fn closure_facts(form: Form<'_>, around: &Around<'_>) -> Result<Option<ClosureFacts>, Mem>
    ensures { IfOk result (λ f. f ≡ facts_of (view_form form.entry)) }
{
    match form {
        Form::Closure(closure) => Ok(Some(facts(around.alloc, closure)?)),
        _ => Ok(None),
    }
}

/// `e { .. }`: the closure is the last argument.
fn with_closure(
    before: Subject,
    closure: &ClosureExpr,
    around: &Around<'_>,
    state: &mut State,
) -> Result<Subject, Mem>
    ensures { IfRead result around.now (λ a. of_closed empty (rest_of a before) (closure_of a closure.now))
        state.old state.new }
{
    let kinds = closure_kinds(
        around.alloc,
        closure,
        around.unknown,
        &state.scope,
        &mut state.broken,
    )?;
    let last = Given {
        option: None,
        shape: Shape::alone(kinds),
        closure: Some(facts(around.alloc, closure)?),
    };
    let Subject { head, args } = before;
    Ok(Subject::called(head, with_last(args, last, around)?))
}

/// The arguments, and one after them.
fn with_last(args: Option<Vec<Given>>, last: Given, around: &Around<'_>) -> Result<Vec<Given>, Mem>
    ensures { IfOk result (λ v. v.items ≡ args_or_none (option_map (λ v. v.items) args) ++ last ∷ []) }
{
    let mut given = args.unwrap_or(Vec::new(around.alloc));
    given.push(last)?;
    Ok(given)
}
