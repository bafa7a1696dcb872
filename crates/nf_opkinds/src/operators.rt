//! What calls of operators give, and which rules they break.

ghost use Rattle.std.specs.Prelude.{◌≡◌, ◌++◌, [], IfOk, OnOk};
ghost use Rattle.nf_optable.specs.Rows.{operator_rows, row_of};
ghost use Rattle.nf_kinds.specs.Walk.{came, Comes};
ghost use Rattle.nf_opkinds.specs.Operators as spec;

use crate::closures::{closure_name, has_closure, has_option, has_other_closure, labels};
use crate::results::{all_of_kind, or_plain, shape_of};
use nf_bag::Row;
use nf_kinds::{
    BodyScope, Broken, Given, Kinds, OrderRule, Shape, any_queue, any_unknown, note_if,
};
use nf_optable::{Arrival, ClosureUse, Gives, OpRow, Operator, operator_named};
use nf_value::{Mem, Place, Txt};
use std::alloc::Global;

fn is_arrival(operator: Operator, kinds: Kinds) -> bool
    ensures { result ≡ spec.breaks_arrival operator kinds }
{
    match operator.arrival() {
        Arrival::Never => false,
        Arrival::OfQueue => kinds.queue,
        Arrival::Always => true,
    }
}

fn wants_total(closure: ClosureUse) -> bool
    ensures { result ≡ spec.wants_total closure }
{
    matches!(closure, ClosureUse::Total)
}

fn refuses_closure(closure: ClosureUse) -> bool
    ensures { result ≡ spec.refuses_closure closure }
{
    matches!(closure, ClosureUse::Refused)
}

fn groups(operator: Operator) -> bool
    ensures { result ≡ spec.groups operator }
{
    matches!(operator, Operator::Bag(Row::GroupTuple))
}

/// Notes the rules that an operator's call breaks, at its name.
fn note_rules(
    row: OpRow,
    place: Place,
    kinds: Kinds,
    args: &[Given],
    broken: &mut Vec<Broken>,
) -> Result<(), Mem>
    ensures { OnOk result (broken.new.items ≡ broken.old.items ++ spec.rules_of row place kinds args.now) }
{
    let is_arrival = is_arrival(row.operator, kinds);
    let is_other = wants_total(row.closure) && has_other_closure(args);
    let is_refused = refuses_closure(row.closure) && has_closure(args);
    let is_sized = groups(row.operator) && has_option("size", args);
    note_if(is_arrival, OrderRule::Arrival, place, broken)?;
    note_if(is_other, OrderRule::ReduceClosure, place, broken)?;
    note_if(is_refused, OrderRule::ComparingClosure, place, broken)?;
    note_if(is_sized, OrderRule::GroupSize, place, broken)
}

fn is_queue_given(gives: Gives, kinds: Kinds, args: &[Given]) -> bool
    ensures { result ≡ spec.is_queue_given gives kinds args.now }
{
    match gives {
        Gives::ValueChannel => false,
        Gives::Queue => true,
        Gives::AsInputs => kinds.queue || any_queue(args),
    }
}

fn kinds_given(row: OpRow, kinds: Kinds, args: &[Given]) -> Kinds
    ensures { result ≡ spec.kind_given row kinds args.now }
{
    let is_queue = is_queue_given(row.gives, kinds, args);
    Kinds::known(kinds.plain, !is_queue, is_queue)
}

/// What the call of an operator gives.
fn given_shape(alloc: Global, row: OpRow, kinds: Kinds, args: &[Given]) -> Result<Shape, Mem>
    ensures { IfOk result (λ v. v ≡ spec.given_by_use row.closure (spec.kind_given row kinds args.now) args.now) }
{
    let kinds = kinds_given(row, kinds, args);
    match row.closure {
        ClosureUse::Labels => labelled(alloc, kinds, args),
        ClosureUse::Never
        | ClosureUse::May
        | ClosureUse::Must
        | ClosureUse::InPlace
        | ClosureUse::Name
        | ClosureUse::Total
        | ClosureUse::Refused => Ok(Shape::alone(kinds)),
    }
}

/// Outputs of one kind, one for each label. What may be a plain value too may have a method of that name.
fn labelled(alloc: Global, kinds: Kinds, args: &[Given]) -> Result<Shape, Mem>
    ensures { IfOk result (λ v. v ≡ spec.labelled kinds args.now) }
{
    let outputs = all_of_kind(alloc, kinds, labels(alloc, args)?)?;
    or_plain(alloc, kinds.plain, shape_of(alloc, &outputs)?)
}

/// A call of an operator, if there is one of the name; what may be a plain value too may have a method of that name.
fn operated(
    alloc: Global,
    place: Place,
    name: &str,
    kinds: Kinds,
    args: &[Given],
    broken: &mut Vec<Broken>,
) -> Result<Shape, Mem>
    ensures gives { IfOk result (λ v. v
        ≡ (spec.operated (row_of name.now operator_rows) place kinds args.now).gives) }
    ensures broken { OnOk result (broken.new.items ≡ broken.old.items
        ++ (spec.operated (row_of name.now operator_rows) place kinds args.now).broken) }
{
    match operator_named(name) {
        Some(row) => {
            note_rules(row, place, kinds, args, broken)?;
            given_shape(alloc, row, kinds, args)
        }
        None => Ok(Shape::alone(Kinds::plain_unless(!kinds.plain))),
    }
}

/// A call of any operator but `set`, or of a method.
fn other_call(
    alloc: Global,
    place: Place,
    name: &str,
    kinds: Kinds,
    args: &[Given],
    broken: &mut Vec<Broken>,
) -> Result<Shape, Mem>
    ensures gives { IfOk result (λ v. v ≡ (spec.other_call place name.now kinds args.now).gives) }
    ensures broken { OnOk result (broken.new.items ≡ broken.old.items
        ++ (spec.other_call place name.now kinds args.now).broken) }
{
    if kinds.unknown || any_unknown(args) {
        return Ok(Shape::alone(Kinds::unknown()));
    }
    if kinds.is_channel() {
        return operated(alloc, place, name, kinds, args, broken);
    }
    Ok(Shape::alone(Kinds::known(kinds.plain, false, false)))
}

/// `e.name(..)`: an operator of a channel, and else a method.
pub fn member_call(
    alloc: Global,
    place: Place,
    name: &str,
    shape: Shape,
    args: &[Given],
    scope: &mut BodyScope,
    broken: &mut Vec<Broken>,
) -> Result<Shape, Mem>
    ensures { IfOk result (λ v. Comes (spec.member_call place name.now shape args.now scope.old)
        broken.old.items v scope.new broken.new.items) }
{
    if is_setting(operator_named(name)) {
        return set_call(alloc, shape, args, scope);
    }
    other_call(alloc, place, name, shape.kinds(), args, broken)
}

/// Whether an operator's closure is just a name, as that of `set` is.
fn is_setting(row: Option<OpRow>) -> bool
    ensures { result ≡ spec.is_setting row }
{
    match row {
        Some(row) => matches!(row.closure, ClosureUse::Name),
        None => false,
    }
}

/// `set { name }` gives what it is called on, and the name stands for all of it.
fn set_call(
    alloc: Global,
    shape: Shape,
    args: &[Given],
    scope: &mut BodyScope,
) -> Result<Shape, Mem>
    ensures { IfOk result (λ v. spec.set_call shape args.now scope.old ≡ came v scope.new []) }
{
    if !can_be_set(&shape) {
        return Ok(Shape::alone(Kinds::known(shape.kinds().plain, false, false)));
    }
    let name = closure_name(args)?;
    bind(alloc, &name, &shape, scope)?;
    Ok(shape)
}

/// Has a name stand for all of this, if there is one.
fn bind(alloc: Global, name: &Option<Txt>, shape: &Shape, scope: &mut BodyScope) -> Result<(), Mem>
    ensures { OnOk result (spec.named_by name.now shape.now scope.old ≡ came shape.now scope.new []) }
{
    match name {
        Some(name) => set(alloc, name, shape, scope),
        None => Ok(()),
    }
}

/// Has a name stand for all of this. If this may be a plain value too, the name may also stay what it was.
fn set(alloc: Global, name: &Txt, shape: &Shape, scope: &mut BodyScope) -> Result<(), Mem>
    ensures { OnOk result (scope.new ≡ spec.set_to shape.now.kinds.plain name.now shape.now scope.old) }
{
    let before = scope.copy(alloc)?;
    scope.assign(alloc, name, shape.copy(alloc)?)?;
    if shape.kinds().plain {
        scope.merge(alloc, &before)?;
    }
    Ok(())
}

/// Whether it is more than a plain value, whose methods aren't operators.
fn can_be_set(shape: &Shape) -> bool
    ensures { result ≡ spec.can_be_set shape.now }
{
    shape.has_outputs() || shape.kinds().unknown || shape.kinds().is_channel()
}
