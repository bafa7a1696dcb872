//! What is evaluated and read at the top of a script, where no body is.

ghost use Rattle.nf_ast.specs.View.{view};
ghost use Rattle.nf_meaning.specs.Expressions as meaning;
ghost use Rattle.nf_meaning.specs.Script.{opening};
ghost use Rattle.nf_meaning.specs.Walk as walk;
ghost use Rattle.nf_meaning.specs.Workflow.{logged};
ghost use Rattle.nf_around.specs.Around.{IsAround, NamesSeen};
ghost use Rattle.nf_around.specs.Gives.{IsUnit, IsValue, Reads};

use indexmap::IndexMap;
use nf_around::Surroundings;
use nf_ast::Expr;
use nf_builtins::Natives;
use nf_meaning::LowerFault;
use nf_scopes::BodyNames;
use nf_value::{Place, Txt, Value};
use std::alloc::Global;

/// The value of an expression.
pub(crate) fn value_alone<N: Natives>(
    alloc: Global,
    around: &Surroundings<'_, N>,
    expr: &Expr,
) -> Result<Value, LowerFault>
    requires { N.keeps around.now.natives.now }
    ensures { (a : walk.Around) → IsAround N.titles N.answer around.now a
        → Reads IsValue (meaning.value_of (view expr.now)) a opening result }
{
    let none = no_names(alloc);
    around.value_of(expr, &none)
}

/// An expression that is only read, as that of `println`.
pub(crate) fn read_alone<N: Natives>(
    alloc: Global,
    around: &Surroundings<'_, N>,
    expr: &Expr,
) -> Result<(), LowerFault>
    ensures { (a : walk.Around) → IsAround N.titles N.answer around.now a
        → Reads IsUnit (meaning.only_read (view expr.now)) a opening result }
{
    let none = no_names(alloc);
    around.only_read(expr, &none)
}

/// `log.info e`, or `log` with another name, which stands at the place.
pub(crate) fn log_alone<N: Natives>(
    alloc: Global,
    around: &Surroundings<'_, N>,
    place: Place,
    name: &Txt,
    expr: &Expr,
) -> Result<(), LowerFault>
    ensures { (a : walk.Around) → IsAround N.titles N.answer around.now a
        → Reads IsUnit (logged place name.now (view expr.now)) a opening result }
{
    if name.as_str() == "info" {
        return read_alone(alloc, around, expr);
    }
    Err(LowerFault::BadOption { place })
}

/// The names of a body that knows none.
fn no_names(alloc: Global) -> BodyNames
    ensures { NamesSeen result opening.scope }
{
    let none = IndexMap::new(alloc);
    BodyNames::new(alloc, none)
}
