//! The values of options.

ghost use Rattle.std.specs.Prelude.{◌≡◌};
ghost use Rattle.nf_value.specs.View.{plain_of};
ghost use Rattle.nf_ast.specs.View.{view};
ghost use Rattle.nf_meaning.specs.Arguments as spec;
ghost use Rattle.nf_meaning.specs.Walk as walk;
ghost use Rattle.nf_around.specs.Gives.{IsFlag, IsValue, Reads};

use crate::forms::closure_in;
use crate::surroundings::Surroundings;
use nf_ast::Expr;
use nf_builtins::Natives;
use nf_meaning::LowerFault;
use nf_scopes::BodyNames;
use nf_value::{Place, Value};

impl<N: Natives> Surroundings<'_, N> {
    ghost use Rattle.nf_around.specs.Around.{IsBody};

    /// The value of an option whose name stands at `place` (own).
    ///
    /// # Errors
    ///
    /// `BadOption` at its name if it is a closure; else as for `value_of`.
    pub fn option_value(
        &self,
        place: Place,
        expr: &Expr,
        names: &BodyNames,
    ) -> Result<Value, LowerFault>
        requires { N.keeps self.now.natives.now }
        ensures { (a : walk.Around) (s : walk.State) → IsBody N.titles N.answer self.now names.now a s.scope
            → Reads IsValue (spec.option_value place (view expr.now)) a s result }
    {
        match closure_in(expr) {
            Some(_) => Err(LowerFault::BadOption { place }),
            None => self.value_of(expr, names),
        }
    }

    /// The value of an option that is true or false (own).
    ///
    /// # Errors
    ///
    /// `BadOption` at its name if it is of another kind; else as for `option_value`.
    pub fn flag_arg(&self, place: Place, expr: &Expr, names: &BodyNames) -> Result<bool, LowerFault>
        requires { N.keeps self.now.natives.now }
        ensures { (a : walk.Around) (s : walk.State) (x : spec.Arg)
            → IsBody N.titles N.answer self.now names.now a s.scope
            → x.tree ≡ view expr.now → Reads IsFlag (spec.flag_arg place x) a s result }
    {
        let value = self.option_value(place, expr, names)?;
        flag_in(place, &value)
    }
}

/// Whether an option whose name stands at `place` is true (own). Takes no memory.
///
/// # Errors
///
/// `BadOption` at its name if it is neither true nor false.
pub fn flag_in(place: Place, value: &Value) -> Result<bool, LowerFault>
    ensures { (a : walk.Around) (s : walk.State) → Reads IsFlag (spec.flag_in place (plain_of value.now)) a s result }
{
    match value {
        Value::Truth(truth) => Ok(*truth),
        Value::Null
        | Value::Int(_)
        | Value::Text(_)
        | Value::File(_)
        | Value::List(_)
        | Value::Map(_) => Err(LowerFault::BadOption { place }),
    }
}
