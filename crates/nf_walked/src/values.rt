//! Values and names of a body: what changes nothing.

ghost use Rattle.std.specs.Prelude.{◌≡◌};
ghost use Rattle.nf_ast.specs.View.{view};
ghost use Rattle.nf_meaning.specs.Expressions as meaning;
ghost use Rattle.nf_meaning.specs.Workflow as workflow;

use crate::walker::{Walker, bad_option};
use nf_ast::Expr;
use nf_builtins::Natives;
use nf_fronts::Front;
use nf_leading::InBody;
use nf_lowering::{Lowering, copy_thing};
use nf_meaning::LowerFault;
use nf_scopes::Thing;
use nf_value::{Place, Txt, Value};

impl<N: Natives> Walker<'_, N> {
    ghost use Rattle.nf_fronts.specs.Fronts.{tree_of};
    ghost use Rattle.nf_walked.specs.Around.{CanWalk, Knows};
    ghost use Rattle.nf_walked.specs.Forms.{a_thing, a_value, nothing};
    ghost use Rattle.nf_walked.specs.Parts.{as_known, leading_at, name_thing_at};
    ghost use Rattle.nf_walked.specs.Steps.{Here, Walked, due};

    /// The value of an expression, or of the front of one, that is evaluated before the run (own).
    ///
    /// # Errors
    ///
    /// `BadOption` at a closure's brace; the first fault of its names; `ParamFault` if it can't be evaluated. `Mem` for
    /// want of memory.
    pub fn value_of(&self, state: &Lowering, front: Front<'_>) -> Result<Value, LowerFault>
        requires { CanWalk N.titles N.answer N.keeps self.now state.now }
        ensures { Walked (Knows N.titles N.answer self.now) (due a_value (meaning.value_of (tree_of front.entry)))
            state.now state.now result }
    {
        match front {
            Front::Whole(expr) => self.around.value_of(expr, state.names()),
            Front::Operands(_, _) | Front::Turns(_, _) | Front::Parts(_, _) => {
                self.copied_value(state, front)
            }
        }
    }

    /// The same of a front, which is copied first.
    fn copied_value(&self, state: &Lowering, front: Front<'_>) -> Result<Value, LowerFault>
        requires { CanWalk N.titles N.answer N.keeps self.now state.now }
        ensures { Walked (Knows N.titles N.answer self.now) (due a_value (meaning.value_of (tree_of front.entry)))
            state.now state.now result }
    {
        let copy = front.copy_out(self.alloc)?;
        self.around.value_of(&copy, state.names())
    }

    /// The same as a thing.
    ///
    /// # Errors
    ///
    /// As for `value_of`.
    pub fn known_thing(&self, state: &Lowering, front: Front<'_>) -> Result<Thing, LowerFault>
        requires { CanWalk N.titles N.answer N.keeps self.now state.now }
        ensures { Walked (Knows N.titles N.answer self.now)
            (due a_thing (as_known (meaning.value_of (tree_of front.entry)))) state.now state.now result }
    {
        let value = self.value_of(state, front)?;
        Ok(Thing::Known(value))
    }

    /// An expression that is only read, as that of `println` (own).
    ///
    /// # Errors
    ///
    /// The first fault of its names. `Mem` for want of memory.
    pub fn only_read(&self, state: &Lowering, expr: &Expr) -> Result<(), LowerFault>
        requires { CanWalk N.titles N.answer N.keeps self.now state.now }
        ensures { Walked (Knows N.titles N.answer self.now) (due nothing (meaning.only_read (view expr.now)))
            state.now state.now result }
    {
        self.around.only_read(expr, state.names())
    }

    /// `log.info e` (own). `place` is that of the name.
    ///
    /// # Errors
    ///
    /// `BadOption` at the place for any other name; as for `only_read`.
    pub fn logged(
        &self,
        state: &Lowering,
        place: Place,
        name: &Txt,
        expr: &Expr,
    ) -> Result<(), LowerFault>
        requires { CanWalk N.titles N.answer N.keeps self.now state.now }
        ensures { Walked (Knows N.titles N.answer self.now)
            (due nothing (workflow.logged place name.now (view expr.now))) state.now state.now result }
    {
        if name.as_str() == "info" {
            return self.only_read(state, expr);
        }
        bad_option(place)
    }

    /// Whether an expression, or the front of one, leads to a channel, to what a call gives, or to a file (own).
    /// Takes no memory.
    pub fn leads(&self, state: &Lowering, front: Front<'_>) -> bool
        ensures { Here (Knows N.titles N.answer self.now) state.now
            (λ p. result ≡ (leading_at p (tree_of front.entry)).alone) }
    {
        let body = InBody {
            names: state.names(),
            definitions: self.definitions,
            natives: self.around.natives(),
        };
        body.leading(front).alone
    }

    /// What a name stands for that is bound in the body. `place` is that of the name.
    ///
    /// # Errors
    ///
    /// `BadOption` at the place if no name of the body is this one. `Mem` for want of memory.
    pub fn name_thing(
        &self,
        state: &Lowering,
        place: Place,
        name: &Txt,
    ) -> Result<Thing, LowerFault>
        requires { CanWalk N.titles N.answer N.keeps self.now state.now }
        ensures { Walked (Knows N.titles N.answer self.now) (due a_thing (name_thing_at name.now place))
            state.now state.now result }
    {
        match state.names().thing(name.as_str()) {
            Some(thing) => Ok(copy_thing(self.alloc, thing)?),
            None => bad_option(place),
        }
    }
}
