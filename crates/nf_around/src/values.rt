//! The values of expressions that are evaluated before the run, and what is wrong with the names of expressions.

ghost use Rattle.std.specs.Prelude.{◌≡◌, [], ◌∷◌};
ghost use Rattle.nf_value.specs.Plain.{Plain, null};
ghost use Rattle.nf_bodies.specs.Means.{GivesAs};
ghost use Rattle.nf_placed.specs.Placed.{Evaluates, Placed};
ghost use Rattle.nf_ast.specs.View.{view, view_closure};
ghost use Rattle.nf_eval.specs.Evaluation.{Closing, apply_of, eval_of};
ghost use Rattle.nf_lowered.specs.Given.{Gives, HasFault};
ghost use Rattle.nf_names_used.specs.Uses.{no_names};
ghost use Rattle.nf_meaning.specs.Closures.{env_for};
ghost use Rattle.nf_meaning.specs.Expressions as spec;
ghost use Rattle.nf_meaning.specs.Functions.{names_fault};
ghost use Rattle.nf_meaning.specs.Lowered.{known};
ghost use Rattle.nf_meaning.specs.Names as reading;
ghost use Rattle.nf_meaning.specs.Walk as walk;
ghost use Rattle.nf_meaning.specs.Walk.{known_in};
ghost use Rattle.nf_known.specs.Reading.{reading_of};
ghost use Rattle.nf_around.specs.Gives.{IsUnit, IsValue, Judges, Reads};

use crate::forms::closure_in;
use crate::surroundings::Surroundings;
use nf_ast::{ClosureExpr, Expr};
use nf_builtins::Natives;
use nf_eval::{Closure, apply, eval};
use nf_known::{Around, Reading};
use nf_meaning::LowerFault;
use nf_relevant::laws::by_its_names;
use nf_relevant::names_in;
use nf_scopes::BodyNames;
use nf_value::{EvalRefusal, Vals, Value};

impl<N: Natives> Surroundings<'_, N> {
    ghost use Rattle.nf_around.specs.Around.{IsAround, IsBody};

    /// The value of an expression that is evaluated before the run (own). Its names are looked at first.
    ///
    /// # Errors
    ///
    /// `BadOption` at a closure's brace; the first fault of its names; `ParamFault` if it can't be evaluated. `Mem` for
    /// want of memory.
    pub fn value_of(&self, expr: &Expr, names: &BodyNames) -> Result<Value, LowerFault>
        requires { N.keeps self.now.natives.now }
        ensures { (a : walk.Around) (s : walk.State) → IsBody N.titles N.answer self.now names.now a s.scope
            → Reads IsValue (spec.value_of (view expr.now)) a s result }
    {
        match closure_in(expr) {
            Some(closure) => Err(LowerFault::BadOption {
                place: closure.place,
            }),
            None => {
                self.check(expr, names, Reading::BeforeRun)?;
                self.evaluated(expr, names)
            }
        }
    }

    /// An expression that is only read, as that of `println` in a workflow's body (own).
    ///
    /// # Errors
    ///
    /// The first fault of its names. `Mem` for want of memory.
    pub fn only_read(&self, expr: &Expr, names: &BodyNames) -> Result<(), LowerFault>
        ensures { (a : walk.Around) (s : walk.State) → IsBody N.titles N.answer self.now names.now a s.scope
            → Reads IsUnit (spec.only_read (view expr.now)) a s result }
    {
        self.check(expr, names, Reading::Unread)
    }

    /// The value of an expression with whose names nothing is wrong.
    fn evaluated(&self, expr: &Expr, names: &BodyNames) -> Result<Value, LowerFault>
        requires { N.keeps self.now.natives.now }
        ensures { (a : walk.Around) (s : walk.Scope) → IsBody N.titles N.answer self.now names.now a s
            → Gives IsValue (known (eval_of (view expr.now) (env_for reading.before_run a s))) result }
    {
        by_its_names();
        let used = names_in(self.alloc, expr)?;
        let env = self.env(&used, names, Reading::BeforeRun)?;
        before_run(eval(self.alloc, expr, &env, self.natives))
    }

    /// What a closure gives for null before the run, as that of `ifEmpty` (own).
    ///
    /// # Errors
    ///
    /// `ParamFault` if it can't be applied. `Mem` for want of memory.
    pub fn applied_to_null(&self, closure: &Closure) -> Result<Value, LowerFault>
        requires { N.keeps self.now.natives.now }
        ensures { (a : walk.Around) (c : Closing) → IsAround N.titles N.answer self.now a
            → GivesAs a.given.program closure.now c
            → Gives IsValue (known (apply_of c (null ∷ []))) result }
    {
        let mut args = Vec::new(self.alloc);
        args.push(Value::Null)?;
        let nothing = Vals::of(args);
        let evaluated = apply(self.alloc, closure, &nothing, self.natives);
        before_run(evaluated)
    }

    /// The first fault of the names of an expression.
    pub(crate) fn check(
        &self,
        expr: &Expr,
        names: &BodyNames,
        reading: Reading,
    ) -> Result<(), LowerFault>
        ensures { (a : walk.Around) (s : walk.Scope) → IsBody N.titles N.answer self.now names.now a s
            → Judges (names_fault a.given a.definitions (known_in a s) (reading_of reading)
            (view expr.now) no_names) result }
    {
        let around = Around::Body(names);
        judged(self.known.names_fault(self.alloc, expr, &around, reading)?)
    }

    /// The first fault of the names of a closure.
    pub(crate) fn check_closure(
        &self,
        closure: &ClosureExpr,
        names: &BodyNames,
        reading: Reading,
    ) -> Result<(), LowerFault>
        ensures { (a : walk.Around) (s : walk.Scope) → IsBody N.titles N.answer self.now names.now a s
            → Judges (names_fault a.given a.definitions (known_in a s) (reading_of reading)
            (view_closure closure.now) no_names) result }
    {
        let around = Around::Body(names);
        judged(
            self.known
                .closure_fault(self.alloc, closure, &around, reading)?,
        )
    }
}

/// Nothing is wrong, or this fault is.
pub(crate) fn judged(fault: Option<LowerFault>) -> Result<(), LowerFault>
    ensures { Judges fault result }
{
    match fault {
        Some(fault) => Err(fault),
        None => Ok(()),
    }
}

/// What is evaluated before the run: its fault is the script's.
fn before_run(evaluated: Result<Value, EvalRefusal>) -> Result<Value, LowerFault>
    ensures { (due : Placed Plain) → Evaluates due evaluated → Gives IsValue (known due) result }
{
    match evaluated {
        Ok(value) => Ok(value),
        Err(refusal) => Err(fault_before_run(refusal)),
    }
}

/// The script's fault for one of what is evaluated before the run.
pub(crate) fn fault_before_run(refusal: EvalRefusal) -> LowerFault
    ensures { (due : Placed Plain) → Evaluates due (Err refusal) → HasFault (known due) result }
{
    match refusal {
        EvalRefusal::Fault(fault) => LowerFault::ParamFault(fault),
        EvalRefusal::Mem => LowerFault::Mem,
    }
}
