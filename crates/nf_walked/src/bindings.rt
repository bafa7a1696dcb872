//! `def` of several names: from the items of a list.

ghost use Rattle.std.specs.Prelude.{◌≡◌, ◌||◌, ℕ, List, map, Err};
ghost use Rattle.nf_value.specs.Plain.{Plain};
ghost use Rattle.nf_value.specs.View.{pair_of, plain_of};
ghost use Rattle.nf_ast.specs.View.{names as names_tree};
ghost use Rattle.nf_builtins.specs.Natives.{is_among};
ghost use Rattle.nf_placed.specs.Body.{Binds, names_in, split as split_of};
ghost use Rattle.nf_placed.specs.Placed.{Placed};
ghost use Rattle.nf_lowered.specs.Given.{Gives, HasFault};
ghost use Rattle.nf_meaning.specs.Lowered.{known};
ghost use Rattle.nf_meaning.specs.Walk.{State};
ghost use Rattle.nf_meaning.specs.Workflow.{bind_all};
ghost use Rattle.nf_plan.specs.Runs.{Run};
ghost use Rattle.nf_lowering.specs.State.{IsLowering, StandsIn};

use crate::walker::Walker;
use nf_builtins::Natives;
use nf_lowering::Lowering;
use nf_meaning::LowerFault;
use nf_placed::split;
use nf_scopes::Thing;
use nf_takes::stands_in;
use nf_value::{EvalRefusal, Place, Txt, Value};
use std::alloc::Global;

impl<N: Natives> Walker<'_, N> {
    ghost use Rattle.nf_walked.specs.Around.{Knows};
    ghost use Rattle.nf_walked.specs.Forms.{nothing};
    ghost use Rattle.nf_walked.specs.Parts.{names_bound, new_names_at};
    ghost use Rattle.nf_walked.specs.Steps.{Walked, due};

    /// Each name of a `def` for the first time between its braces.
    ///
    /// # Errors
    ///
    /// `TwiceDefined` at the first that isn't.
    pub fn check_new(&self, state: &Lowering, names: &[(Place, Txt)]) -> Result<(), LowerFault>
        requires { IsLowering state.now }
        ensures { Walked (Knows N.titles N.answer self.now) (due nothing (new_names_at (names_tree names.now)))
            state.now state.now result }
    {
        for (at, (place, name)) in names.iter().enumerate() {
            if is_bound(state, &names[..at], name) {
                return Err(LowerFault::TwiceDefined { place: *place });
            }
        }
        Ok(())
    }

    /// The names of a `def`, each for an item of the list that the value is (Nextflow reference documentation, "Syntax",
    /// "Variable declaration"). `place` is that of the bracket.
    ///
    /// # Errors
    ///
    /// `ParamFault` with `Arity` at the place if the value is no list of as many items. `Mem` for want of memory.
    pub fn bind_names(
        &self,
        state: &mut Lowering,
        place: Place,
        names: &[(Place, Txt)],
        value: &Value,
    ) -> Result<(), LowerFault>
        requires { IsLowering state.old }
        ensures { Walked (Knows N.titles N.answer self.now)
            (due nothing (names_bound place (names_tree names.now) (plain_of value.now))) state.old state.new result }
    {
        let parts = parts_of(self.alloc, place, names, value)?;
        self.bind_all(state, parts)
    }

    /// These names for these values.
    fn bind_all(&self, state: &mut Lowering, parts: Vec<(Txt, Value)>) -> Result<(), LowerFault>
        requires { IsLowering state.old }
        ensures { Walked (Knows N.titles N.answer self.now) (due nothing (bind_all (map pair_of parts.items)))
            state.old state.new result }
    {
        for (name, value) in parts {
            self.define(state, &name, Thing::Known(value))?;
        }
        Ok(())
    }
}

/// Whether a name stands before, or `def` bound it between these braces.
fn is_bound(state: &Lowering, before: &[(Place, Txt)], name: &Txt) -> bool
    ensures { (braces : List (List (List ℕ))) (x : Run) (s : State) → StandsIn braces x state.now s
        → result ≡ (is_among name.now (map (λ n. n.1) before.now) || is_among name.now s.scope.defined) }
{
    either(
        stands_in(before, name),
        state.names().is_defined(name.as_str()),
    )
}

fn either(first: bool, second: bool) -> bool
    ensures { result ≡ (first || second) }
{
    first || second
}

/// The names with the items of the list.
fn parts_of(
    alloc: Global,
    place: Place,
    names: &[(Place, Txt)],
    value: &Value,
) -> Result<Vec<(Txt, Value)>, LowerFault>
    ensures { Gives (λ ps bs. map pair_of ps.items ≡ bs)
        (known (split_of place (names_in (names_tree names.now)) (plain_of value.now))) result }
{
    match split(alloc, place, names, value) {
        Ok(parts) => Ok(parts),
        Err(refusal) => Err(fault_before_run(refusal)),
    }
}

/// The script's fault for one of what is known before the run.
fn fault_before_run(refusal: EvalRefusal) -> LowerFault
    ensures { (due : Placed (List (List ℕ × Plain))) → Binds due (Err refusal) → HasFault (known due) result }
{
    match refusal {
        EvalRefusal::Fault(fault) => LowerFault::ParamFault(fault),
        EvalRefusal::Mem => LowerFault::Mem,
    }
}
