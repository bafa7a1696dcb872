//! What is wrong in functions that lead back to themselves.

ghost use Rattle.std.specs.Prelude.{◌≡◌, [], IfOk};
ghost use Rattle.nf_names_used.specs.declared.uses.UseKind.TheVariants as kind;
ghost use Rattle.nf_meaning.specs.Given.{Given};
ghost use Rattle.nf_known.specs.Known.{definitions_in};
ghost use Rattle.nf_known.specs.Stuck.{HasOneMore, IfLedOn, Inside, IsCalled, IsLedTo, LeadsTo, led_of, outermost, wrong_in_call, wrong_in_calls, wrong_in_function};

use crate::around::Around;
use crate::names::KnownScript;
use crate::reading::Reading;
use indexmap::IndexSet;
use nf_builtins::Natives;
use nf_callees::DefinedFunction;
use nf_meaning::LowerFault;
use nf_names_used::{Use, UseKind};
use nf_value::{Mem, Place};
use std::alloc::Global;

/// What is wrong in calls.
#[derive(Drop, Clone, Copy)]
pub(crate) enum Led<'f, 'a> {
    /// Nothing.
    Nowhere,
    /// This is.
    Fault(LowerFault),
    /// What is wrong in this function, which isn't judged.
    To(&'f DefinedFunction<'a>),
}

impl<'a, N: Natives> KnownScript<'a, N> {
    ghost use Rattle.nf_known.specs.Known.{IsKnownScript};
    ghost use Rattle.nf_known.specs.Stuck.{IsInside, LeadsOn};

    /// What is wrong in the functions that these uses call, from outside of all functions.
    pub(crate) fn called_fault(
        &self,
        alloc: Global,
        uses: &[Use],
    ) -> Result<Option<LowerFault>, Mem>
        ensures { IfOk result (λ o. (g : Given) → IsKnownScript N.titles self.now g
            → let ds = definitions_in self.now in o ≡ wrong_in_calls ds (outermost g ds) uses.now) }
    {
        let within = IndexSet::new(alloc);
        match self.led(uses, &within) {
            Led::Nowhere => Ok(None),
            Led::Fault(fault) => Ok(Some(fault)),
            Led::To(function) => self.stuck_fault(alloc, function),
        }
    }

    /// What is wrong in a function that isn't judged: it leads on to others that aren't, up to one in which it stands.
    fn stuck_fault(
        &self,
        alloc: Global,
        first: &DefinedFunction<'a>,
    ) -> Result<Option<LowerFault>, Mem>
        requires { IsCalled self.now [] first.now }
        ensures { IfOk result (λ o. (i : Inside) → IsInside N.titles self.now [] i
            → o ≡ wrong_in_function (definitions_in self.now) i first.now) }
    {
        let mut within = IndexSet::new(alloc);
        let mut led = self.led_on(alloc, first, &mut within)?;
        'leads: loop {
            match led {
                Led::Nowhere => return Ok(None),
                Led::Fault(fault) => return Ok(Some(fault)),
                Led::To(function) => led = self.led_on(alloc, function, &mut within)?,
            }
        }
    }

    /// What is wrong in a function that isn't judged, within these functions. It is then one of them.
    fn led_on(
        &self,
        alloc: Global,
        function: &DefinedFunction<'a>,
        within: &mut IndexSet<String>,
    ) -> Result<Led<'_, 'a>, Mem>
        requires { IsCalled self.now within.old.keys function.now }
        ensures to { IfOk result (IsLedTo self.now within.new.keys) }
        ensures within { IfOk result (λ r.
            IfLedOn r (HasOneMore function.now.function.now.name within.old.keys within.new.keys)) }
        ensures leads { IfOk result (λ r. (i : Inside) → IsInside N.titles self.now within.old.keys i
            → LeadsOn N.titles self.now within.new.keys (wrong_in_function (definitions_in self.now) i function.now) r) }
    {
        if let Some(fault) = self
            .top
            .uses_fault(&function.uses, &Around::Nothing, Reading::InRun)
        {
            return Ok(Led::Fault(fault));
        }
        within.insert(String::from_str(alloc, function.function.name.as_str())?)?;
        Ok(self.led(&function.uses, within))
    }

    /// Where these uses lead, within these functions.
    fn led(&self, uses: &[Use], within: &IndexSet<String>) -> Led<'_, 'a>
        ensures to { IsLedTo self.now within.now.keys result }
        ensures leads { (i : Inside) → IsInside N.titles self.now within.now.keys i
            → let ds = definitions_in self.now in LeadsTo (wrong_in_calls ds i uses.now) (wrong_in_function ds i) result }
    {
        for one in uses {
            match self.led_by(one, within) {
                Led::Nowhere => {}
                Led::Fault(fault) => return Led::Fault(fault),
                Led::To(function) => return Led::To(function),
            }
        }
        Led::Nowhere
    }

    fn led_by(&self, one: &Use, within: &IndexSet<String>) -> Led<'_, 'a>
        ensures to { IsLedTo self.now within.now.keys result }
        ensures leads { (i : Inside) → IsInside N.titles self.now within.now.keys i
            → let ds = definitions_in self.now in
            LeadsTo (wrong_in_call ds i one.now.kind one.now.place one.now.text) (wrong_in_function ds i) result }
    {
        match one.kind {
            UseKind::Function => self.led_to(one.place, one.text.as_str(), within),
            UseKind::Name | UseKind::Assigned | UseKind::Again | UseKind::Pattern => Led::Nowhere,
        }
    }

    /// Where the call of a name leads.
    fn led_to(&self, place: Place, name: &str, within: &IndexSet<String>) -> Led<'_, 'a>
        ensures to { IsLedTo self.now within.now.keys result }
        ensures leads { (i : Inside) → IsInside N.titles self.now within.now.keys i
            → let ds = definitions_in self.now in
            LeadsTo (wrong_in_call ds i kind.Function place name.now) (wrong_in_function ds i) result }
    {
        let Some(function) = self.top.definitions.functions().get(name) else {
            return Led::Nowhere;
        };
        if within.contains(name) {
            return Led::Fault(LowerFault::CallCycle { place });
        }
        if let Some(fault) = self.judged.get(name) {
            return led_into(*fault);
        }
        Led::To(function)
    }
}

/// Where a call of a judged function leads, in which this is wrong.
fn led_into<'f, 'a>(fault: Option<LowerFault>) -> Led<'f, 'a>
    ensures { result ≡ led_of fault }
{
    match fault {
        Some(fault) => Led::Fault(fault),
        None => Led::Nowhere,
    }
}
