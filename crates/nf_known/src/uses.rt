//! What is wrong with the uses of an expression.

ghost use Rattle.std.specs.Prelude.{◌≡◌};
ghost use Rattle.nf_meaning.specs.Given.{Given};
ghost use Rattle.nf_meaning.specs.Names as spec;
ghost use Rattle.nf_meaning.specs.Names.{Known};
ghost use Rattle.nf_callees.specs.Found.{defined_in};
ghost use Rattle.nf_callees.specs.Callee.{called_of};
ghost use Rattle.nf_known.specs.Around.{Knows};
ghost use Rattle.nf_known.specs.Reading.{reading_of};

use crate::around::{Around, Bound, channel_fault};
use crate::patterns::PatternTexts;
use crate::reading::Reading;
use nf_builtins::Natives;
use nf_callees::{Callee, Definitions};
use nf_meaning::LowerFault;
use nf_names_used::{Use, UseKind};
use nf_value::Place;

/// What the names of a script stand for at its top.
#[derive(Drop)]
pub(crate) struct TopNames<'a, N> {
    pub(crate) definitions: Definitions<'a>,
    pub(crate) patterns: &'a PatternTexts,
    pub(crate) natives: &'a N,
}

impl<'a, N: Natives> TopNames<'a, N> {
    ghost use Rattle.nf_known.specs.Script.{HasProgram};

    /// What is wrong with the first of these uses with which anything is. Takes no memory.
    pub(crate) fn uses_fault(
        &self,
        uses: &[Use],
        around: &Around<'_>,
        reading: Reading,
    ) -> Option<LowerFault>
        ensures { (g : Given) (k : Known) → HasProgram N.titles self.now g → Knows around.now k
            → result ≡ spec.uses_fault g (defined_in self.now.definitions) k (reading_of reading) uses.now }
    {
        for one in uses {
            if let Some(fault) = self.use_fault(one, around, reading) {
                return Some(fault);
            }
        }
        None
    }

    fn use_fault(&self, one: &Use, around: &Around<'_>, reading: Reading) -> Option<LowerFault>
        ensures { (g : Given) (k : Known) → HasProgram N.titles self.now g → Knows around.now k
            → result ≡ spec.use_fault g (defined_in self.now.definitions) k (reading_of reading)
            one.now.kind one.now.place one.now.text }
    {
        let place = one.place;
        let text = one.text.as_str();
        match one.kind {
            UseKind::Name => self.name_fault(place, text, around, reading),
            UseKind::Assigned => Some(LowerFault::UnknownName { place }),
            UseKind::Again => Some(LowerFault::TwiceDefined { place }),
            UseKind::Function => call_fault(&self.definitions.callee(text, self.natives), place),
            UseKind::Pattern => self.patterns.fault(place, text),
        }
    }

    /// What is wrong with a name that is read. Takes no memory.
    pub(crate) fn name_fault(
        &self,
        place: Place,
        name: &str,
        around: &Around<'_>,
        reading: Reading,
    ) -> Option<LowerFault>
        ensures { (k : Known) → Knows around.now k
            → result ≡ spec.name_fault (defined_in self.now.definitions) (N.titles self.now.natives.now) k
            (reading_of reading) place name.now }
    {
        match around.bound(reading, place, name) {
            Bound::Here(fault) => fault,
            Bound::Free => self.free_fault(place, name, reading),
        }
    }

    fn free_fault(&self, place: Place, name: &str, reading: Reading) -> Option<LowerFault>
        ensures { result ≡ spec.free_fault
            (spec.is_no_value (defined_in self.now.definitions) (N.titles self.now.natives.now) name.now)
            (reading_of reading) place }
    {
        if self.is_no_value(name) {
            channel_fault(reading, place)
        } else {
            Some(LowerFault::UnknownName { place })
        }
    }

    /// Whether a name stands for something, but for no value.
    fn is_no_value(&self, name: &str) -> bool
        ensures { result ≡
            spec.is_no_value (defined_in self.now.definitions) (N.titles self.now.natives.now) name.now }
    {
        self.leads_to_channels(name) || self.definitions.is_function(name, self.natives)
    }

    fn leads_to_channels(&self, name: &str) -> bool
        ensures { result ≡ spec.leads_to_channels (defined_in self.now.definitions) name.now }
    {
        name == "channel"
            || name == "Channel"
            || self.definitions.process(name).is_some()
            || self.definitions.workflow(name).is_some()
    }
}

/// What is wrong with a call in an expression, which calls functions alone.
fn call_fault(callee: &Callee<'_>, place: Place) -> Option<LowerFault>
    ensures { result ≡ spec.call_fault (called_of callee.now) place }
{
    match callee {
        Callee::Function => None,
        Callee::Process(_) => Some(LowerFault::BadOption { place }),
        Callee::Workflow(_) => Some(LowerFault::BadOption { place }),
        Callee::File => Some(LowerFault::BadOption { place }),
        Callee::Operator(_) => Some(LowerFault::BadOption { place }),
        Callee::Unknown => Some(LowerFault::UnknownName { place }),
    }
}
