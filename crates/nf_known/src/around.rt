//! `Around`: the names around an expression.

ghost use Rattle.std.specs.Prelude.{◌≡◌};
ghost use Rattle.nf_value.specs.View.{plain_of};
ghost use Rattle.nf_builtins.specs.Natives.{is_among};
ghost use Rattle.nf_graph.specs.Meaning.{Bags};
ghost use Rattle.nf_meaning.specs.Names as spec;
ghost use Rattle.nf_meaning.specs.Names.{Known};
ghost use Rattle.nf_meaning.specs.Stands.{ThingStands};
ghost use Rattle.nf_meaning.specs.Things as meaning;
ghost use Rattle.nf_scopes.specs.Things.{thing_of};
ghost use Rattle.nf_known.specs.Around.{IsBoundAs, Knows, bound_if, everywhere_names};
ghost use Rattle.nf_known.specs.Reading.{reading_of};

use crate::files::holds_file;
use crate::reading::Reading;
use nf_meaning::LowerFault;
use nf_scopes::{BodyNames, Thing};
use nf_value::{Place, Value};

/// The names around an expression (own).
#[derive(Drop, Clone, Copy)]
pub enum Around<'a> {
    /// None, as around the body of a function.
    Nothing,
    /// Those that have a value everywhere in workflows and processes, alone: `params` and the folders. A process sees these and no body's names.
    Everywhere,
    /// Those of a workflow's body, and those that have a value everywhere.
    Body(&'a BodyNames),
}

/// What is wrong with a name that is read.
#[derive(Drop, Clone, Copy)]
pub(crate) enum Bound {
    /// It is bound, and this is wrong with it, if anything is.
    Here(Option<LowerFault>),
    /// Nothing binds it.
    Free,
}

impl Around<'_> {
    /// What is wrong with a name that is read here. Takes no memory.
    pub(crate) fn bound(&self, reading: Reading, place: Place, name: &str) -> Bound
        ensures { (k : Known) → Knows self.now k → IsBoundAs (reading_of reading) place name.now k result }
    {
        match self {
            Around::Nothing => Bound::Free,
            Around::Everywhere => everywhere(name),
            Around::Body(names) => match names.thing(name) {
                Some(thing) => Bound::Here(thing_fault(reading, place, thing)),
                None => everywhere(name),
            },
        }
    }
}

/// A name that no body binds.
fn everywhere(name: &str) -> Bound
    ensures { result ≡ bound_if (is_among name.now everywhere_names) }
{
    match name {
        "params" | "projectDir" | "baseDir" | "launchDir" => Bound::Here(None),
        _ => Bound::Free,
    }
}

/// What is wrong with a name that stands for this.
fn thing_fault(reading: Reading, place: Place, thing: &Thing) -> Option<LowerFault>
    ensures { (bags : Bags) (t : meaning.Thing) → ThingStands bags (thing_of thing.now) t
        → result ≡ spec.thing_fault (reading_of reading) place t }
{
    match thing {
        Thing::Known(value) => value_fault(reading, place, value),
        Thing::Channel(_) => channel_fault(reading, place),
        Thing::Outputs(_) => channel_fault(reading, place),
    }
}

fn value_fault(reading: Reading, place: Place, value: &Value) -> Option<LowerFault>
    ensures { result ≡ spec.value_fault (reading_of reading) place (plain_of value.now) }
{
    match reading {
        Reading::BeforeRun => file_fault(place, value),
        Reading::InRun | Reading::Unread => None,
    }
}

fn file_fault(place: Place, value: &Value) -> Option<LowerFault>
    ensures { result ≡ spec.value_fault spec.before_run place (plain_of value.now) }
{
    if holds_file(value) {
        Some(LowerFault::BadOption { place })
    } else {
        None
    }
}

/// What is wrong with a name that leads to channels.
pub(crate) fn channel_fault(reading: Reading, place: Place) -> Option<LowerFault>
    ensures { result ≡ spec.channel_fault (reading_of reading) place }
{
    match reading {
        Reading::BeforeRun | Reading::InRun => Some(LowerFault::BadOption { place }),
        Reading::Unread => None,
    }
}
