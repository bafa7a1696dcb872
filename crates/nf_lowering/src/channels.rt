//! Counting, and things as channels.

ghost use Rattle.std.specs.Prelude.{◌≡◌, [], ◌∷◌, map, true, IfOk, OnOk};
ghost use Rattle.nf_value.specs.View.{plain_of};
ghost use Rattle.nf_scopes.specs.Things.{output_of, thing_of};
ghost use Rattle.nf_plan.specs.Counts.{Grows};
ghost use Rattle.nf_plan.specs.Plans.{HasRoom};
ghost use Rattle.nf_follows.specs.Rooms.{KeepsRoom};
ghost use Rattle.nf_follows.specs.Things.{PortReads, ThingReads};
ghost use Rattle.nf_lowering.specs.State.{IsLowering, Walks, calls_in};
ghost use Rattle.nf_lowering.specs.Steps.{as_channel, as_value_channel, counting, only_port};

use crate::state::Lowering;
use nf_follows::laws::{plans_extend, rooms_last, things_last};
use nf_graph::Port;
use nf_meaning::LowerFault;
use nf_plan::SourceCall;
use nf_scopes::{CallOutput, Thing};
use nf_value::{Mem, Place, Txt, Vals, Value};
use std::alloc::Global;

impl Lowering {
    /// Counts a source or a call that reads so many channels. `place` is that of its name.
    ///
    /// # Errors
    ///
    /// `TooManyNodes` at the place exactly if there are then too many of either.
    pub fn count(&mut self, place: Place, ports: usize) -> Result<(), LowerFault>
        requires { IsLowering self.old }
        ensures keeps { IsLowering self.new }
        ensures walk { Walks (counting place ports) self.old self.new result }
        ensures grows { OnOk result (Grows self.old.plan ports self.new.plan) }
        ensures room { OnOk result (HasRoom self.new.plan ports) }
        ensures kept { KeepsRoom self.old.plan self.new.plan }
        ensures calls { calls_in self.new ≡ calls_in self.old }
        ensures within { self.new.within ≡ self.old.within }
    {
        things_last();
        rooms_last();
        self.plan.count(place, ports)
    }

    /// A thing as a channel (Nextflow reference documentation, "Channels"): a value becomes a value channel, which
    /// counts as a source, and a call with one output is that output. `place` is where its expression begins.
    ///
    /// # Errors
    ///
    /// `BadOption` at the place if it is what a call gives that hasn't one output; `TooManyNodes` as for `count`.
    /// `Mem` for want of memory.
    pub fn channel(&mut self, alloc: Global, place: Place, thing: Thing) -> Result<Port, LowerFault>
        requires before { IsLowering self.old }
        requires reads { ThingReads self.old.plan (thing_of thing) }
        ensures keeps { IsLowering self.new }
        ensures reads { IfOk result (PortReads self.new.plan) }
        ensures walk { Walks (as_channel place thing) self.old self.new result }
        ensures kept { KeepsRoom self.old.plan self.new.plan }
        ensures calls { calls_in self.new ≡ calls_in self.old }
        ensures within { self.new.within ≡ self.old.within }
    {
        rooms_last();
        match thing {
            Thing::Known(value) => self.value_channel(alloc, place, value),
            Thing::Channel(port) => Ok(port),
            Thing::Outputs(outputs) => only_output(place, outputs.as_slice()),
        }
    }

    /// A value as a value channel.
    fn value_channel(
        &mut self,
        alloc: Global,
        place: Place,
        value: Value,
    ) -> Result<Port, LowerFault>
        requires { IsLowering self.old }
        ensures keeps { IsLowering self.new }
        ensures reads { IfOk result (PortReads self.new.plan) }
        ensures walk { Walks (as_value_channel place value) self.old self.new result }
        ensures kept { KeepsRoom self.old.plan self.new.plan }
        ensures calls { calls_in self.new ≡ calls_in self.old }
        ensures within { self.new.within ≡ self.old.within }
    {
        plans_extend();
        things_last();
        rooms_last();
        let source = value_source(alloc, place, value)?;
        self.plan.count(place, 0)?;
        let port = self.plan.add_source(alloc, source)?;
        Ok(port)
    }
}

/// The source of a value that is given as a channel.
fn value_source(alloc: Global, place: Place, value: Value) -> Result<SourceCall, Mem>
    ensures items { IfOk result (λ source. source.items ≡ plain_of value ∷ []) }
    ensures kind { IfOk result (λ source. source.value ≡ true) }
{
    let name = Txt::of(String::from_str(alloc, "value")?);
    let items = Vals::of(vec![in alloc; value]?);
    Ok(SourceCall {
        name,
        place,
        items,
        value: true,
    })
}

/// The port of the only output of a call.
fn only_output(place: Place, outputs: &[CallOutput]) -> Result<Port, LowerFault>
    ensures { result ≡ only_port place (map output_of outputs.now) }
{
    match outputs {
        [] => Err(LowerFault::BadOption { place }),
        [output] => Ok(output.port),
        [_first, _second, ..] => Err(LowerFault::BadOption { place }),
    }
}
