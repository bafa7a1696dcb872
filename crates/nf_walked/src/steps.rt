//! Counting, channels and names, as steps of a walk.

ghost use Rattle.std.specs.Prelude.{OnOk};
ghost use Rattle.nf_meaning.specs.Expressions.{channel_wanted};
ghost use Rattle.nf_meaning.specs.Sizes.{counted};
ghost use Rattle.nf_meaning.specs.Walk.{assigning, defining, with_scope};
ghost use Rattle.nf_scopes.specs.Things.{thing_of};
ghost use Rattle.nf_plan.specs.Counts.{Grows};
ghost use Rattle.nf_plan.specs.Plans.{HasRoom};
ghost use Rattle.nf_follows.specs.Things.{ThingReads};
ghost use Rattle.nf_lowering.specs.State.{IsLowering};

use crate::walker::Walker;
use nf_builtins::Natives;
use nf_follows::laws::{plans_extend, rooms_last, things_last};
use nf_graph::Port;
use nf_lowering::Lowering;
use nf_meaning::LowerFault;
use nf_scopes::Thing;
use nf_value::{Place, Txt};

impl<N: Natives> Walker<'_, N> {
    ghost use Rattle.nf_walked.specs.Around.{Knows};
    ghost use Rattle.nf_walked.specs.Forms.{a_port, a_thing, nothing};
    ghost use Rattle.nf_walked.specs.Steps.{Walked, due, from};

    /// Counts a source or a call that reads so many channels. `place` is that of its name.
    ///
    /// # Errors
    ///
    /// `TooManyNodes` at the place exactly if there are then too many of either.
    pub fn count(&self, state: &mut Lowering, place: Place, ports: usize) -> Result<(), LowerFault>
        requires { IsLowering state.old }
        ensures walk { Walked (Knows N.titles N.answer self.now) (due nothing (counted place ports))
            state.old state.new result }
        ensures room { OnOk result (HasRoom state.new.plan ports) }
        ensures grows { OnOk result (Grows state.old.plan ports state.new.plan) }
    {
        plans_extend();
        things_last();
        rooms_last();
        state.count(place, ports)
    }

    /// A thing as a channel (Nextflow reference documentation, "Channels"): a value becomes a value channel, and a call
    /// with one output is that output. `place` is where its expression begins.
    ///
    /// # Errors
    ///
    /// `BadOption` at the place if it is what a call gives that hasn't one output; `TooManyNodes` as for `count`.
    /// `Mem` for want of memory.
    pub fn channel(
        &self,
        state: &mut Lowering,
        place: Place,
        thing: Thing,
    ) -> Result<Port, LowerFault>
        requires before { IsLowering state.old }
        requires reads { ThingReads state.old.plan (thing_of thing) }
        ensures { Walked (Knows N.titles N.answer self.now) (from a_thing thing a_port (channel_wanted place))
            state.old state.new result }
    {
        plans_extend();
        things_last();
        rooms_last();
        state.channel(self.alloc, place, thing)
    }

    /// `def name = ..` (Nextflow reference documentation, "Syntax", "Variables").
    ///
    /// # Errors
    ///
    /// `Mem` for want of memory.
    pub fn define(&self, state: &mut Lowering, name: &Txt, thing: Thing) -> Result<(), LowerFault>
        requires before { IsLowering state.old }
        requires reads { ThingReads state.old.plan (thing_of thing) }
        ensures { Walked (Knows N.titles N.answer self.now)
            (from a_thing thing nothing (λ t. with_scope (defining name.now t))) state.old state.new result }
    {
        state.define(name.as_str(), thing)
    }

    /// `name = ..`, of a name that `def` bound or of the workflow (Nextflow reference documentation, "Syntax",
    /// "Variables").
    ///
    /// # Errors
    ///
    /// `Mem` for want of memory.
    pub fn put_name(&self, state: &mut Lowering, name: &Txt, thing: Thing) -> Result<(), LowerFault>
        requires before { IsLowering state.old }
        requires reads { ThingReads state.old.plan (thing_of thing) }
        ensures { Walked (Knows N.titles N.answer self.now)
            (from a_thing thing nothing (λ t. with_scope (assigning name.now t))) state.old state.new result }
    {
        state.assign(name.as_str(), thing)
    }
}
