//! Paths that are wanted, sources and calls of operators, as steps of a walk.

ghost use Rattle.std.specs.Prelude.{◌<◌, ◌^◌, length};
ghost use Rattle.nf_meaning.specs.Walk.{wants};
ghost use Rattle.nf_plan.specs.Calls.{CanAddOperator, CanAddSource};
ghost use Rattle.nf_plan.specs.Plans.{want_of};
ghost use Rattle.nf_lowering.specs.Nodes.{HasLabels};
ghost use Rattle.nf_lowering.specs.State.{IsLowering};

use crate::walker::Walker;
use nf_builtins::Natives;
use nf_follows::laws::{plans_extend, rooms_last, things_last};
use nf_graph::Port;
use nf_lowering::Lowering;
use nf_meaning::LowerFault;
use nf_plan::{OperatorCall, SourceCall, Want};
use nf_scopes::Thing;
use nf_value::Txt;

impl<N: Natives> Walker<'_, N> {
    ghost use Rattle.nf_walked.specs.Around.{Knows};
    ghost use Rattle.nf_walked.specs.Filled.{Filled, of_operator, of_source};
    ghost use Rattle.nf_walked.specs.Forms.{nothing};
    ghost use Rattle.nf_walked.specs.Steps.{Walked, due};

    /// Adds a path whose files a source reads.
    ///
    /// # Errors
    ///
    /// `Mem` for want of memory.
    pub fn want(&self, state: &mut Lowering, want: Want) -> Result<(), LowerFault>
        requires { IsLowering state.old }
        ensures { Walked (Knows N.titles N.answer self.now) (due nothing (wants (want_of want)))
            state.old state.new result }
    {
        plans_extend();
        things_last();
        rooms_last();
        state.want(want)
    }

    /// Adds a source that is counted, and whose items are known (Nextflow reference documentation, "Channel
    /// factories"). The result is the port that reads it.
    ///
    /// # Errors
    ///
    /// `Mem` for want of memory.
    pub fn source(&self, state: &mut Lowering, source: SourceCall) -> Result<Port, LowerFault>
        requires before { IsLowering state.old }
        requires fits { CanAddSource state.old.plan source }
        ensures { Filled (Knows N.titles N.answer self.now) 0 (of_source source) state.old state.new result }
    {
        plans_extend();
        things_last();
        state.source(self.alloc, source)
    }

    /// Adds the call of an operator that is counted, and whose arguments are gone through (Nextflow reference
    /// documentation, "Operators"). It gives a channel; `branch` and `multiMap` give a channel for each label.
    ///
    /// # Errors
    ///
    /// `Mem` for want of memory.
    pub fn operator(
        &self,
        state: &mut Lowering,
        call: OperatorCall,
        labels: Vec<Txt>,
    ) -> Result<Thing, LowerFault>
        requires before { IsLowering state.old }
        requires fits { CanAddOperator state.old.plan call }
        requires labels { HasLabels call.row call.opts labels.items }
        requires few { length labels.items < 2 ^ 32 }
        ensures { Filled (Knows N.titles N.answer self.now) (length call.ports) (of_operator call labels.items)
            state.old state.new result }
    {
        plans_extend();
        things_last();
        state.operator(self.alloc, call, labels)
    }
}
