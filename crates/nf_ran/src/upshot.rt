//! What a run that is over comes to.

ghost use Rattle.std.specs.Prelude.{◌≡◌, true};
ghost use Rattle.nf_bodies.specs.Bodies.{rules_of};
ghost use Rattle.nf_flow.specs.Seen.{events_of, plain_of, state_of};
ghost use Rattle.nf_machine.specs.History.{IsHistory, is_over};
ghost use Rattle.nf_owed.specs.Finished.{ComesTo, IsRunOf};
ghost use Rattle.nf_owed.specs.Run.{run_of};
ghost use Rattle.nf_plan.specs.declared.builder.PlanBuilder.{PlanBuilder};
ghost use Rattle.nf_ran.specs.Ran.{IsTraced, trace_text, upshot};
ghost use Rattle.nf_tasks.specs.Memory.{program};
ghost use Rattle.nf_traced.specs.Takes.{IsProperRun};

use nf_bodies::NodeInfo;
use nf_builtins::Natives;
use nf_ends::End;
use nf_flow::Flow;
use nf_owed::{Finished, end_of_run};
use nf_traced::trace;
use nf_value::{Mem, Txt};
use std::alloc::Global;

/// What a run comes to that is over: what is to be written and copied, or its end; and its trace, if that is wanted.
/// Without memory for the trace the run comes to `Mem`.
pub(crate) fn come_to<N: Natives>(
    alloc: Global,
    infos: &[NodeInfo],
    natives: &N,
    flow: &Flow,
    traced: bool,
) -> (Result<Finished, End>, Option<Txt>)
    requires natives { N.keeps natives.now }
    requires proper { IsProperRun flow.now }
    requires lawful { IsHistory (plain_of flow.now)
        (rules_of (program (N.titles natives.now) (N.answer natives.now)) infos.now) (events_of flow.now) }
    requires over { is_over (plain_of flow.now) (state_of flow.now) ≡ true }
    ensures comes { (b : PlanBuilder)
        → IsRunOf (program (N.titles natives.now) (N.answer natives.now)) b infos.now flow.now
        → ComesTo (run_of (program (N.titles natives.now) (N.answer natives.now)) b) flow.now.history result.0 }
    ensures traced { IsTraced traced (trace_text (program (N.titles natives.now) (N.answer natives.now))
        flow.now.graph infos.now flow.now.history) (upshot result.0 result.1) }
{
    if !traced {
        return (end_of_run(alloc, infos, natives, flow), None);
    }
    match trace(alloc, infos, natives, flow) {
        Ok(text) => (end_of_run(alloc, infos, natives, flow), Some(text)),
        Err(Mem) => (Err(End::Mem), None),
    }
}
