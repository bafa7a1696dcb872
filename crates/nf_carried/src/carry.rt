//! `carry_out`: does the work of a call, and writes what it comes to.

ghost use Rattle.std.specs.Prelude.{◌≡◌, ◌<◌, ◌≤◌, ◌^◌, All, drop, take, vec_len};
ghost use Rattle.nf_tasks.specs.Memory.{program};
ghost use Rattle.nf_core.specs.Told.{IsDoneOf, IsSeenOf};
ghost use Rattle.nf_ran.specs.Pool.{lanes_now};
ghost use Rattle.nf_ends.specs.Ends.{status_of};
ghost use Rattle.nf_ran.specs.Ran.{IsPlanned, begun_over, keeper_now};
ghost use Rattle.nf_carried.specs.Carried.{CarriedOut, Did, IsDoable, RanAndCopied, options_of};
ghost use Rattle.nf_carried.specs.Objects.{hands, host_now, objects, sink_now};

use crate::copied::copied;
use crate::first::run_first;
use crate::noted::noted;
use crate::work::{Way, Work, WorkEnd};
use nf_builtins::Natives;
use nf_ends::{NfEnd, Output, write};
use nf_host::{Host, Sink};
use nf_keeper::Keeper;
use nf_lane::Lane;
use nf_plan::Plan;
use nf_ran::PlanRun;
use nf_ran::owed::laws::{copies_alike, faultless_ends};
use std::alloc::Global;
use std::sync::Wait;
use std::thread::Threads;

/// Does the work of a call, and writes what it comes to (own): a plan is run on the first `queue` of the lanes, with a
/// worker for each; its trace is written, if that is asked for, and the files that it published are copied (`copy_out`
/// of `nf_publish`). Then its report and the line after it are written, or one error line. All lanes and the keeper are
/// given back, the lanes in their order.
///
/// What was run, what it came to and what was written are one record, `CarriedOut`. A call that ran a plan owes what
/// its script means, by a table of its ends (`OwesRun`), and so it does of the host's files; it goes well if no object
/// failed, and that meaning has no fault and costs no more than the limit. A refusal keeps its end, unless there is no
/// memory for its line: then the end is `Mem`, and nothing was written.
pub fn carry_out<H, L, K, N, O, T>(
    rt: &T,
    alloc: Global,
    work: Work,
    host: &mut H,
    keeper: K,
    lanes: Vec<L>,
    queue: usize,
    natives: &N,
    out: &mut O,
) -> NfEnd<L, K>
where
    H: Host,
    L: Lane + Send + Drop,
    L::Done: Send,
    L::Seen: Send,
    K: Keeper + Send + Drop,
    N: Natives + Sync,
    O: Sink,
    T: Threads + Wait + Sync,
    requires natives { N.keeps natives.now }
    requires work { IsDoable work }
    requires queue { (0 < queue) × (queue ≤ 16) × (queue ≤ vec_len lanes) }
    requires room { All (λ l. L.runs l < 2 ^ 62) lanes.items }
    ensures status { result.status ≡ status_of result.end }
    // The other lanes did nothing.
    ensures idle { drop queue result.lanes.items ≡ drop queue lanes.items }
    ensures host_later { H.faults host.old ≤ H.faults host.new }
    ensures no_start { H.started host.new ≡ H.started host.old }
    ensures carried { CarriedOut (program (N.titles natives.now) (N.answer natives.now)) work
        (objects (hands (keeper_now (K.held keeper) (K.faults keeper))
        (lanes_now L.runs L.faults L.world L.store (take queue lanes.items))
        (host_now (H.files host.old) (H.faults host.old)))
        (sink_now (O.written out.old) (O.faults out.old)))
        (IsDoneOf L.Done.genuine L.Done.job L.Done.told) (IsSeenOf L.Seen.genuine L.Seen.told)
        (record {
          end = result.end;
          history = result.history.items;
          dones = result.kept.dones.items;
          seens = result.kept.seens.items;
          after = objects (hands (keeper_now (K.held result.keeper) (K.faults result.keeper))
              (lanes_now L.runs L.faults L.world L.store (take queue result.lanes.items))
              (host_now (H.files host.new) (H.faults host.new)))
              (sink_now (O.written out.new) (O.faults out.new));
        }) }
{
    faultless_ends();
    copies_alike();
    let done = do_work(rt, alloc, work, host, keeper, lanes, queue, natives);
    let WorkEnd {
        history,
        kept,
        lanes,
        keeper,
        outcome,
    } = done;
    let end = write(alloc, out, outcome);
    NfEnd {
        status: end.status(),
        end,
        history,
        kept,
        lanes,
        keeper,
    }
}

/// Runs the plan on the first lanes, if there is one, and copies the files that it published.
fn do_work<H, L, K, N, T>(
    rt: &T,
    alloc: Global,
    work: Work,
    host: &mut H,
    keeper: K,
    lanes: Vec<L>,
    queue: usize,
    natives: &N,
) -> WorkEnd<L, K>
where
    H: Host,
    L: Lane + Send + Drop,
    L::Done: Send,
    L::Seen: Send,
    K: Keeper + Send + Drop,
    N: Natives + Sync,
    T: Threads + Wait + Sync,
    requires natives { N.keeps natives.now }
    requires work { IsDoable work }
    requires queue { (0 < queue) × (queue ≤ 16) × (queue ≤ vec_len lanes) }
    requires room { All (λ l. L.runs l < 2 ^ 62) lanes.items }
    ensures idle { drop queue result.lanes.items ≡ drop queue lanes.items }
    ensures later { H.faults host.old ≤ H.faults host.new }
    ensures no_start { H.started host.new ≡ H.started host.old }
    ensures did { Did (program (N.titles natives.now) (N.answer natives.now)) work
        (hands (keeper_now (K.held keeper) (K.faults keeper))
        (lanes_now L.runs L.faults L.world L.store (take queue lanes.items))
        (host_now (H.files host.old) (H.faults host.old)))
        (IsDoneOf L.Done.genuine L.Done.job L.Done.told) (IsSeenOf L.Seen.genuine L.Seen.told)
        (record {
          history = result.history.items;
          dones = result.kept.dones.items;
          seens = result.kept.seens.items;
          outcome = result.outcome;
          after = hands (keeper_now (K.held result.keeper) (K.faults result.keeper))
              (lanes_now L.runs L.faults L.world L.store (take queue result.lanes.items))
              (host_now (H.files host.new) (H.faults host.new));
        }) }
{
    match work {
        Work::Write(text) => WorkEnd::idle(alloc, keeper, lanes, Ok(Output::Text(text))),
        Work::Refuse(end) => WorkEnd::idle(alloc, keeper, lanes, Err(end)),
        Work::Run { plan, way } => run_and_copy(
            rt, alloc, plan, &way, host, keeper, lanes, queue, natives,
        ),
    }
}

/// Runs a plan on the first lanes, writes its trace, and copies the files that it published.
fn run_and_copy<H, L, K, N, T>(
    rt: &T,
    alloc: Global,
    plan: Plan,
    way: &Way,
    host: &mut H,
    keeper: K,
    lanes: Vec<L>,
    queue: usize,
    natives: &N,
) -> WorkEnd<L, K>
where
    H: Host,
    L: Lane + Send + Drop,
    L::Done: Send,
    L::Seen: Send,
    K: Keeper + Send + Drop,
    N: Natives + Sync,
    T: Threads + Wait + Sync,
    requires natives { N.keeps natives.now }
    requires planned { IsPlanned plan.graph plan.infos.items }
    requires queue { (0 < queue) × (queue ≤ 16) × (queue ≤ vec_len lanes) }
    requires room { All (λ l. L.runs l < 2 ^ 62) lanes.items }
    ensures idle { drop queue result.lanes.items ≡ drop queue lanes.items }
    ensures later { H.faults host.old ≤ H.faults host.new }
    ensures no_start { H.started host.new ≡ H.started host.old }
    ensures ran { RanAndCopied (begun_over (program (N.titles natives.now) (N.answer natives.now)) plan.graph
        plan.infos.items (options_of way.now) (keeper_now (K.held keeper) (K.faults keeper))
        (lanes_now L.runs L.faults L.world L.store (take queue lanes.items)))
        way.now (host_now (H.files host.old) (H.faults host.old))
        (IsDoneOf L.Done.genuine L.Done.job L.Done.told) (IsSeenOf L.Seen.genuine L.Seen.told)
        (record {
          history = result.history.items;
          dones = result.kept.dones.items;
          seens = result.kept.seens.items;
          outcome = result.outcome;
          after = hands (keeper_now (K.held result.keeper) (K.faults result.keeper))
              (lanes_now L.runs L.faults L.world L.store (take queue result.lanes.items))
              (host_now (H.files host.new) (H.faults host.new));
        }) }
{
    let options = way.options();
    let ran = run_first(rt, alloc, plan, keeper, lanes, queue, natives, options);
    let PlanRun {
        history,
        kept,
        lanes,
        keeper,
        outcome,
        trace,
    } = ran;
    let left = noted(alloc, &way.trace, host, outcome, trace);
    let outcome = copied(alloc, way, host, left);
    WorkEnd {
        history,
        kept,
        lanes,
        keeper,
        outcome,
    }
}
