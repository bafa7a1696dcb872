//! The tasks of a process that is called.

ghost use Rattle.std.specs.Prelude.{◌≡◌, ◌++◌, ◌<◌, ◌^◌, ℕ, List, length, nat_lt, OnOk, IfOk};
ghost use Rattle.nf_ast.specs.Tops.{view_process};
ghost use Rattle.nf_graph.specs.Meaning.{Bags};
ghost use Rattle.nf_lowered.specs.Given.{Gives};
ghost use Rattle.nf_meaning.specs.Calls.{call_fault, process_at};
ghost use Rattle.nf_meaning.specs.Nodes.{PortsStand};
ghost use Rattle.nf_meaning.specs.Processes.{called_process as meant};
ghost use Rattle.nf_meaning.specs.Tasks.{CalledProcess};
ghost use Rattle.nf_meaning.specs.Things.{Channel};
ghost use Rattle.nf_meaning.specs.Walk as walk;
ghost use Rattle.nf_plan.specs.Calls.{HasOneQueue};
ghost use Rattle.nf_plan.specs.Plans.{HasRoom, ReadPlan};
ghost use Rattle.nf_called.specs.Called.{IsCalled};
ghost use Rattle.nf_around.specs.Around.{IsAround};
ghost use Rattle.nf_lowering.specs.Nodes.{labels_of};
ghost use Rattle.nf_takes.specs.Takes.{FaultIs};
ghost use Rattle.nf_walked.specs.Around.{CanWalk, Knows};
ghost use Rattle.nf_walked.specs.Forms.{a_thing, ports as read};
ghost use Rattle.nf_walked.specs.Steps.{from};
ghost use Rattle.nf_calling.specs.Calls.{queues_in};
ghost use Rattle.nf_calling.specs.Goes.{GoesCalled, HasBegun, WalkedAs};

use nf_around::ProcessFormulas;
use nf_ast::Process;
use nf_builtins::Natives;
use nf_called::{called_process, inputs_of};
use nf_follows::laws::{plans_extend, rooms_last, things_last};
use nf_graph::{Port, Ports};
use nf_lowering::Lowering;
use nf_meaning::LowerFault;
use nf_meaning::laws::paths_stay_apart;
use nf_plan::ProcessCall;
use nf_scopes::Thing;
use nf_tasks::{ProcessSpec, seen_names};
use nf_value::Place;
use nf_walked::Walker;

/// What a process gives that is called here by this name, once its call has begun and is counted and its arguments are
/// these channels (Nextflow reference documentation, "Processes"). `place` is that of the name.
///
/// # Errors
///
/// The first fault of the definition of the process, as it is called here. Else `BadOption` at the place if two of the
/// channels are queues, and `TooManyNodes` there if the process has 2^32 outputs or more: no accepted script is so.
/// `Mem` for want of memory.
pub fn call_process<N: Natives>(
    walker: &Walker<'_, N>,
    state: &mut Lowering,
    place: Place,
    name: &str,
    process: &Process,
    ports: Vec<Port>,
) -> Result<Thing, LowerFault>
    requires before { CanWalk N.titles N.answer N.keeps walker.now state.old }
    requires begun { HasBegun name.now state.old }
    requires room { HasRoom state.old.plan (length ports.items) }
    requires reads { ReadPlan state.old.plan ports.items }
    ensures { WalkedAs (GoesCalled name.now (length ports.items)) (Knows N.titles N.answer walker.now) (from read ports
        a_thing (process_at place name.now (view_process process.now) (state.old.path ++ name.now))) state.old state.new
        result }
{
    plans_extend();
    things_last();
    rooms_last();
    paths_stay_apart();
    let spec = spec_of(walker, state, name, process)?;
    check_tasks(place, &spec, &ports)?;
    let call = ProcessCall {
        place,
        spec,
        ports: Ports::of(ports),
    };
    state.process(walker.alloc, name, call)
}

/// The process as its call by this name has it.
fn spec_of<N: Natives>(
    walker: &Walker<'_, N>,
    state: &Lowering,
    name: &str,
    process: &Process,
) -> Result<ProcessSpec, LowerFault>
    requires { CanWalk N.titles N.answer N.keeps walker.now state.now }
    ensures means { (a : walk.Around) → IsAround N.titles N.answer walker.now.around.now a
        → Gives (IsCalled a.given.program) (meant a (state.now.path ++ name.now) (view_process process.now)) result }
    ensures path { IfOk result (λ spec. spec.name ≡ state.now.path ++ name.now) }
{
    let inputs = inputs_of(walker.alloc, process)?;
    let seen = seen_names(walker.alloc, &inputs)?;
    let formulas = ProcessFormulas::new(walker.around, &seen);
    let path = state.path_of(walker.alloc, name)?;
    called_process(walker.alloc, &formulas, path, inputs, process)
}

/// At most one of the channels is a queue, and the outputs have 32-bit numbers.
fn check_tasks(place: Place, spec: &ProcessSpec, ports: &[Port]) -> Result<(), LowerFault>
    ensures fault { (bags : Bags) (cs : List Channel) (c : CalledProcess) → PortsStand bags ports.now cs
        → labels_of spec.now.outputs.items ≡ c.labels → FaultIs (call_fault place c cs) result }
    ensures queue { OnOk result (HasOneQueue ports.now) }
    ensures few { OnOk result (length spec.now.outputs.items < 2 ^ 32) }
{
    if has_two_queues(ports) {
        return Err(LowerFault::BadOption { place });
    }
    if spec.outputs.len() >= 4_294_967_296 {
        return Err(LowerFault::TooManyNodes { place });
    }
    Ok(())
}

/// Whether two of these ports read queues.
fn has_two_queues(ports: &[Port]) -> bool
    ensures { result ≡ nat_lt 1 (queues_in ports.now) }
{
    ports.iter().filter(|port| !port.value).count() > 1
}
