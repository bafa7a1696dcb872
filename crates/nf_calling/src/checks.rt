//! What is wrong with a call before its arguments are gone through.

ghost use Rattle.std.specs.Prelude.{◌≡◌, false, length, List, OnOk};
ghost use Rattle.nf_ast.specs.Tops.{view_process, view_workflow};
ghost use Rattle.nf_builtins.specs.Natives.{is_among};
ghost use Rattle.nf_graph.specs.Meaning.{Bags};
ghost use Rattle.nf_meaning.specs.Arguments.{Arg};
ghost use Rattle.nf_meaning.specs.Calls.{again_fault, arity_fault, cycle_fault, take_of};
ghost use Rattle.nf_meaning.specs.Processes.{inputs_of};
ghost use Rattle.nf_arguments.specs.Args.{AreArgs, count_in};
ghost use Rattle.nf_takes.specs.Takes.{FaultIs};
ghost use Rattle.nf_lowering.specs.State.{calls_in};
ghost use Rattle.nf_calling.specs.Calls.{InScope, WithArgs, called_fault, process_fault};

use nf_arguments::Args;
use nf_ast::{Process, Workflow};
use nf_lowering::Lowering;
use nf_meaning::LowerFault;
use nf_takes::names_taken;
use nf_value::Place;

/// Whether a process may be called here by this name with these arguments (Nextflow reference documentation,
/// "Processes"; that a body calls it once is own). `place` is that of the name. Takes no memory.
///
/// # Errors
///
/// `TwiceDefined` at the place if the name was called in the body already, else `WrongArity` there if there are not as
/// many arguments as the process has inputs.
pub fn check_process(
    state: &Lowering,
    place: Place,
    name: &str,
    process: &Process,
    args: &Args<'_>,
) -> Result<(), LowerFault>
    ensures fault { WithArgs state.now args.now (λ ys x.
        FaultIs (process_fault place name.now (view_process process.now) ys x) result) }
    ensures new { OnOk result (is_among name.now (calls_in state.now).called ≡ false) }
{
    check_new(state, place, name)?;
    check_count(place, arg_count(args), input_count(process))
}

/// Whether a workflow may be called here by this name with these arguments (Nextflow reference documentation,
/// "Workflows"; that a body calls it once is own). `place` is that of the name. Takes no memory.
///
/// # Errors
///
/// `TwiceDefined` at the place if the name was called in the body already, else `CallCycle` there if the body stands in
/// that of the workflow, else `WrongArity` there if there are not as many arguments as the workflow takes.
pub fn check_workflow(
    state: &Lowering,
    place: Place,
    name: &str,
    workflow: &Workflow,
    args: &Args<'_>,
) -> Result<(), LowerFault>
    ensures fault { WithArgs state.now args.now (λ ys x.
        FaultIs (called_fault place name.now (view_workflow workflow.now) ys x) result) }
    ensures new { OnOk result (is_among name.now (calls_in state.now).called ≡ false) }
{
    check_new(state, place, name)?;
    check_cycle(state, place, name)?;
    check_count(place, arg_count(args), take_count(workflow))
}

/// How many arguments a call has. Takes no memory.
pub fn arg_count(args: &Args<'_>) -> usize
    ensures count { result ≡ count_in args.now }
    ensures are { (bags : Bags) (ys : List Arg) → AreArgs bags args.now ys → result ≡ length ys }
{
    args.len()
}

/// A name is called once in a body.
fn check_new(state: &Lowering, place: Place, name: &str) -> Result<(), LowerFault>
    ensures fault { InScope state.now (λ x. FaultIs (again_fault place name.now x) result) }
    ensures new { OnOk result (is_among name.now (calls_in state.now).called ≡ false) }
{
    if state.is_called(name) {
        return Err(LowerFault::TwiceDefined { place });
    }
    Ok(())
}

/// No workflow is called in its own body, or in one that its body leads to.
fn check_cycle(state: &Lowering, place: Place, name: &str) -> Result<(), LowerFault>
    ensures { InScope state.now (λ x. FaultIs (cycle_fault place name.now x) result) }
{
    if state.is_within(name) {
        return Err(LowerFault::CallCycle { place });
    }
    Ok(())
}

/// There are as many arguments as are taken.
fn check_count(place: Place, args: usize, taken: usize) -> Result<(), LowerFault>
    ensures { FaultIs (arity_fault place args taken) result }
{
    if args != taken {
        return Err(LowerFault::WrongArity { place });
    }
    Ok(())
}

/// How many inputs a process has.
fn input_count(process: &Process) -> usize
    ensures { result ≡ length (inputs_of (view_process process.now)) }
{
    match &process.inputs {
        Some(section) => section.inputs.len(),
        None => 0,
    }
}

/// How many channels a workflow takes.
fn take_count(workflow: &Workflow) -> usize
    ensures { result ≡ length (take_of (view_workflow workflow.now)) }
{
    names_taken(&workflow.body).len()
}
