//! What the report of an attempt amounts to.

ghost use Rattle.std.specs.Prelude.{◌≡◌, IfOk};
ghost use Rattle.nf_tasks.specs.Judged.{Answers};
ghost use Rattle.nf_tasks.specs.Memory.{process_of, program, Program};
ghost use Rattle.nf_tasks.specs.Outcome.{done_by, failure_in, outputs_of, targets_of};

use crate::emission::{Giving, values_of};
use crate::failure::{failure_of, options_in, outputs_at, wants_stdout};
use crate::prepared::{Prepared, prepare};
use crate::process::ProcessSpec;
use crate::publishing::published;
use crate::target_list::Targets;
use nf_builtins::Natives;
use nf_job::{Emitted, Outputs, Report, TaskFault, TaskRefusal};
use nf_value::{Mem, Vals};
use std::alloc::Global;

/// What a report gives that doesn't fail.
#[derive(Drop)]
pub(crate) struct Done {
    pub(crate) values: Emitted,
    pub(crate) targets: Targets,
}

/// What the report of an attempt amounts to (Nextflow reference documentation, "Process", "Outputs" and "errorStrategy"). A report fails by
/// an exit status other than 0, else by a standard output that is an output and no text, else by the first pattern that isn't optional and
/// has no files. A failed attempt is tried again, ignored, or ends the run, by the process's strategy. Otherwise each output has its value,
/// or nothing where it is optional and its files aren't there.
///
/// # Errors
///
/// `Fault` exactly if the attempt has no job, with the fault of [`parts`](crate::parts), or if the report doesn't fail and an output or a
/// directive `publishDir` has no value, with the first such fault. `Mem` if there is no memory.
pub fn emit_of<N: Natives>(
    alloc: Global,
    spec: &ProcessSpec,
    inputs: &Vals,
    attempt: u32,
    report: &Report,
    natives: &N,
) -> Result<Outputs, TaskRefusal>
    requires { N.keeps natives.now }
    ensures { Answers (outputs_of (process_of (program (N.titles natives.now) (N.answer natives.now)) spec.now)
        inputs.now attempt report.now) result }
{
    let prepared = prepare(alloc, spec, inputs, attempt, natives)?;
    if let Some(fault) = failure_in(alloc, spec, &prepared, report)? {
        return Ok(outputs_at(spec.strategy, attempt, fault));
    }
    let done = done_by(alloc, spec, &prepared, report, natives)?;
    Ok(Outputs::Emits(done.values))
}

/// The files that the report of an attempt publishes: of each directive `publishDir`, in their order, the files of the `path` outputs, in
/// the order of the report (Nextflow reference documentation, "Process", "publishDir"). A file's path is the directive's folder, a slash
/// and its name. A failing report publishes nothing.
///
/// # Errors
///
/// As for [`emit_of`].
pub fn targets<N: Natives>(
    alloc: Global,
    spec: &ProcessSpec,
    inputs: &Vals,
    attempt: u32,
    report: &Report,
    natives: &N,
) -> Result<Targets, TaskRefusal>
    requires { N.keeps natives.now }
    ensures { Answers (targets_of (process_of (program (N.titles natives.now) (N.answer natives.now)) spec.now)
        inputs.now attempt report.now) result }
{
    let prepared = prepare(alloc, spec, inputs, attempt, natives)?;
    if failure_in(alloc, spec, &prepared, report)?.is_some() {
        return Ok(Targets::of(Vec::new(alloc)));
    }
    let done = done_by(alloc, spec, &prepared, report, natives)?;
    Ok(done.targets)
}

fn failure_in(
    alloc: Global,
    spec: &ProcessSpec,
    prepared: &Prepared,
    report: &Report,
) -> Result<Option<TaskFault>, Mem>
    ensures { IfOk result (λ f. (n : Program) → f ≡ failure_in (process_of n spec.now) prepared.now report.now) }
{
    let options = options_in(alloc, &spec.outputs)?;
    let stdout = wants_stdout(&spec.outputs);
    failure_of(&options, prepared.patterns.items(), stdout, report)
}

/// What a report gives that doesn't fail: first the outputs are judged, then the directives.
fn done_by<N: Natives>(
    alloc: Global,
    spec: &ProcessSpec,
    prepared: &Prepared,
    report: &Report,
    natives: &N,
) -> Result<Done, TaskRefusal>
    requires { N.keeps natives.now }
    ensures { Answers (done_by (process_of (program (N.titles natives.now) (N.answer natives.now)) spec.now)
        prepared.now report.now) result }
{
    let found = report.found.items();
    let giving = Giving {
        seen: &prepared.seen,
        captured: &report.captured,
    };
    let values = values_of(alloc, &spec.outputs, found, &giving, natives)?;
    let count = options_in(alloc, &spec.outputs)?.len();
    let lists = &found[..count.min(found.len())];
    let targets = published(alloc, &spec.publishes, &prepared.seen, lists, natives)?;
    Ok(Done { values, targets })
}
