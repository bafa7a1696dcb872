//! From a script that is asked to be run to its plan, over the files that its sources read.

ghost use Rattle.std.specs.Prelude.{◌≡◌, ◌≤◌, ◌∷◌, IfErr, map};
ghost use Rattle.nf_ast.specs.Tops.{view_script};
ghost use Rattle.nf_found.specs.All.{found_of};
ghost use Rattle.nf_host.specs.Faults.{Rose};
ghost use Rattle.nf_host.specs.Told.{Both};
ghost use Rattle.nf_meaning.specs.CallPaths.{NamesArePlain};
ghost use Rattle.nf_meaning.specs.Script.{definitions_of};
ghost use Rattle.nf_plan.specs.Plans.{want_of};
ghost use Rattle.nf_request.specs.Held.{OnHostFault};
ghost use Rattle.nf_shell.specs.Places.{KeepsOrStores};
ghost use Rattle.nf_sources.specs.Sources.{scratch_in};
ghost use Rattle.nf_tasks.specs.Memory.{program};
ghost use Rattle.nf_cli.specs.Planned.{Finds, Lowers, Plans, end_of_found, end_of_source as end_of_source_of, script_of};

use crate::same::are_same;
use nf_asked::AskedRun;
use nf_builtins::Natives;
use nf_ends::End;
use nf_found::{Found, FoundRefusal, all_found};
use nf_host::Host;
use nf_lower::{Outside, lower};
use nf_meaning::LowerFault;
use nf_meaning::laws::text_alone;
use nf_plan::{Plan, Want};
use nf_sources::SourceRefusal;
use std::alloc::Global;

/// The plan of a script, over the files that its sources read (own). It is lowered first with no files, which gives the
/// paths that it reads; if there are some, their files are found and stored, and it is lowered again with them.
///
/// # Errors
///
/// `NoFile` and `FileTooLong` with the first path that has no file or one that is too long. `Lower` with the script's first
/// fault, which it has whatever files are found. `HostFault` if the host failed, which it counted; `Mem` if there is no memory.
pub(crate) fn planned<H: Host, N: Natives>(
    alloc: Global,
    host: &mut H,
    run: &AskedRun,
    natives: &N,
) -> Result<Plan, End>
    requires kept { N.keeps natives.now }
    requires names { NamesArePlain (definitions_of (view_script run.now.script)) }
    ensures later { H.faults host.old ≤ H.faults host.new }
    ensures cause { IfErr result (λ e. OnHostFault e (Rose (H.faults host.old) (H.faults host.new))) }
    ensures no_start { H.started host.new ≡ H.started host.old }
    ensures kept { Both (H.files host.old) (H.files host.new) (KeepsOrStores run.now.work (scratch_in run.now.work)) }
    ensures plans { Plans (script_of (program (N.titles natives.now) (N.answer natives.now)) run.now)
        (H.files host.old) result }
{
    let plan = lowered(alloc, run, &[], natives)?;
    let found = files_for(alloc, host, run.work.as_str(), &plan.wants)?;
    if found.is_empty() {
        return Ok(plan);
    }
    let again = lowered(alloc, run, &found, natives)?;
    // No run gets past this: the paths are those of the script, also with other files.
    if !are_same(&plan.wants, &again.wants) {
        return Err(End::Mem);
    }
    Ok(again)
}

/// The plan of a script with these files.
fn lowered<N: Natives>(
    alloc: Global,
    run: &AskedRun,
    found: &[Found],
    natives: &N,
) -> Result<Plan, LowerFault>
    requires kept { N.keeps natives.now }
    requires names { NamesArePlain (definitions_of (view_script run.now.script)) }
    ensures { Lowers (script_of (program (N.titles natives.now) (N.answer natives.now)) run.now)
        (map found_of found.now) result }
{
    text_alone();
    let outside = Outside {
        params: &run.params,
        folder: run.folder.as_str(),
        found,
    };
    lower(alloc, run.script.script(), &outside, natives)
}

/// The files of all paths that a script's sources read.
fn files_for<H: Host>(
    alloc: Global,
    host: &mut H,
    work: &str,
    wants: &[Want],
) -> Result<Vec<Found>, End>
    ensures later { H.faults host.old ≤ H.faults host.new }
    ensures cause { IfErr result (λ e. OnHostFault e (Rose (H.faults host.old) (H.faults host.new))) }
    ensures no_start { H.started host.new ≡ H.started host.old }
    ensures kept { Both (H.files host.old) (H.files host.new) (KeepsOrStores work.now (scratch_in work.now)) }
    ensures finds { Finds work.now (H.files host.old) (map want_of wants.now) result }
{
    match all_found(alloc, host, work, wants) {
        Ok(found) => Ok(found),
        Err(refusal) => Err(end_of_refusal(refusal)),
    }
}

/// How a call ends whose sources have no files.
fn end_of_refusal(refusal: FoundRefusal) -> End
    ensures { result ≡ end_of_found refusal }
{
    match refusal {
        FoundRefusal::NoFile { path } => End::NoFile { path },
        FoundRefusal::Source(refusal) => end_of_source(refusal),
    }
}

fn end_of_source(refusal: SourceRefusal) -> End
    ensures { result ≡ end_of_source_of refusal }
{
    match refusal {
        SourceRefusal::FileTooLong { path } => End::FileTooLong { path },
        SourceRefusal::Host(refusal) => End::from(refusal),
    }
}
