//! One run of a job: its folder, its child, its report.

ghost use Rattle.std.specs.Prelude.{◌≡◌, ◌≤◌, IfOk, IfSome, OnOk, codes, option_map};
ghost use Rattle.std.specs.Fmt.{signed_decimal};
ghost use Rattle.nf_host.specs.Faults.{Rose, OnFailed};
ghost use Rattle.nf_host.specs.Files.{KeepsOthers, put};
ghost use Rattle.nf_host.specs.Folders.{path_in};
ghost use Rattle.nf_host.specs.Told.{Both};
ghost use Rattle.nf_shell.specs.Over.{OkOver};
ghost use Rattle.nf_shell.specs.Places.{IsApart, StoresBeside, StoresOutside};
ghost use Rattle.nf_shell.specs.Runs.{EndsIn, IsEndFor, IsEndOf, IsReportFor, IsReportIn, StartsAtMostOne, StartsFor, StartsIn};

use crate::damage::Damage;
use crate::folder::{prepare, write_in};
use crate::outputs::{captured, found};
use crate::store::job_folder;
use nf_host::{Host, HostRefusal};
use nf_job::{Job, JobParts, Report};
use std::alloc::Global;

// What a run of a job came to.
#[derive(Drop)]
pub(crate) enum Ran {
    // Its child ended.
    Ended(Report),
    // A file that was to be staged is damaged; there was no child.
    Damaged(Damage),
}

// Runs a job once: prepares its folder, runs its child, and reads what that left.
pub(crate) fn run_job<H: Host>(
    alloc: Global,
    host: &mut H,
    work: &str,
    job: &Job,
) -> Result<Ran, HostRefusal>
    ensures later { H.faults host.old ≤ H.faults host.new }
    ensures cause { OnFailed result (Rose (H.faults host.old) (H.faults host.new)) }
    ensures kept { Both (H.files host.old) (H.files host.new) (StoresBeside work.now job.now) }
    ensures known { IfOk result (IsEndFor job.now) }
    ensures ends { OkOver (H.files host.new) result (λ g. IsEndOf work.now job.now g) }
    ensures started { OkOver (H.files host.old) result (λ _.
        StartsFor work.now job.now (H.started host.old) (H.started host.new)) }
    ensures starts { IfSome (H.files host.old) (λ _.
        StartsAtMostOne work.now job.now (H.started host.old) (H.started host.new)) }
{
    let parts = job.parts();
    let folder = job_folder(alloc, work, job.key())?;
    let dir = folder.as_str();
    if let Some(damage) = prepare(alloc, host, work, dir, parts)? {
        return Ok(Ran::Damaged(damage));
    }
    let report = run_child(alloc, host, work, dir, parts)?;
    Ok(Ran::Ended(report))
}

// Runs the child of a folder that is ready, and reads what it left.
fn run_child<H: Host>(
    alloc: Global,
    host: &mut H,
    work: &str,
    dir: &str,
    parts: &JobParts,
) -> Result<Report, HostRefusal>
    requires { IsApart work.now dir.now }
    ensures later { H.faults host.old ≤ H.faults host.new }
    ensures cause { OnFailed result (Rose (H.faults host.old) (H.faults host.new)) }
    ensures kept { Both (H.files host.old) (H.files host.new) (StoresOutside work.now dir.now) }
    ensures known { IfOk result (IsReportFor parts.now) }
    ensures report { OkOver (H.files host.new) result (λ g. IsReportIn work.now dir.now parts.now g) }
    ensures started { OkOver (H.files host.old) result (λ f r.
        EndsIn dir.now parts.now f r (H.started host.old) (H.started host.new)) }
    ensures starts { IfSome (H.files host.old) (λ f.
        StartsIn dir.now f (H.started host.old) (H.started host.new)) }
{
    let exit = host.child(alloc, dir)?;
    write_exit(alloc, host, dir, exit)?;
    let captured = captured(alloc, host, dir, parts.wants_stdout)?;
    let found = found(alloc, host, work, dir, parts)?;
    Ok(Report {
        exit,
        captured,
        found,
    })
}

// Writes a child's exit status into its folder, which is made anew if the child removed it.
fn write_exit<H: Host>(alloc: Global, host: &mut H, dir: &str, exit: i32) -> Result<(), HostRefusal>
    ensures later { H.faults host.old ≤ H.faults host.new }
    ensures cause { OnFailed result (Rose (H.faults host.old) (H.faults host.new)) }
    ensures no_start { H.started host.new ≡ H.started host.old }
    ensures others { Both (H.files host.old) (H.files host.new) (KeepsOthers (path_in dir.now (codes ".exitcode"))) }
    ensures written { OnOk result (H.files host.new ≡
        option_map (λ f. put f (path_in dir.now (codes ".exitcode")) (signed_decimal exit)) (H.files host.old)) }
{
    let status = format!(in alloc; "{exit}")?;
    host.make_dir(dir)?;
    write_in(alloc, host, dir, ".exitcode", status.as_bytes())
}
