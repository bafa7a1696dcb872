//! The lanes of a call, each over the row's one host in memory.

ghost use Rattle.std.specs.Prelude.{◌≡◌, ◌<◌, ◌^◌, All, IfOk, length};
ghost use Rattle.nf_shell.specs.ShellLane.{runs_of};
ghost use Rattle.cases_scripts.specs.MeetLane.{told_by};

use crate::meet::MeetLane;
use crate::meeting::Meeting;
use anyhow::Result;
use nf_cli::LANES;
use nf_host::{Host, SharedHost};
use nf_shell::ShellLane;
use nf_value::{Mem, Txt};
use std::alloc::Global;
use std::sync::Wait;

/// The lanes of a call in this work folder, and what is left of the hosts.
pub(crate) fn lanes<H: Host + Drop>(
    alloc: Global,
    hosts: &mut Vec<H>,
    work: &str,
) -> Result<Vec<ShellLane<H>>, Mem>
    ensures count { IfOk result (λ v. length v.items ≡ 16) }
    ensures room { IfOk result (λ v. All (λ l. runs_of l < 2 ^ 62) v.items) }
{
    let mut lanes = Vec::with_capacity(alloc, LANES)?;
    for _ in 0..LANES {
        lanes.push(lane(alloc, hosts, work)?)?;
    }
    Ok(lanes)
}

/// The lanes of a call, each of which holds its first run until a second one's begins.
pub(crate) fn meeting_lanes<R: Wait + Copy + Drop, H: Host + Drop>(
    rt: R,
    alloc: Global,
    hosts: &mut Vec<H>,
    work: &str,
) -> Result<Vec<MeetLane<R, ShellLane<H>>>, Mem>
    ensures count { IfOk result (λ v. length v.items ≡ 16) }
    ensures room { IfOk result (λ v. All (λ l. told_by runs_of l < 2 ^ 62) v.items) }
{
    let meeting = Meeting::new(rt, alloc)?;
    let mut lanes = Vec::with_capacity(alloc, LANES)?;
    for _ in 0..LANES {
        let lane = lane(alloc, hosts, work)?;
        lanes.push(MeetLane::new(lane, meeting.share()?))?;
    }
    Ok(lanes)
}

/// A lane over the last of the hosts.
fn lane<H: Host + Drop>(alloc: Global, hosts: &mut Vec<H>, work: &str) -> Result<ShellLane<H>, Mem>
    ensures { IfOk result (λ l. runs_of l ≡ 0) }
{
    let Some(host) = hosts.pop() else {
        return Err(Mem);
    };
    let work = Txt::of(String::from_str(alloc, work)?);
    Ok(ShellLane::new(alloc, host, work))
}

/// A host for each lane, the keeper and the files of each of so many calls, and one more for the row.
pub(crate) fn hosts<R: Wait + Copy + Drop>(
    rt: R,
    alloc: Global,
    host: nf_host::MemHost,
    calls: usize,
) -> Result<Vec<SharedHost<R>>> {
    let count = calls.saturating_mul(18).saturating_add(1);
    let count = u32::try_from(count).unwrap_or(u32::MAX);
    Ok(SharedHost::handles(rt, alloc, host, count)?)
}
