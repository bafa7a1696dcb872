//! Lanes that answer from a table of what a row's records hold.

ghost use Rattle.std.specs.Prelude.{◌≡◌, ◌<◌, ◌^◌, All, IfOk, length};
ghost use Rattle.nf_lane.specs.TableLane.{runs_of};

use anyhow::{Result, bail};
use nf_cli::LANES;
use nf_host::{Host, Whole, read_whole};
use nf_lane::{Table, TableLane};
use nf_record::read_record;
use nf_value::Mem;
use std::alloc::Global;

/// The folder of a row's records.
pub(crate) const RECORDS: &str = "work/.cache";

/// The most bytes of a record.
const RECORD_BYTES: u64 = 1_048_576;

/// The reports that the records in the row's files hold, by their jobs' texts.
pub(crate) fn table<H: Host>(alloc: Global, host: &mut H) -> Result<Table> {
    let mut entries = Vec::new(alloc);
    let Some(names) = host.list(alloc, RECORDS)? else {
        bail!("no records are there");
    };
    for name in &names {
        let path = format!(in alloc; "{}/{}", RECORDS, name.as_str())?;
        let Whole::Bytes(bytes) = read_whole(alloc, host, path.as_str(), RECORD_BYTES)? else {
            bail!("{path}: no file, or too long a one");
        };
        let Some(record) = read_record(alloc, bytes.items())? else {
            bail!("{path}: no record");
        };
        entries.push((record.job, record.report))?;
    }
    Ok(Table::of(entries))
}

/// The lanes of a call that answer from this table.
pub(crate) fn table_lanes(alloc: Global, table: &Table) -> Result<Vec<TableLane>, Mem>
    ensures count { IfOk result (λ v. length v.items ≡ 16) }
    ensures room { IfOk result (λ v. All (λ l. runs_of l < 2 ^ 62) v.items) }
{
    let mut lanes = Vec::with_capacity(alloc, LANES)?;
    for _ in 0..LANES {
        lanes.push(TableLane::new(table.copy()?, Vec::new(alloc)))?;
    }
    Ok(lanes)
}
