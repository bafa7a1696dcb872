//! `generated_line`: the line that `gen` writes in place of a report.

ghost use Rattle.std.specs.Prelude.{◌≡◌, ◌==◌, IfOk};
ghost use Rattle.std.specs.List.{after_last};
ghost use Rattle.std.specs.Io.BufRead.{strip_last};
ghost use Rattle.nf_gen.specs.Line.{gen_line, last_line as last_line_of, line_count as line_count_of};

use nf_value::{Mem, Txt};
use std::alloc::Global;

/// The line that `gen N START` writes in place of the report of its run (own): `gen N START lines L bytes B last T` and a line end. `L` and
/// `B` are the numbers of line ends and of bytes of the report, and `T` is its last line without its line end: what stands behind the last
/// line end, where the report doesn't end with one, and nothing for an empty report.
///
/// # Errors
///
/// `Mem` if there is no memory for it.
pub fn generated_line(alloc: Global, n: u32, start: u64, report: &str) -> Result<Txt, Mem>
    ensures { IfOk result (λ t. t ≡ gen_line n start report.now) }
{
    let lines = line_count(report);
    let bytes = report.len();
    let last = last_line(report);
    let line = format!(in alloc; "gen {n} {start} lines {lines} bytes {bytes} last {last}\n")?;
    Ok(Txt::of(line))
}

fn line_count(text: &str) -> usize
    ensures { result ≡ line_count_of text.now }
{
    text.bytes().filter(|b| *b == b'\n').count()
}

fn last_line(text: &str) -> &str
    ensures { result.now ≡ last_line_of text.now }
{
    behind_last_end(without_end(text))
}

/// A text without the line end that it ends with, if it does.
fn without_end(text: &str) -> &str
    ensures { result.now ≡ strip_last 10 text.now }
{
    text.strip_suffix('\n').unwrap_or(text)
}

/// What stands behind the last line end; all, where there is none.
fn behind_last_end(text: &str) -> &str
    ensures { result.now ≡ after_last (λ b. b == 10) text.now }
{
    match text.rsplit_once('\n') {
        Some((_, last)) => last,
        None => text,
    }
}
