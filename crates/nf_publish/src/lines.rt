//! The lines of a report.

ghost use Rattle.std.specs.Prelude.{◌≡◌, ◌++◌, IfOk, OnOk, map, string_bytes};
ghost use Rattle.nf_value.specs.Text.{value_text};
ghost use Rattle.nf_value.specs.View.{plain_of};
ghost use Rattle.nf_publish.specs.Report.{ended, lines_text, publish_line, publish_texts};

use nf_tasks::Target;
use nf_value::{Mem, Txt, Vals, Value, text_of};
use std::alloc::Global;

/// Appends the texts of values, each as a line.
pub(crate) fn push_lines(alloc: Global, out: &mut String, values: &[Value]) -> Result<(), Mem>
    ensures { OnOk result
        (string_bytes out.new ≡ string_bytes out.old ++ lines_text (map value_text (map plain_of values.now))) }
{
    for value in values {
        push_line(alloc, out, value)?;
    }
    Ok(())
}

fn push_line(alloc: Global, out: &mut String, value: &Value) -> Result<(), Mem>
    ensures { OnOk result
        (string_bytes out.new ≡ string_bytes out.old ++ ended (value_text (plain_of value.now))) }
{
    let text = text_of(alloc, value)?;
    out.push_str(text.as_str())?;
    out.push_str("\n")?;
    Ok(())
}

/// The lines of files that are published, as values.
pub(crate) fn publish_texts(alloc: Global, targets: &[Target]) -> Result<Vals, Mem>
    ensures { IfOk result (λ vs. vs ≡ publish_texts targets.now) }
{
    let mut lines = Vec::new(alloc);
    for target in targets {
        lines.push(Value::Text(publish_line(alloc, target)?))?;
    }
    Ok(Vals::of(lines))
}

fn publish_line(alloc: Global, target: &Target) -> Result<Txt, Mem>
    ensures { IfOk result (λ line. line ≡ publish_line target.now) }
{
    let digest = hex::encode(alloc, target.digest.0.as_slice())?;
    let mut line = String::from_str(alloc, "publish ")?;
    line.push_str(target.name.as_str())?;
    line.push_str(" ")?;
    line.push_str(digest.as_str())?;
    Ok(Txt::of(line))
}
