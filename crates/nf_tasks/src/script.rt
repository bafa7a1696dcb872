//! The text of a task's script.

ghost use Rattle.std.specs.Prelude.{◌≡◌, ◌++◌, ◌∷◌, IfOk, OnOk, map, string_bytes};
ghost use Rattle.std.specs.List.{flat_map, list_all, slice_split};
ghost use Rattle.nf_tasks.specs.Script.{is_line_end, is_blank, indent_of, is_filled, margin_of, outdented, joined, without_margin, without_line_end, script_text};

use nf_value::{Mem, Txt};
use std::alloc::{AllocError, Global};

/// The text of a task's script: the template's text, without a line end at its start and without the indentation that all its lines
/// share (Nextflow reference documentation, "Process", "Script"; the indentation own). Lines of blanks alone don't count for that
/// indentation, and lose at most their own blanks. A line ends at a line feed. A blank is a space or a tab; each counts as one.
///
/// # Errors
///
/// `Mem` if there is no memory for it.
pub(crate) fn script_text(alloc: Global, text: &str) -> Result<Txt, Mem>
    ensures { IfOk result (λ t. t ≡ script_text text.now) }
{
    without_margin(alloc, without_line_end(text))
}

fn without_line_end(text: &str) -> &str
    ensures { result.now ≡ without_line_end text.now }
{
    match text.strip_prefix("\n") {
        Some(rest) => rest,
        None => text,
    }
}

fn without_margin(alloc: Global, text: &str) -> Result<Txt, Mem>
    ensures { IfOk result (λ t. t ≡ without_margin text.now) }
{
    let lines = lines_of(alloc, text)?;
    let margin = margin(&lines);
    joined(alloc, &lines, margin)
}

/// The lines of a text, split at line feeds.
fn lines_of(alloc: Global, text: &str) -> Result<Vec<&str>, AllocError>
    ensures { IfOk result (λ lines. map (λ line. line.now) lines.items ≡ slice_split is_line_end text.now) }
{
    text.split('\n').collect(alloc)
}

/// How many blanks every line begins with, lines of blanks alone left out.
fn margin(lines: &[&str]) -> usize
    ensures { result ≡ margin_of (map (λ line. line.now) lines.now) }
{
    lines
        .iter()
        .filter(|line| is_filled(line))
        .map(|line| indent(line))
        .min()
        .unwrap_or(0)
}

fn is_filled(line: &str) -> bool
    ensures { result ≡ is_filled line.now }
{
    !is_all_blank(line.as_bytes())
}

fn is_all_blank(line: &[u8]) -> bool
    ensures { result ≡ list_all is_blank line.now }
{
    line.iter().all(|b| is_blank(*b))
}

fn indent(line: &str) -> usize
    ensures { result ≡ indent_of line.now }
{
    leading_blanks(line.as_bytes())
}

fn leading_blanks(line: &[u8]) -> usize
    ensures { result ≡ indent_of line.now }
{
    let mut count = 0;
    for b in line {
        if !is_blank(*b) {
            return count;
        }
        count += 1;
    }
    count
}

fn is_blank(b: u8) -> bool
    ensures { result ≡ is_blank b }
{
    b == b' ' || b == b'\t'
}

fn outdented(line: &str, margin: usize) -> &str
    ensures { result.now ≡ outdented margin line.now }
{
    &line[margin.min(indent(line))..]
}

fn joined(alloc: Global, lines: &[&str], margin: usize) -> Result<Txt, Mem>
    ensures { IfOk result (λ t. t ≡ joined (map (outdented margin) (map (λ line. line.now) lines.now))) }
{
    let mut out = String::new(alloc);
    let Some((first, others)) = lines.split_first() else {
        return Ok(Txt::of(out));
    };
    out.push_str(outdented(first, margin))?;
    push_lines(&mut out, others, margin)?;
    Ok(Txt::of(out))
}

fn push_lines(out: &mut String, lines: &[&str], margin: usize) -> Result<(), Mem>
    ensures { OnOk result
        (string_bytes out.new ≡ string_bytes out.old ++ flat_map (λ line. 10 ∷ outdented margin line.now) lines.now) }
{
    for line in lines {
        push_line(out, outdented(line, margin))?;
    }
    Ok(())
}

fn push_line(out: &mut String, line: &str) -> Result<(), Mem>
    ensures { OnOk result (string_bytes out.new ≡ string_bytes out.old ++ 10 ∷ line.now) }
{
    out.push_str("\n")?;
    out.push_str(line)?;
    Ok(())
}
