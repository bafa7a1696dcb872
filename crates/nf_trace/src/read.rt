//! `read_trace`: reads a trace.

ghost use Rattle.std.specs.Prelude.{◌≡◌, ◌<◌, ◌≤◌, ◌+◌, [], ◌∷◌, length, codes, MatchOption, IfSome, IfOk, position, true, ◌&&◌, bytes_eq};
ghost use Rattle.std.specs.Char.{is_ascii_digit};
ghost use Rattle.std.specs.List.{list_all};
ghost use Rattle.nf_trace.specs.Line.{header};
ghost use Rattle.nf_trace.specs.Reading.{is_line_end, between_line_ends, columns, is_unpadded as is_unpadded_of, is_number as is_number_of, is_below as is_below_of, line_in as line_in_of, line_after as line_after_of, lines_in, after_first as after_first_of, last_number as last_number_of, IsNumberOrNone, reading, Reads};

use crate::fault::TraceFault;
use crate::line::TraceLine;
use nf_value::{Mem, Txt};
use std::alloc::Global;

/// The first line of every trace, without its line end.
const HEADER: &str = "task_id\thash\tname\tstatus\texit";

/// The lines of a trace after its header. A trace is a text in UTF-8. Its first line is the header, and each further line has five
/// columns with tabs between them: the first is a decimal number of at least 1, without leading zeros, and above that of the line
/// before. Each line has a line end (own).
///
/// # Errors
///
/// `NotATrace` with the number of the first line, from 1, that is none of a trace; `Mem` if there is no memory for the lines.
pub fn read_trace(alloc: Global, bytes: &[u8]) -> Result<Vec<TraceLine>, TraceFault>
    ensures { Reads (reading bytes.now) result }
{
    match split_line(bytes) {
        Some((first, rest)) => after_first(alloc, first, rest),
        None => Err(TraceFault::NotATrace { line: 1 }),
    }
}

fn after_first(alloc: Global, first: &[u8], rest: &[u8]) -> Result<Vec<TraceLine>, TraceFault>
    ensures { Reads (after_first_of first.now (between_line_ends rest.now)) result }
{
    if is_header(first) {
        read_lines(alloc, rest)
    } else {
        Err(TraceFault::NotATrace { line: 1 })
    }
}

fn is_header(line: &[u8]) -> bool
    ensures { result ≡ bytes_eq line.now header }
{
    line == HEADER.as_bytes()
}

/// The lines after the header.
fn read_lines(alloc: Global, bytes: &[u8]) -> Result<Vec<TraceLine>, TraceFault>
    ensures { Reads (lines_in 2 [] (between_line_ends bytes.now)) result }
{
    let mut lines: Vec<TraceLine> = Vec::new(alloc);
    let mut rest = bytes;
    while let Some((text, after)) = split_line(rest) {
        match line_in(alloc, last_number(&lines), text)? {
            Some(line) => lines.push(line)?,
            None => return Err(TraceFault::NotATrace {
                line: lines.len() + 2,
            }),
        }
        rest = after;
    }
    if rest.is_empty() {
        Ok(lines)
    } else {
        Err(TraceFault::NotATrace {
            line: lines.len() + 2,
        })
    }
}

/// The number of the last line; no digits if there is none.
fn last_number(lines: &[TraceLine]) -> &str
    ensures { result.now ≡ last_number_of lines.now }
{
    match lines.last() {
        Some(line) => line.task_id.as_str(),
        None => "",
    }
}

/// The bytes before the first line end, and those after it.
fn split_line(bytes: &[u8]) -> Option<(&[u8], &[u8])>
    ensures parts { MatchOption result (between_line_ends bytes.now ≡ bytes.now ∷ []) (λ p. between_line_ends bytes.now ≡ p.0.now ∷ between_line_ends p.1.now) }
    ensures shorter { IfSome result (λ p. length p.1.now < length bytes.now) }
{
    match line_end(bytes) {
        Some(end) => Some((&bytes[..end], &bytes[end + 1..])),
        None => None,
    }
}

/// How many bytes stand before the first line end.
fn line_end(bytes: &[u8]) -> Option<usize>
    ensures { result ≡ position is_line_end bytes.now }
{
    bytes.iter().position(|byte| *byte == b'\n')
}

/// The line that the bytes are, if its number is above the last one.
fn line_in(alloc: Global, last: &str, bytes: &[u8]) -> Result<Option<TraceLine>, Mem>
    requires { IsNumberOrNone last.now }
    ensures { IfOk result (λ o. o ≡ line_in_of last.now bytes.now) }
{
    match std::str::from_utf8(bytes) {
        Ok(text) => line_after(alloc, last, text),
        Err(_) => Ok(None),
    }
}

fn line_after(alloc: Global, last: &str, text: &str) -> Result<Option<TraceLine>, Mem>
    requires { IsNumberOrNone last.now }
    ensures { IfOk result (λ o. o ≡ line_after_of last.now (columns text.now)) }
{
    let Some((task_id, rest)) = split_column(text) else {
        return Ok(None);
    };
    let Some((hash, rest)) = split_column(rest) else {
        return Ok(None);
    };
    let Some((name, rest)) = split_column(rest) else {
        return Ok(None);
    };
    let Some((status, exit)) = split_column(rest) else {
        return Ok(None);
    };
    if split_column(exit).is_some() {
        return Ok(None);
    }
    if !is_next(last, task_id) {
        return Ok(None);
    }
    let line = TraceLine {
        task_id: txt(alloc, task_id)?,
        hash: txt(alloc, hash)?,
        name: txt(alloc, name)?,
        status: txt(alloc, status)?,
        exit: txt(alloc, exit)?,
    };
    Ok(Some(line))
}

/// The text before the first tab, and that after it.
fn split_column(text: &str) -> Option<(&str, &str)>
    ensures { MatchOption result (columns text.now ≡ text.now ∷ []) (λ p. columns text.now ≡ p.0.now ∷ columns p.1.now) }
{
    text.split_once('\t')
}

/// Whether a text is a number above the last one.
fn is_next(last: &str, id: &str) -> bool
    requires { IsNumberOrNone last.now }
    ensures { result ≡ (is_number_of id.now && is_below_of last.now id.now) }
{
    is_number(id) && is_below(last, id)
}

/// Whether a text is a decimal number of at least 1, without leading zeros.
fn is_number(text: &str) -> bool
    ensures { result ≡ is_number_of text.now }
{
    let digits = text.as_bytes();
    is_unpadded(digits) && are_digits(digits)
}

/// Whether there is a digit, and no 0 stands first.
fn is_unpadded(digits: &[u8]) -> bool
    ensures { result ≡ is_unpadded_of digits.now }
{
    match digits {
        [] => false,
        [first, ..] => *first != b'0',
    }
}

fn are_digits(bytes: &[u8]) -> bool
    ensures { result ≡ list_all is_ascii_digit bytes.now }
{
    bytes.iter().all(|byte| byte.is_ascii_digit())
}

/// Whether the first number is below the second; no digits are 0.
fn is_below(a: &str, b: &str) -> bool
    requires a { IsNumberOrNone a.now }
    requires b { is_number_of b.now ≡ true }
    ensures { result ≡ is_below_of a.now b.now }
{
    if a.len() == b.len() {
        a < b
    } else {
        a.len() < b.len()
    }
}

fn txt(alloc: Global, text: &str) -> Result<Txt, Mem>
    ensures { IfOk result (λ t. t ≡ text.now) }
{
    let text = String::from_str(alloc, text)?;
    Ok(Txt::of(text))
}
