//! Writes the text of a template piece by piece, and stops keeping it once it is too long.

ghost use Rattle.std.specs.Prelude.{◌≡◌, ◌++◌, [], ℕ, List, map, OnOk, Ok};
ghost use Rattle.std.specs.List.{list_all};
ghost use Rattle.nf_value.specs.Plain.{text as text_plain};
ghost use Rattle.nf_value.specs.View.{plain_of};
ghost use Rattle.nf_value.specs.Text.{value_text};
ghost use Rattle.nf_texts.specs.Outcome.{Gives};
ghost use Rattle.nf_infix.specs.Template.{hole_text, with_blanks, are_files as are_files_of, is_file as is_file_of, listed as listed_of};

use nf_builtins::CallFault;
use nf_texts::limits::{LONGEST, MOST_WEIGHT, judged};
use nf_value::{EvalKind, Mem, Txt, Value, text_of};
use std::alloc::Global;

/// The text of a template that was written so far (Nextflow reference documentation, "Syntax", "Dynamic string"). What is longer than a text may be isn't
/// kept but counted, so no template takes memory without bound.
#[derive(Drop)]
pub struct Written {
    text: String,
    len: u64,
}

impl Written {
    ghost use Rattle.nf_infix.specs.Template.{IsWritten};

    /// No text. Takes no memory.
    pub fn new(alloc: Global) -> Written
        ensures { IsWritten [] result }
    {
        Written {
            text: String::new(alloc),
            len: 0,
        }
    }

    /// Writes a text.
    ///
    /// # Errors
    ///
    /// `Mem` where there is no memory for it.
    pub fn push(&mut self, text: &str) -> Result<(), Mem>
        ensures { (t : List ℕ) → IsWritten t self.old → OnOk result (IsWritten (t ++ text.now) self.new) }
    {
        self.len = self.len.saturating_add(text.len() as u64).min(LONGEST);
        if self.len <= MOST_WEIGHT {
            self.text.push_str(text)?;
        }
        Ok(())
    }

    /// Writes the text of a hole: the text of its value. But in a process a list of one file or more, and of nothing else, is written as the files' names
    /// with a blank between each two (own).
    ///
    /// # Errors
    ///
    /// `Mem` where there is no memory for it.
    pub fn push_hole(&mut self, alloc: Global, value: &Value, in_process: bool) -> Result<(), Mem>
        ensures { (t : List ℕ) → IsWritten t self.old → OnOk result (IsWritten (t ++ hole_text in_process (plain_of value.now)) self.new) }
    {
        let items = listed(value);
        if in_process && are_files(items) {
            self.push_names(alloc, items)
        } else {
            self.push_value(alloc, value)
        }
    }

    fn push_value(&mut self, alloc: Global, value: &Value) -> Result<(), Mem>
        ensures { (t : List ℕ) → IsWritten t self.old → OnOk result (IsWritten (t ++ value_text (plain_of value.now)) self.new) }
    {
        let text = text_of(alloc, value)?;
        self.push(text.as_str())
    }

    fn push_names(&mut self, alloc: Global, files: &[Value]) -> Result<(), Mem>
        ensures { (t : List ℕ) → IsWritten t self.old → OnOk result (IsWritten (t ++ with_blanks (map plain_of files.now)) self.new) }
    {
        let Some((first, others)) = files.split_first() else {
            return Ok(());
        };
        self.push_value(alloc, first)?;
        for file in others {
            self.push(" ")?;
            self.push_value(alloc, file)?;
        }
        Ok(())
    }

    /// The text as a value. Takes no memory.
    ///
    /// # Errors
    ///
    /// `TooLarge` where it would weigh more than 16,777,216 (own).
    pub fn end(self) -> Result<Value, CallFault>
        ensures { (t : List ℕ) → IsWritten t self → Gives (Ok (text_plain t)) result }
    {
        if self.len > MOST_WEIGHT {
            return Err(CallFault::Kind(EvalKind::TooLarge));
        }
        judged(Value::Text(Txt::of(self.text)))
    }
}

/// The items of a list; none for any other value.
fn listed(value: &Value) -> &[Value]
    ensures { map plain_of result.now ≡ listed_of (plain_of value.now) }
{
    match value {
        Value::List(list) => list.items(),
        _ => &[],
    }
}

fn are_files(items: &[Value]) -> bool
    ensures { result ≡ are_files_of (map plain_of items.now) }
{
    !items.is_empty() && all_files(items)
}

fn all_files(items: &[Value]) -> bool
    ensures { result ≡ list_all is_file_of (map plain_of items.now) }
{
    for item in items {
        if !matches!(item, Value::File(_)) {
            return false;
        }
    }
    true
}
