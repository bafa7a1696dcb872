//! What inputs take from items, one after the other.

ghost use Rattle.std.specs.Prelude.{◌≡◌, [], ◌∷◌, OnOk, MatchOption, Some, None, map, option_map};
ghost use Rattle.nf_value.specs.View.{plain_of};
ghost use Rattle.nf_value.specs.Plain.{plains_of};
ghost use Rattle.nf_value.specs.Text.{value_text};
ghost use Rattle.nf_tasks.specs.Inputs.{Takes, TakesFiles, and_files, and_stdin, and_value, file_in, files_among, files_in, nothing_taken, part_takes, parts_take, path_taken, shape_takes, tuple_takes};

use crate::input_parts::InputPart;
use crate::inputs::{Bound, InputShape};
use nf_job::FileRefs;
use nf_value::{FileRef, Mem, Txt, Vals, Value, text_of};
use std::alloc::Global;

/// What inputs have taken so far. Contracts see its `bound_in`.
#[derive(Drop)]
pub(crate) struct Taking {
    values: Vec<Value>,
    stdin: Option<Txt>,
    staged: Vec<FileRef>,
}

impl Taking {
    ghost use Rattle.nf_tasks.specs.Taking.{bound_in};

    /// Nothing yet. Takes no memory.
    pub(crate) fn new(alloc: Global) -> Taking
        ensures { bound_in result ≡ nothing_taken }
    {
        Taking {
            values: Vec::new(alloc),
            stdin: None,
            staged: Vec::new(alloc),
        }
    }

    /// All that was taken. Takes no memory.
    pub(crate) fn into_bound(self) -> Bound
        ensures { result ≡ bound_in self }
    {
        Bound {
            values: Vals::of(self.values),
            stdin: self.stdin,
            staged: FileRefs::of(self.staged),
        }
    }

    fn add_value(&mut self, value: &Value) -> Result<(), Mem>
        ensures { OnOk result (bound_in self.new ≡ and_value (bound_in self.old) (plain_of value.now)) }
    {
        self.values.push(value.copy()?)?;
        Ok(())
    }

    fn add_stdin(&mut self, alloc: Global, value: &Value) -> Result<(), Mem>
        ensures { OnOk result (bound_in self.new ≡ and_stdin (bound_in self.old) (value_text (plain_of value.now))) }
    {
        self.stdin = Some(text_of(alloc, value)?);
        Ok(())
    }

    fn add_file(&mut self, file: &FileRef) -> Result<(), Mem>
        ensures { OnOk result (bound_in self.new ≡ and_files (bound_in self.old) (file.now ∷ [])) }
    {
        self.staged.push(file.copy()?)?;
        Ok(())
    }

    /// Takes the files of a list, if it has nothing else.
    fn take_all(&mut self, items: &[Value]) -> Result<bool, Mem>
        ensures { TakesFiles (bound_in self.old) (files_among (plains_of (map plain_of items.now)))
            (bound_in self.new) result }
    {
        for item in items {
            let Some(file) = file_in(item) else {
                return Ok(false);
            };
            self.add_file(file)?;
        }
        Ok(true)
    }

    /// Takes the files of a file or a list of files.
    fn take_files(&mut self, item: &Value) -> Result<bool, Mem>
        ensures { TakesFiles (bound_in self.old) (files_in (plain_of item.now)) (bound_in self.new) result }
    {
        match item {
            Value::File(file) => {
                self.add_file(file.file())?;
                Ok(true)
            }
            Value::List(list) => self.take_all(list.items()),
            _ => Ok(false),
        }
    }

    /// Takes the files of an item, and the item itself.
    fn take_path(&mut self, item: &Value) -> Result<bool, Mem>
        ensures { Takes (bound_in self.old)
            (option_map (path_taken (plain_of item.now)) (files_in (plain_of item.now))) (bound_in self.new) result }
    {
        if !self.take_files(item)? {
            return Ok(false);
        }
        self.add_value(item)?;
        Ok(true)
    }

    fn take_part(&mut self, alloc: Global, part: &InputPart, item: &Value) -> Result<bool, Mem>
        ensures { Takes (bound_in self.old) (part_takes part.now (plain_of item.now)) (bound_in self.new) result }
    {
        match part {
            InputPart::Val(_) => {
                self.add_value(item)?;
                Ok(true)
            }
            InputPart::Path(_) => self.take_path(item),
            InputPart::Stdin => {
                self.add_stdin(alloc, item)?;
                Ok(true)
            }
        }
    }

    fn take_parts(
        &mut self,
        alloc: Global,
        parts: &[InputPart],
        items: &[Value],
    ) -> Result<bool, Mem>
        ensures { Takes (bound_in self.old) (parts_take parts.now (plains_of (map plain_of items.now)))
            (bound_in self.new) result }
    {
        for (i, part) in parts.iter().enumerate() {
            let Some(item) = items.get(i) else {
                return Ok(false);
            };
            let fits = self.take_part(alloc, part, item)?;
            if !fits {
                return Ok(false);
            }
        }
        if items.len() > parts.len() {
            return Ok(false);
        }
        Ok(true)
    }

    fn take_tuple(&mut self, alloc: Global, parts: &[InputPart], item: &Value) -> Result<bool, Mem>
        ensures { Takes (bound_in self.old) (tuple_takes parts.now (plain_of item.now)) (bound_in self.new) result }
    {
        match item {
            Value::List(list) => self.take_parts(alloc, parts, list.items()),
            _ => Ok(false),
        }
    }

    /// Takes what an input takes from its item; false if the item has another shape.
    pub(crate) fn take(
        &mut self,
        alloc: Global,
        shape: &InputShape,
        item: &Value,
    ) -> Result<bool, Mem>
        ensures { Takes (bound_in self.old) (shape_takes shape.now (plain_of item.now)) (bound_in self.new) result }
    {
        match shape {
            InputShape::One(part) => self.take_part(alloc, part, item),
            InputShape::Tuple(parts) => self.take_tuple(alloc, parts.items(), item),
        }
    }
}

/// The file that a value is.
fn file_in(value: &Value) -> Option<&FileRef>
    ensures { MatchOption result (file_in (plain_of value.now) ≡ None)
        (λ f. file_in (plain_of value.now) ≡ Some f.now) }
{
    match value {
        Value::File(file) => Some(file.file()),
        _ => None,
    }
}
