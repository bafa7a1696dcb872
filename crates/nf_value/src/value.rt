//! What a value is.

ghost use Rattle.std.specs.Prelude.{◌≡◌, IfOk};
ghost use Rattle.nf_value.specs.Plain.{file as file_plain};
ghost use Rattle.nf_value.specs.View.{plain_of};

use crate::file::{FileBox, FileRef};
use crate::list::Vals;
use crate::map::Pairs;
use crate::mem::Mem;
use crate::text::Txt;
use std::alloc::Global;

/// A value: what an expression gives, and what a channel carries (Nextflow reference, "Script"; these seven kinds own). Contracts see its
/// `Plain`, by `plain_of`.
#[cycle(value)]
#[derive(Drop)]
pub enum Value {
    /// `null`.
    Null,
    /// `true` or `false`.
    Truth(bool),
    /// A signed number of 64 bits.
    Int(i64),
    /// A text in UTF-8.
    Text(Txt),
    /// A file: its name and what is in it. It stands in memory of its own, so that other values take less.
    File(FileBox),
    /// A list.
    List(Vals),
    /// A map from texts to values.
    Map(Pairs),
}

impl Value {
    /// A file as a value.
    ///
    /// # Errors
    ///
    /// `Mem` where there is no memory for it.
    pub fn of_file(alloc: Global, file: FileRef) -> Result<Value, Mem>
        ensures { IfOk result (λ v. plain_of v ≡ file_plain file.name file.digest.0 file.len) }
    {
        Ok(Value::File(FileBox::new(alloc, file)?))
    }

    /// Another value, equal to this one.
    ///
    /// # Errors
    ///
    /// `Mem` where there is no memory for it.
    #[cycle(copy)]
    pub fn copy(&self) -> Result<Value, Mem>
        ensures { IfOk result (λ v. v ≡ self.now) }
    {
        match self {
            Value::Null => Ok(Value::Null),
            Value::Truth(b) => Ok(Value::Truth(*b)),
            Value::Int(i) => Ok(Value::Int(*i)),
            Value::Text(text) => Ok(Value::Text(text.copy()?)),
            Value::File(file) => Ok(Value::File(file.copy()?)),
            Value::List(list) => Ok(Value::List(list.copy()?)),
            Value::Map(pairs) => Ok(Value::Map(pairs.copy()?)),
        }
    }
}
