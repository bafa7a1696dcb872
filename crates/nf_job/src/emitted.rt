//! `Outputs`: what a task's report amounts to.

ghost use Rattle.std.specs.Prelude.{◌≡◌, IfOk, map, option_map};
ghost use Rattle.nf_value.specs.View.{plain_of};

use crate::fault::TaskFault;
use nf_value::{Mem, Value};
use std::marker::Model;

/// The value of each output of a process, or `None`. Contracts see the plain values.
pub struct Emitted {
    items: Vec<Option<Value>>,
}

impl Drop for Emitted {
    fn drop(self) {
        let Emitted { items: _ } = self;
    }
}

impl Model for Emitted {
    ghost use Rattle.std.specs.Prelude.{List, map, option_map};
    ghost use Rattle.std.specs.declared.option.Option.{Option};
    ghost use Rattle.nf_value.specs.Plain.{Plain};
    ghost use Rattle.nf_value.specs.Coding.{plain_coding};
    ghost use Rattle.nf_value.specs.View.{plain_of};
    ghost use Rattle.std.specs.Coded.{coded_list, coded_option};

    ghost Value = { List (Option Plain) };

    ghost coded = { coded_list (coded_option plain_coding) };

    ghost view = { λ e. map (option_map plain_of) e.items.items };
}

impl Emitted {
    /// The list of a vector. Takes no memory.
    pub fn of(items: Vec<Option<Value>>) -> Emitted
        ensures { result ≡ map (option_map plain_of) items.items }
    {
        Emitted { items }
    }

    /// The outputs in order. Takes no memory.
    pub fn items(&self) -> &[Option<Value>]
        ensures { map (option_map plain_of) result.now ≡ self.now }
    {
        self.items.as_slice()
    }

    /// The outputs as a vector. Takes no memory.
    pub fn into_items(self) -> Vec<Option<Value>>
        ensures { map (option_map plain_of) result.items ≡ self }
    {
        let Emitted { items } = self;
        items
    }

    /// A copy of the list.
    ///
    /// # Errors
    ///
    /// `Mem` if there is no memory for it.
    pub fn copy(&self) -> Result<Emitted, Mem>
        ensures { IfOk result (λ e. e ≡ self.now) }
    {
        let mut copies = Vec::new(*self.items.allocator());
        for item in &self.items {
            copies.push(copy_output(item)?)?;
        }
        Ok(Emitted { items: copies })
    }
}

fn copy_output(item: &Option<Value>) -> Result<Option<Value>, Mem>
    ensures { IfOk result (λ o. option_map plain_of o ≡ option_map plain_of item.now) }
{
    match item {
        None => Ok(None),
        Some(value) => Ok(Some(value.copy()?)),
    }
}

/// What the report of a task's attempt amounts to (own).
#[derive(Drop)]
pub enum Outputs {
    /// The task emits these values.
    Emits(Emitted),
    /// The task failed, and the run goes on without it.
    Ignored,
    /// The task failed, and the run ends.
    Failed(TaskFault),
    /// The attempt failed, and the task is tried again.
    Again,
}

impl Outputs {
    /// A copy of the outputs.
    ///
    /// # Errors
    ///
    /// `Mem` if there is no memory for it.
    pub fn copy(&self) -> Result<Outputs, Mem>
        ensures { IfOk result (λ o. o ≡ self.now) }
    {
        match self {
            Outputs::Emits(emitted) => Ok(Outputs::Emits(emitted.copy()?)),
            Outputs::Ignored => Ok(Outputs::Ignored),
            Outputs::Failed(fault) => Ok(Outputs::Failed(fault.copy()?)),
            Outputs::Again => Ok(Outputs::Again),
        }
    }
}
