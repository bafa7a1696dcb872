//! `Readers`: the ports that read a node.

ghost use Rattle.std.specs.Prelude.{◌≡◌, [], ◌∷◌, ◌++◌, OnOk};

use nf_value::Mem;
use std::alloc::Global;
use std::marker::Model;

/// The numbers of the ports that read an output of a node, in their order (own). Contracts see the list of them.
#[derive(Drop)]
pub struct Readers {
    numbers: Vec<u32>,
}

impl Model for Readers {
    ghost use Rattle.std.specs.Prelude.{ℕ, List};

    ghost Value = { List ℕ };

    ghost view = { λ r. r.numbers.items };
}

impl Readers {
    /// No reader. Takes no memory.
    pub fn new(alloc: Global) -> Readers
        ensures { result ≡ [] }
    {
        Readers {
            numbers: Vec::new(alloc),
        }
    }

    /// The numbers in order. Takes no memory.
    pub fn numbers(&self) -> &[u32]
        ensures { result.now ≡ self.now }
    {
        self.numbers.as_slice()
    }

    /// One reader more.
    ///
    /// # Errors
    ///
    /// `Mem` if there is no memory for it.
    pub fn push(&mut self, number: u32) -> Result<(), Mem>
        ensures { OnOk result (self.new ≡ self.old ++ number ∷ []) }
    {
        self.numbers.push(number)?;
        Ok(())
    }
}
