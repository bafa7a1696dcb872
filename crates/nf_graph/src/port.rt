//! `Port` and `Ports`: what a node reads.

ghost use Rattle.std.specs.Prelude.{◌≡◌, IfOk};

use nf_value::Mem;
use std::marker::Model;

/// What a node reads: one output of an earlier node (own).
#[derive(Debug, Clone, Copy, PartialEq, Eq, Drop)]
pub struct Port {
    /// The place of the node that is read, from 0.
    pub from: u32,
    /// The output's place among that node's outputs, from 0.
    pub out: u32,
    /// Whether it is a value port: it gets at most one item, which each instance of a process then has among its inputs (Nextflow
    /// reference documentation, "Channels: Value channels").
    pub value: bool,
}

/// The ports of a node. Contracts see the list of them.
pub struct Ports {
    items: Vec<Port>,
}

impl Drop for Ports {
    fn drop(self) {
        let Ports { items: _ } = self;
    }
}

impl Model for Ports {
    ghost use Rattle.std.specs.Prelude.{List};
    ghost use Rattle.nf_graph.specs.declared.port.Port.{Port};

    ghost Value = { List Port };

    ghost view = { λ p. p.items.items };
}

impl Ports {
    /// The ports of a vector. Takes no memory.
    pub fn of(items: Vec<Port>) -> Ports
        ensures { result ≡ items.items }
    {
        Ports { items }
    }

    /// The ports in order. Takes no memory.
    pub fn items(&self) -> &[Port]
        ensures { result.now ≡ self.now }
    {
        self.items.as_slice()
    }

    /// A copy of the list.
    ///
    /// # Errors
    ///
    /// `Mem` if there is no memory for it.
    pub fn copy(&self) -> Result<Ports, Mem>
        ensures { IfOk result (λ p. p ≡ self.now) }
    {
        let items = self.items.clone()?;
        Ok(Ports { items })
    }
}
