//! `Thing`: what a name stands for.

use nf_graph::Port;
use nf_value::{Txt, Value};

/// What a name of a workflow's body stands for while its graph is made (own). Contracts see it as a `PortThing`, by
/// `thing_of`.
#[derive(Drop)]
pub enum Thing {
    /// A value that is known before the run.
    Known(Value),
    /// A channel, by the port that reads it.
    Channel(Port),
    /// What a call gives, in the order of its outputs.
    Outputs(Vec<CallOutput>),
}

/// An output of a call (Nextflow reference documentation, "Workflows").
pub struct CallOutput {
    /// Its name, if it has one.
    pub label: Option<Txt>,
    /// The port that reads it.
    pub port: Port,
}

impl Drop for CallOutput {
    fn drop(self) {
        let CallOutput { label: _, port: _ } = self;
    }
}
