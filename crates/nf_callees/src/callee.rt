//! `Callee`: what a name is where it is called.

ghost use Rattle.std.specs.Prelude.{◌≡◌};
ghost use Rattle.nf_builtins.specs.Natives.{is_among};
ghost use Rattle.nf_meaning.specs.Names as spec;
ghost use Rattle.nf_meaning.specs.Names.{called_by};
ghost use Rattle.nf_callees.specs.Found.{defined_in};
ghost use Rattle.nf_callees.specs.Callee.{called_of};

use crate::definitions::Definitions;
use nf_ast::{Process, Workflow};
use nf_builtins::Natives;
use nf_optable::{OpRow, operator_named};

/// What a name is where it is called (own). The script's own names come before the language's.
#[derive(Drop)]
pub enum Callee<'a> {
    /// A process of the script.
    Process(&'a Process),
    /// A workflow of the script.
    Workflow(&'a Workflow),
    /// A function of the script or of the program.
    Function,
    /// The word `file`.
    File,
    /// An operator of channels.
    Operator(OpRow),
    /// Nothing.
    Unknown,
}

impl<'a> Definitions<'a> {
    /// What a name is where it is called. Takes no memory.
    pub fn callee<N: Natives>(&self, name: &str, natives: &N) -> Callee<'a>
        ensures { called_of result ≡ called_by (defined_in self.now) (N.titles natives.now) name.now }
    {
        if let Some(process) = self.process(name) {
            return Callee::Process(process);
        }
        if let Some(workflow) = self.workflow(name) {
            return Callee::Workflow(workflow);
        }
        if self.is_function(name, natives) {
            return Callee::Function;
        }
        if name == "file" {
            return Callee::File;
        }
        match operator_named(name) {
            Some(row) => Callee::Operator(row),
            None => Callee::Unknown,
        }
    }

    /// Whether a function of the script or of the program has the name. Takes no memory.
    pub fn is_function<N: Natives>(&self, name: &str, natives: &N) -> bool
        ensures { result ≡ spec.is_function (defined_in self.now) (N.titles natives.now) name.now }
    {
        self.functions().contains_key(name) || has_title(name, natives)
    }
}

/// Whether a function of the program has the name.
fn has_title<N: Natives>(name: &str, natives: &N) -> bool
    ensures { result ≡ is_among name.now (N.titles natives.now) }
{
    for id in 0..natives.count() {
        if natives.name(id) == name {
            return true;
        }
    }
    false
}
