//! `Everywhere`: what expressions see in every body.

ghost use Rattle.std.specs.Prelude.{◌≡◌};
ghost use Rattle.nf_placed.specs.Scope.{value_in};
ghost use Rattle.nf_around.specs.Values.{or_null};

use nf_eval::Library;
use nf_value::Value;
use std::sync::Arc;

/// What expressions see in every body of a script: the names that have a value everywhere, and a library of functions
/// and patterns.
#[derive(Drop)]
pub(crate) struct Everywhere {
    /// `params`: the parameters that are set so far, as a map.
    pub(crate) params: Value,
    /// `projectDir` and `baseDir`: the folder of the script.
    pub(crate) folder: Value,
    /// `launchDir`: the folder of the run.
    pub(crate) launch: Value,
    /// The functions, each after those that it calls, and the patterns that are built.
    pub(crate) library: Arc<Library>,
}

impl Everywhere {
    ghost use Rattle.nf_around.specs.Values.{values_of};

    /// The value of a name that has one everywhere. Takes no memory.
    pub(crate) fn value(&self, name: &str) -> Option<&Value>
        ensures { value_in name.now (values_of self.now) ≡ or_null result }
    {
        match name {
            "params" => Some(&self.params),
            "projectDir" | "baseDir" => Some(&self.folder),
            "launchDir" => Some(&self.launch),
            _ => None,
        }
    }
}
