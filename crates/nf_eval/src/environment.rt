//! The environment that an expression is evaluated in.

ghost use Rattle.std.specs.Prelude.{◌≡◌, ℕ, List, Option, OnOk, IfOk, Ok, if◌then◌else◌};
ghost use Rattle.nf_value.specs.Plain.{Plain};
ghost use Rattle.nf_value.specs.View.{plain_of};
ghost use Rattle.nf_value.specs.declared.fault.EvalKind.TheVariants.{WrongKind};
ghost use Rattle.nf_builtins.specs.Natives.{is_among};
ghost use Rattle.nf_infix.specs.Compare.{matches};
ghost use Rattle.nf_placed.specs.Placed.{Evaluates, made, fault};
ghost use Rattle.nf_placed.specs.Scope.{names_in_scope, function_names};
ghost use Rattle.nf_eval.specs.Latest.{names_of};
ghost use Rattle.nf_eval.specs.Memory.{texts_of};

use crate::library::Library;
use crate::patterns::Pattern;
use crate::scope::Scope;
use nf_placed::{fault_at, matches_value};
use nf_value::{EvalKind, EvalRefusal, Mem, Place, Txt, Value};
use std::alloc::Global;
use std::sync::Arc;

/// The environment of an expression: names with their values, a library of functions and built patterns, and whether it belongs to a process (own).
/// Contracts see its `env_of`.
pub struct Env {
    pub(crate) names: Scope,
    pub(crate) library: Arc<Library>,
    pub(crate) in_process: bool,
}

impl Drop for Env {
    fn drop(self) {
        let Env {
            names: _,
            library: _,
            in_process: _,
        } = self;
    }
}

impl Env {
    ghost use Rattle.nf_eval.specs.Memory.{env_of, IsOver, IsChangedBy, with_captured, with_name, in_a_process};

    /// An environment without names that sees the functions and patterns of a library. It belongs to no process. Takes no memory.
    pub fn new(alloc: Global, library: Arc<Library>) -> Env
        ensures { IsOver library.value result }
    {
        Env {
            names: Scope::new(alloc),
            library,
            in_process: false,
        }
    }

    /// The same environment with these names in place of its own. The library is shared: no function is copied (own).
    ///
    /// # Errors
    ///
    /// `Mem` where the library has too many owners.
    pub fn with_names(&self, names: Scope) -> Result<Env, Mem>
        ensures { IfOk result (λ e. IsChangedBy (with_captured (names_of names)) self.now e) }
    {
        Ok(Env {
            names,
            library: self.library.clone()?,
            in_process: self.in_process,
        })
    }

    /// Adds a name.
    ///
    /// # Errors
    ///
    /// `Mem` where there is no memory for it.
    pub fn define(&mut self, name: Txt, value: Value) -> Result<(), Mem>
        ensures { OnOk result (IsChangedBy (with_name name (plain_of value)) self.old self.new) }
    {
        self.names.define(name, value)
    }

    /// From now on the environment belongs to a process: a hole whose value is a list of one file or more, and of nothing else, prints the files' names
    /// with blanks between them (own). Takes no memory.
    pub fn for_process(&mut self)
        ensures { IsChangedBy in_a_process self.old self.new }
    {
        self.in_process = true;
    }

    /// Whether a name has a value. Takes no memory, and time by the number of names.
    pub fn has_name(&self, name: &str) -> bool
        ensures { (titles : List (List ℕ)) (answer : ℕ → List Plain → Option Plain) → result ≡ is_among name.now (names_in_scope (env_of self.now titles answer)) }
    {
        self.names.value(name).is_some()
    }

    /// Whether the library has a function of the name. Takes no memory, and time by the number of functions.
    pub fn has_function(&self, name: &str) -> bool
        ensures { (titles : List (List ℕ)) (answer : ℕ → List Plain → Option Plain) → result ≡ is_among name.now (function_names (env_of self.now titles answer)) }
    {
        self.library.has_function(name)
    }

    /// Whether the library has the pattern of a text. Takes no memory, and time by the number of patterns.
    pub fn has_pattern(&self, text: &str) -> bool
        ensures { (titles : List (List ℕ)) (answer : ℕ → List Plain → Option Plain) → result ≡ is_among text.now (env_of self.now titles answer).patterns }
    {
        self.library.has_pattern(text)
    }
}

/// Whether the pattern of a text matches a value. Faults stand at `place`.
///
/// # Errors
///
/// `WrongKind` where the value is no text, and where no pattern of that text is built. `Mem` for want of memory.
pub(crate) fn matched(
    alloc: Global,
    place: Place,
    value: &Value,
    text: &str,
    patterns: &[Pattern],
) -> Result<Value, EvalRefusal>
    ensures { Evaluates (if is_among text.now (texts_of patterns.now) then made place (matches (plain_of value.now) text.now) else fault WrongKind place) result }
{
    for pattern in patterns {
        if pattern.text.as_str() == text {
            return matches_value(alloc, place, value, &pattern.re);
        }
    }
    Err(fault_at(place, EvalKind::WrongKind))
}
