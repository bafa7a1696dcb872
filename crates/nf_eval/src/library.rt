//! Functions and patterns that many environments share.

ghost use Rattle.std.specs.Prelude.{◌≡◌, ◌∷◌, ◌++◌, [], List, OnOk, map};
ghost use Rattle.nf_builtins.specs.Natives.{is_among};

use crate::functions::function_named;
use crate::patterns::Pattern;
use nf_ast::Function;
use nf_pattern::WholeRe;
use nf_value::{Mem, Txt};
use std::alloc::Global;

/// Functions of a script and built patterns (own). Environments share them, so that an environment of few names is made without a copy of any
/// function. Contracts see its functions as `definitions_of`, the latest first, and the texts of its patterns as `patterns_of`.
pub struct Library {
    pub(crate) functions: Vec<Function>,
    pub(crate) patterns: Vec<Pattern>,
}

impl Drop for Library {
    fn drop(self) {
        let Library {
            functions: _,
            patterns: _,
        } = self;
    }
}

impl Library {
    ghost use Rattle.nf_eval.specs.Functions.{definition_of};
    ghost use Rattle.nf_eval.specs.Memory.{definitions_of, patterns_of, definition_names};

    /// No functions and no patterns. Takes no memory.
    pub fn new(alloc: Global) -> Library
        ensures functions { definitions_of result ≡ [] }
        ensures patterns { patterns_of result ≡ [] }
    {
        Library {
            functions: Vec::new(alloc),
            patterns: Vec::new(alloc),
        }
    }

    /// Adds a function, which may call those that were added before it. Of several functions of one name the latest is called.
    ///
    /// # Errors
    ///
    /// `Mem` where there is no memory for it.
    pub fn add_function(&mut self, function: Function) -> Result<(), Mem>
        ensures functions { OnOk result (definitions_of self.new ≡ definition_of function ∷ definitions_of self.old) }
        ensures patterns { OnOk result (patterns_of self.new ≡ patterns_of self.old) }
    {
        self.functions.push(function)?;
        Ok(())
    }

    /// Adds the pattern that was built from a text. Functions see it too, whenever they were added.
    ///
    /// # Errors
    ///
    /// `Mem` where there is no memory for it.
    pub fn add_pattern(&mut self, text: Txt, re: WholeRe) -> Result<(), Mem>
        requires { text ≡ re }
        ensures functions { OnOk result (definitions_of self.new ≡ definitions_of self.old) }
        ensures patterns { OnOk result (patterns_of self.new ≡ patterns_of self.old ++ text ∷ []) }
    {
        self.patterns.push(Pattern { text, re })?;
        Ok(())
    }

    /// Whether a function was added that has the name. Takes no memory, and time by the number of functions.
    pub fn has_function(&self, name: &str) -> bool
        ensures { result ≡ is_among name.now (definition_names (definitions_of self.now)) }
    {
        function_named(name, &self.functions).is_some()
    }

    /// Whether the pattern of a text was added. Takes no memory, and time by the number of patterns.
    pub fn has_pattern(&self, text: &str) -> bool
        ensures { result ≡ is_among text.now (patterns_of self.now) }
    {
        for pattern in &self.patterns {
            if pattern.text.as_str() == text {
                return true;
            }
        }
        false
    }
}
