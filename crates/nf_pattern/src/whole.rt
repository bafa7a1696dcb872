//! Regular expressions that match whole texts, built by the crate `regex`.

ghost use Rattle.std.specs.Prelude.{◌≡◌, ℕ, List, Some, IfOk, IfErr, OnOk};
ghost use Rattle.regex.specs.Patterns.{default_config};
ghost use Rattle.regex.specs.Sources.{IsRefusal};
ghost use Rattle.regex.specs.Failures.{IsRightKind};
ghost use Rattle.nf_pattern.specs.Wrapped.{wrapped};
ghost use Rattle.nf_pattern.specs.Whole.{IsPattern, IsFaultOf, found_in};

use crate::fault::PatternFault;
use nf_value::Mem;
use regex::{Error, Regex};
use std::alloc::Global;
use std::marker::Model;

/// A built regular expression that matches whole texts (own; the Nextflow reference documentation gives one to an
/// operator under "Operators", "filter"). Contracts see it as the text that it was built from.
///
/// Its syntax is that of the crate `regex`, which has no look-around and no back-references.
pub struct WholeRe {
    text: String,
    regex: Regex,
}

impl Drop for WholeRe {
    fn drop(self) {
        let WholeRe { text: _, regex: _ } = self;
    }
}

impl Model for WholeRe {
    ghost use Rattle.std.specs.Prelude.{◌≡◌, List, ℕ, string_bytes};
    ghost use Rattle.regex.specs.Patterns.{default_config};
    ghost use Rattle.regex.specs.Strings.{regex_source, regex_config, IsReadFromSource};
    ghost use Rattle.nf_pattern.specs.Wrapped.{wrapped};

    ghost Value = { List ℕ };

    ghost view = { λ w. string_bytes w.text };

    ghost invariant = { λ w. (regex_source w.regex ≡ wrapped (string_bytes w.text)) × (regex_config w.regex ≡ default_config) × IsReadFromSource w.regex };
}

impl WholeRe {
    /// Builds the regular expression `\A(?:re)\z`, which matches where `re` matches a whole text (own).
    ///
    /// # Errors
    ///
    /// `NoPattern` only where the grammar of `regex` reads no regular expression in that text, or one that nests more than
    /// 250 levels. `TooLarge` only where it reads one within that limit, which the crate then refused for its size. `Mem`
    /// for want of memory.
    pub fn new(alloc: Global, re: &str) -> Result<WholeRe, PatternFault>
        ensures built { IfOk result (λ whole. whole ≡ re.now) }
        ensures pattern { OnOk result (IsPattern (wrapped re.now)) }
        ensures fault { IfErr result (IsFaultOf (wrapped re.now)) }
    {
        let Ok(text) = String::from_str(alloc, re) else {
            return Err(PatternFault::Mem);
        };
        let Ok(source) = format!(in alloc; "\\A(?:{re})\\z") else {
            return Err(PatternFault::Mem);
        };
        match Regex::new(alloc, source.as_str()) {
            Ok(regex) => Ok(WholeRe { text, regex }),
            Err(error) => Err(fault_of(&error)),
        }
    }

    /// Whether the regular expression `\A(?:re)\z` is found in a text (own). Its time grows at most as the length of the text
    /// times the size of the regular expression.
    ///
    /// # Errors
    ///
    /// `Mem` for want of memory, which each search needs for itself.
    pub fn matches_whole(&self, alloc: Global, text: &str) -> Result<bool, Mem>
        ensures { IfOk result (λ found. found_in (wrapped self.now) text.now ≡ Some found) }
    {
        let mut matcher = self.regex.matcher(alloc)?;
        Ok(matcher.is_match(text))
    }
}

/// The fault for an error of `regex`.
fn fault_of(error: &Error) -> PatternFault
    ensures { (source : List ℕ) → IsRefusal default_config source error.now → IsRightKind default_config source error.now → IsFaultOf source result }
{
    match error {
        Error::Syntax(_) => PatternFault::NoPattern,
        Error::OutOfMemory => PatternFault::Mem,
        Error::CompiledTooBig => PatternFault::TooLarge,
        Error::Internal => PatternFault::TooLarge,
    }
}
