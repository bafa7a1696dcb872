//! `PatternTexts`: the patterns of a script, by their texts.

ghost use Rattle.std.specs.Prelude.{◌≡◌};
ghost use Rattle.nf_meaning.specs.Given.{Given};
ghost use Rattle.nf_meaning.specs.Names as spec;
ghost use Rattle.nf_known.specs.Patterns.{HasPatterns};

use indexmap::IndexSet;
use nf_meaning::LowerFault;
use nf_value::Place;

/// The texts of a script's patterns that are built, and of those that are too large (own).
pub struct PatternTexts {
    /// Those that are built.
    pub built: IndexSet<String>,
    /// Those that are too large.
    pub large: IndexSet<String>,
}

impl Drop for PatternTexts {
    fn drop(self) {
        let PatternTexts { built: _, large: _ } = self;
    }
}

impl PatternTexts {
    /// What is wrong with a pattern. Takes no memory.
    pub fn fault(&self, place: Place, text: &str) -> Option<LowerFault>
        ensures { (g : Given) → HasPatterns self.now g → result ≡ spec.pattern_fault g place text.now }
    {
        if self.built.contains(text) {
            return None;
        }
        if self.large.contains(text) {
            return Some(LowerFault::PatternTooLarge { place });
        }
        Some(LowerFault::PatternRefused { place })
    }
}
