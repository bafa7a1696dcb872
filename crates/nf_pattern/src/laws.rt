//! Laws of globs, each as a contract over the definitions alone.

ghost use Rattle.std.specs.Prelude.{◌≡◌, ◌↔◌, ℕ, List, true};
ghost use Rattle.nf_pattern.specs.Glob.{is_match};
ghost use Rattle.nf_pattern.specs.Literal.{is_literal_component};

/// A literal component, as a pattern, matches the name that it is, and no other.
#[tactic(auto, using(crate::proofs::Selves::matches_itself))]
pub fn literal_matches_itself()
    ensures { (pattern : List ℕ) → (name : List ℕ) → is_literal_component pattern ≡ true → ((is_match pattern name ≡ true) ↔ (pattern ≡ name)) }
{}
