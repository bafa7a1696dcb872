//! Definitions and lemmas alone: which tokens the canonical text of a script has.
#![tactic(auto)]
