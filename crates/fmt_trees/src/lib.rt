//! Definitions and lemmas alone: the tokens of a printed script spell that script.
#![tactic(auto)]
