//! Definitions and lemmas alone: every tree that the tokens of some text spell can be printed and read back.
#![tactic(auto)]
