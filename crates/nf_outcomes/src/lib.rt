//! The laws that every text comes to exactly one outcome: it breaks a rule of the tokens, it spells a script, or it goes wrong at a place.
#![tactic(auto)]

pub mod laws;
