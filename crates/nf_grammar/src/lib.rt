//! Grammars as data: what tokens spell by them, where a reading stands, and where one passes a limit.
#![tactic(auto)]
