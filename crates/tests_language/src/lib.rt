//! Tests of tokens, trees, formatting and patterns that no row of `cases_read`, `cases_fmt` or `cases_eval` shows: the deepest texts, and
//! bytes that are no text.
#![tactic(auto)]

#[cfg(test)]
mod exprs;
#[cfg(test)]
mod lexer;
#[cfg(test)]
mod makers;
#[cfg(test)]
mod parser;
#[cfg(test)]
mod pattern;
#[cfg(test)]
mod roundtrip;
