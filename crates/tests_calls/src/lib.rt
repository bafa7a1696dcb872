//! Tests of tables, methods, functions of the program and environments that no row of `cases_eval` shows.
#![tactic(auto)]

#[cfg(test)]
mod environments;
#[cfg(test)]
mod methods;
#[cfg(test)]
mod natives;
#[cfg(test)]
mod table;
