//! Tests of hosts, sinks and lanes: what no program shows. Tables of cases stand in `cases_codes` and `cases_values`.
#![tactic(auto)]

#[cfg(test)]
mod faults;
#[cfg(test)]
mod host;
#[cfg(test)]
mod lane;
#[cfg(test)]
mod makers;
