//! Tests of the check of the order rules, and of what stands below it: each public function once.
#![tactic(auto)]

#[cfg(test)]
mod calls;
#[cfg(test)]
mod kinds;
#[cfg(test)]
mod makers;
#[cfg(test)]
mod scopes;
#[cfg(test)]
mod scripts;
