//! Over lanes that tell one world a run that ends well means what its script means in that world.
#![tactic(auto)]

pub mod laws;
