//! The law that the names in a script that a text spells have no colon. So the path of a call, which colons join, tells
//! its names apart.
#![tactic(auto)]

pub mod laws;
