//! What joins the order rules to the meaning of scripts: what is known of a body before a run fits what is so in the run.
#![tactic(auto)]

pub mod laws;
