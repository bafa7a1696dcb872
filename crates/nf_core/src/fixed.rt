//! `Fixed`: what is fixed from a run's opening on.

use std::marker::Brand;

/// What is fixed from a run's opening on (own): its graph and rules, whether it resumes an earlier run, and what its keeper and lanes told
/// then. A type stands for it, so that every holding of a lock speaks of the same opening. It has no method: only contracts speak of it.
pub trait Fixed {
    ghost use Rattle.nf_core.specs.Opening.{Opening};

    /// The opening.
    ghost facts: { Opening };
}

impl Fixed for Brand {
    ghost use Rattle.nf_core.specs.Opening.{blank};

    ghost facts = { blank };
}
