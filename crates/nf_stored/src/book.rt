//! `RuleBook`: what closures are to answer.

/// What a value says of the answers of rules (own). It has no method: only contracts speak of it.
pub trait RuleBook {
    ghost use Rattle.nf_graph.specs.Rules as graph;

    /// The answers as functions.
    ghost told: { Self → graph.Rules };

    /// Where an attempt has no job, each report of it is refused by the same fault; and the last attempt isn't tried again.
    ghost proper: { (book : Self) → graph.IsRules (told book) };
}
