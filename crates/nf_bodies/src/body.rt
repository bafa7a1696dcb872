//! `NodeBody` and `NodeInfo`: what a node does, and what it is called.

use nf_eval::Closure;
use nf_pattern::WholeRe;
use nf_tasks::ProcessSpec;
use nf_value::{Place, Txt, Value};

/// What a node does (own).
pub enum NodeBody {
    /// A source. Nothing comes to it.
    Source,
    /// An operator without a closure: its answer to an item is the item itself.
    Item,
    /// `filter` with a value: the answer is whether the item equals it (Nextflow reference documentation, "Operators", "filter").
    Literal(Value),
    /// `filter` with a pattern: the answer is whether the item is a text that the pattern matches as a whole.
    Pattern(WholeRe),
    /// An operator with a closure: the answer is what the closure gives for the item.
    Applied(Closure),
    /// `branch`: the answer is the number of the first label that is true for the item, from 0, or null (Nextflow reference
    /// documentation, "Operators", "branch"). Each label's expression is a closure of its own.
    Branch(Vec<Closure>),
    /// `multiMap`: the answer is the list of what the labels give for the item (Nextflow reference documentation, "Operators",
    /// "multiMap"). Each label's expression is a closure of its own.
    MultiMap(Vec<Closure>),
    /// The call of a process.
    Process(ProcessSpec),
}

impl Drop for NodeBody {
    fn drop(self) {
        match self {
            NodeBody::Source
            | NodeBody::Item
            | NodeBody::Literal(_)
            | NodeBody::Pattern(_)
            | NodeBody::Applied(_)
            | NodeBody::Branch(_)
            | NodeBody::MultiMap(_)
            | NodeBody::Process(_) => {}
        }
    }
}

/// What is known of a node beside its place in the graph (own).
pub struct NodeInfo {
    /// The name of the source or operator that is called, or the path of a process's call.
    pub name: Txt,
    /// The place of that name in the script.
    pub place: Place,
    /// What the node does.
    pub body: NodeBody,
}

impl Drop for NodeInfo {
    fn drop(self) {
        let NodeInfo {
            name: _,
            place: _,
            body: _,
        } = self;
    }
}
