//! `Taken`: what an operator took from its arguments.

ghost use Rattle.std.specs.Prelude.{◌≡◌, IfOk};
ghost use Rattle.nf_graph.specs.Meaning.{Bags};
ghost use Rattle.nf_value.specs.View.{plain_of};
ghost use Rattle.nf_meaning.specs.Stands.{StandsFor};
ghost use Rattle.nf_meaning.specs.Taken as meaning;
ghost use Rattle.nf_meaning.specs.Things.{Channel};
ghost use Rattle.nf_tasks.specs.Memory.{Program};
ghost use Rattle.nf_taken.specs.Taken.{with_channel, with_literal, with_start};

use nf_bag::OpOpts;
use nf_eval::Closure;
use nf_graph::Port;
use nf_opargs::no_options;
use nf_pattern::WholeRe;
use nf_value::{Mem, Txt, Value};
use std::alloc::Global;

/// The closure that an operator took.
#[derive(Drop)]
pub enum Closing {
    /// None.
    Nothing,
    /// One that is applied to each item.
    Whole(Closure),
    /// One of labels, as a closure for each label.
    ByLabels(Vec<Closure>),
}

/// What an operator took from its arguments so far (Nextflow reference documentation, "Operators"). Contracts see by
/// `IsTaken` what it is in the meaning of scripts.
#[derive(Drop)]
pub struct Taken {
    /// The channels after the one that it is called on.
    pub ports: Vec<Port>,
    /// The value of `filter`.
    pub literal: Option<Value>,
    /// The pattern of `filter`.
    pub pattern: Option<WholeRe>,
    /// The value of `ifEmpty`, or the first of `reduce`.
    pub start: Option<Value>,
    /// Its closure.
    pub closing: Closing,
    /// The labels of `branch` and `multiMap`.
    pub labels: Vec<Txt>,
    /// The name of `set`.
    pub word: Txt,
    /// Its options; the number of labels isn't kept here.
    pub opts: OpOpts,
}

impl Taken {
    ghost use Rattle.nf_taken.specs.Taken.{FitsClosing, IsTaken, Keeps};
    ghost use Rattle.nf_bag.specs.declared.rows.Row.{Row};
    ghost use Rattle.std.specs.Prelude.{◌++◌, ◌∷◌, []};

    /// Nothing yet. Takes no memory.
    pub fn nothing(alloc: Global) -> Taken
        ensures taken { (n : Program) (bags : Bags) → IsTaken n bags result meaning.nothing_taken }
        ensures ports { result.ports.items ≡ [] }
        ensures closing { (r : Row) → FitsClosing r result.closing }
    {
        Taken {
            ports: Vec::new(alloc),
            literal: None,
            pattern: None,
            start: None,
            closing: Closing::Nothing,
            labels: Vec::new(alloc),
            word: Txt::of(String::new(alloc)),
            opts: no_options(),
        }
    }

    /// With a channel more.
    ///
    /// # Errors
    ///
    /// `Mem` for want of memory.
    pub fn and_port(self, port: Port) -> Result<Taken, Mem>
        ensures taken { IfOk result (λ x. (n : Program) (bags : Bags) (t : meaning.Taken) (c : Channel)
            → IsTaken n bags self t → StandsFor bags port c → IsTaken n bags x (with_channel c t)) }
        ensures ports { IfOk result (λ x. x.ports.items ≡ self.ports.items ++ port ∷ []) }
        ensures closing { IfOk result (λ x. x.closing ≡ self.closing) }
    {
        let mut taken = self;
        taken.ports.push(port)?;
        Ok(taken)
    }

    /// With a value of `ifEmpty`, or a first one of `reduce`. Takes no memory.
    pub fn and_start(self, value: Value) -> Taken
        ensures taken { (n : Program) (bags : Bags) (t : meaning.Taken) → IsTaken n bags self t
            → IsTaken n bags result (with_start (plain_of value) t) }
        ensures keeps { (r : Row) → Keeps r self result }
    {
        let mut taken = self;
        taken.start = Some(value);
        taken
    }

    /// With a value of `filter`. Takes no memory.
    pub fn and_literal(self, value: Value) -> Taken
        ensures taken { (n : Program) (bags : Bags) (t : meaning.Taken) → IsTaken n bags self t
            → IsTaken n bags result (with_literal (plain_of value) t) }
        ensures keeps { (r : Row) → Keeps r self result }
    {
        let mut taken = self;
        taken.literal = Some(value);
        taken
    }
}
