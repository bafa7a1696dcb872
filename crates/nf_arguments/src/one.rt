//! `One`: one argument.

ghost use Rattle.std.specs.Prelude.{◌≡◌, option_map};
ghost use Rattle.nf_graph.specs.Meaning.{Bags};
ghost use Rattle.nf_meaning.specs.Arguments as meaning;

use crate::args::Before;
use crate::written::Written;
use nf_value::{Place, Txt};

/// One argument.
#[derive(Drop)]
pub enum One<'e> {
    /// What stands before a pipe.
    Before(Before),
    /// One that is written.
    Written(Written<'e>),
}

impl<'e> One<'e> {
    ghost use Rattle.nf_meaning.specs.Places.{begins_at as place_of};
    ghost use Rattle.nf_arguments.specs.Args.{IsOne};
    ghost use Rattle.nf_arguments.specs.Written.{plain_label};

    /// Its name with the name's place, if it has one. Takes no memory.
    pub fn label(&self) -> Option<(Place, &'e Txt)>
        ensures { (bags : Bags) (y : meaning.Arg) → IsOne bags self.now y → option_map plain_label result ≡ y.label }
    {
        match self {
            One::Before(_) => None,
            One::Written(written) => written.label(),
        }
    }

    /// Where its expression begins. Takes no memory.
    pub fn place(&self) -> Place
        ensures { (bags : Bags) (y : meaning.Arg) → IsOne bags self.now y → result ≡ place_of y.tree }
    {
        match self {
            One::Before(before) => before.place,
            One::Written(written) => written.place(),
        }
    }
}
