//! `Written`: an argument as it is written.

ghost use Rattle.std.specs.Prelude.{◌≡◌, option_map};

use crate::closures::closure_in;
use nf_ast::{Arg, ClosureExpr};
use nf_lowered::begins_at;
use nf_value::{Place, Txt};

/// An argument as it is written (Nextflow reference documentation, "Syntax", "Function call").
#[derive(Drop, Clone, Copy)]
pub enum Written<'e> {
    /// One in brackets.
    Arg(&'e Arg),
    /// A closure behind them.
    Closure(&'e ClosureExpr),
}

impl<'e> Written<'e> {
    ghost use Rattle.nf_meaning.specs.Places.{begins_at as place_of};
    ghost use Rattle.nf_arguments.specs.Args.{written_arg};
    ghost use Rattle.nf_arguments.specs.Written.{IsClosureIn, plain_label};

    /// Its name with the name's place, if it has one. Takes no memory.
    pub fn label(self) -> Option<(Place, &'e Txt)>
        ensures { option_map plain_label result ≡ (written_arg self.entry).label }
    {
        match self {
            Written::Closure(_) => None,
            Written::Arg(arg) => match &arg.name {
                Some((place, name)) => Some((*place, name)),
                None => None,
            },
        }
    }

    /// Where its expression begins. Takes no memory.
    pub fn place(self) -> Place
        ensures { result ≡ place_of (written_arg self.entry).tree }
    {
        match self {
            Written::Arg(arg) => begins_at(&arg.value),
            Written::Closure(closure) => closure.place,
        }
    }

    /// The closure that it is, if it is one. Takes no memory.
    pub fn closure(self) -> Option<&'e ClosureExpr>
        ensures { IsClosureIn (written_arg self.entry).tree result }
    {
        match self {
            Written::Closure(closure) => Some(closure),
            Written::Arg(arg) => closure_in(&arg.value),
        }
    }
}
