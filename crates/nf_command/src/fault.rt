//! What is wrong with a command line.

ghost use Rattle.std.specs.Prelude.{◌≡◌, Some};
ghost use Rattle.nf_command.specs.Usage.{usage_text};
ghost use Rattle.nf_command.specs.declared.fault.UsageFault.TheVariants.{Mem as NoMemory};

use nf_value::Mem;
use std::fmt;

/// What is wrong with a command line (own). Words are counted from 0, without the program's name. Printed as its name, with
/// ` at word N` after it if it is about a word.
#[derive(Debug, Clone, Copy, PartialEq, Eq)]
pub enum UsageFault {
    /// There are no words.
    NoCommand,
    /// The word isn't allowed there.
    UnknownWord { at: usize },
    /// A value, FILE, N or START is missing; `at` is the count of words.
    NoValue { at: usize },
    /// The word must be a decimal number within limits.
    BadNumber { at: usize },
    /// The option or the parameter was given before.
    Twice { at: usize },
    /// Out of memory.
    Mem,
}

impl fmt::Display for UsageFault {
    ghost output = { λ f. Some (usage_text f) };

    fn fmt<W: fmt::Write>(&self, f: &mut fmt::Formatter<W>) -> fmt::Result {
        match self {
            UsageFault::NoCommand => write!(f, "NoCommand"),
            UsageFault::UnknownWord { at } => write!(f, "UnknownWord at word {at}"),
            UsageFault::NoValue { at } => write!(f, "NoValue at word {at}"),
            UsageFault::BadNumber { at } => write!(f, "BadNumber at word {at}"),
            UsageFault::Twice { at } => write!(f, "Twice at word {at}"),
            UsageFault::Mem => write!(f, "Mem"),
        }
    }
}

impl From<Mem> for UsageFault {
    ghost from_gives = { λ _ e. e ≡ NoMemory };

    fn from(_error: Mem) -> UsageFault {
        UsageFault::Mem
    }
}
