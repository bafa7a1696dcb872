//! A use of the environment.

use nf_value::{Place, Txt};

/// What kind of use it is.
#[derive(Debug, Clone, Copy, PartialEq, Eq)]
pub enum UseKind {
    /// A name that is read.
    Name,
    /// A name that gets another value.
    Assigned,
    /// A name that is defined a second time: in one list of parameters, or by `def` between the same braces.
    Again,
    /// The name of a function that is called.
    Function,
    /// The text of a pattern, or of a plain string that is matched against.
    Pattern,
}

/// A use of the environment by an expression.
#[derive(Drop)]
pub struct Use {
    /// The kind of use.
    pub kind: UseKind,
    /// The place of the name's first letter (that of the second one, where a name is defined a second time), of the pattern's `~` or of the
    /// string's opening mark.
    pub place: Place,
    /// The name, or the text of the pattern.
    pub text: Txt,
}
