//! The parts of an input.

ghost use Rattle.std.specs.Prelude.{◌≡◌};

use nf_value::Txt;
use std::marker::Model;

/// A part of an input (Nextflow reference documentation, "Process", "Inputs").
pub enum InputPart {
    /// `val NAME`: any value.
    Val(Txt),
    /// `path NAME`: a file, or a list of files alone. They are put into the task's folder.
    Path(Txt),
    /// `stdin`: any value, whose text is the standard input.
    Stdin,
}

impl Drop for InputPart {
    fn drop(self) {
        match self {
            InputPart::Val(_) | InputPart::Path(_) | InputPart::Stdin => {}
        }
    }
}

/// The parts of a `tuple`. Contracts see their list.
pub struct InputParts {
    items: Vec<InputPart>,
}

impl Drop for InputParts {
    fn drop(self) {
        let InputParts { items: _ } = self;
    }
}

impl Model for InputParts {
    ghost use Rattle.std.specs.Prelude.{List};
    ghost use Rattle.nf_tasks.specs.declared.input_parts.InputPart.{InputPart};

    ghost Value = { List InputPart };

    ghost view = { λ p. p.items.items };
}

impl InputParts {
    /// The list of a vector. Takes no memory.
    pub fn of(items: Vec<InputPart>) -> InputParts
        ensures { result ≡ items.items }
    {
        InputParts { items }
    }

    /// The parts in order. Takes no memory.
    pub fn items(&self) -> &[InputPart]
        ensures { result.now ≡ self.now }
    {
        self.items.as_slice()
    }
}
