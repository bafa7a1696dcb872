//! Names of inputs that stand a second time.

ghost use Rattle.std.specs.Prelude.{◌≡◌, map, Ok};
ghost use Rattle.nf_ast.specs.Tops.{maybe, view_input, view_input_part, view_inputs};
ghost use Rattle.nf_ast.specs.View.{trees};
ghost use Rattle.nf_builtins.specs.Natives.{is_among};
ghost use Rattle.nf_lowered.specs.Given.{Gives};
ghost use Rattle.nf_meaning.specs.Lowered.{unless};
ghost use Rattle.nf_meaning.specs.Processes.{twice_named};
ghost use Rattle.nf_called.specs.Names.{IsAnything, NamesGo, named, names_named};

use nf_ast::{Input, InputPart, Inputs};
use nf_meaning::LowerFault;
use nf_value::{Place, Txt};
use std::alloc::Global;

/// Whether the inputs of a process have different names.
///
/// # Errors
///
/// `TwiceDefined` exactly if a name stands a second time, at the first such place. `Mem` for want of memory.
pub(crate) fn check_names(alloc: Global, inputs: &Option<Inputs>) -> Result<(), LowerFault>
    ensures { Gives IsAnything (unless (twice_named (maybe view_inputs inputs.now)) (Ok tt)) result }
{
    match inputs {
        Some(section) => all_differ(alloc, &section.inputs),
        None => Ok(()),
    }
}

fn all_differ(alloc: Global, inputs: &[Input]) -> Result<(), LowerFault>
    ensures { Gives IsAnything (unless (twice_named (trees (map view_input inputs.now))) (Ok tt)) result }
{
    let mut names = Names {
        names: Vec::new(alloc),
    };
    for input in inputs {
        names.add_all(input)?;
    }
    Ok(())
}

/// The names of inputs so far.
#[derive(Drop)]
pub(crate) struct Names {
    pub(crate) names: Vec<Txt>,
}

impl Names {
    fn add_all(&mut self, input: &Input) -> Result<(), LowerFault>
        ensures { NamesGo self.old (names_named (view_input input.now)) self.new result }
    {
        match input {
            Input::One(part) => self.add_part(part),
            Input::Tuple(_, parts) => self.add_parts(parts),
        }
    }

    fn add_parts(&mut self, parts: &[InputPart]) -> Result<(), LowerFault>
        ensures { NamesGo self.old (names_named (trees (map view_input_part parts.now))) self.new result }
    {
        for part in parts {
            self.add_part(part)?;
        }
        Ok(())
    }

    fn add_part(&mut self, part: &InputPart) -> Result<(), LowerFault>
        ensures { NamesGo self.old (names_named (view_input_part part.now)) self.new result }
    {
        match part {
            InputPart::Val(_, place, name) | InputPart::Path(_, place, name) => {
                self.add(*place, name)
            }
            InputPart::Stdin(_) => Ok(()),
        }
    }

    fn add(&mut self, place: Place, name: &Txt) -> Result<(), LowerFault>
        ensures { NamesGo self.old (named place name.now) self.new result }
    {
        if self.has(name) {
            return Err(LowerFault::TwiceDefined { place });
        }
        self.names.push(name.copy()?)?;
        Ok(())
    }

    fn has(&self, name: &Txt) -> bool
        ensures { result ≡ is_among name.now self.now.names.items }
    {
        for other in &self.names {
            if other.as_str() == name.as_str() {
                return true;
            }
        }
        false
    }
}
