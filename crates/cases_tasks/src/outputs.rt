//! Reads the outputs of a process.

use crate::reader::Reader;
use anyhow::{Result, bail};
use nf_ast::{self as ast, Expr, Label, OutputValue, Process};
use nf_tasks::{Output, OutputPart, OutputShape, ProcessSpec};
use nf_value::Place;

impl Reader {
    /// Reads the outputs of the process.
    pub(crate) fn read_outputs(&self, spec: &mut ProcessSpec, process: &Process) -> Result<()> {
        if let Some(section) = &process.outputs {
            for output in &section.outputs {
                spec.outputs.push(self.output(output)?)?;
            }
        }
        Ok(())
    }

    fn output(&self, output: &ast::Output) -> Result<Output> {
        let mut read = self.plain_output(&output.value)?;
        for option in &output.options {
            set_option(&mut read, option)?;
        }
        Ok(read)
    }

    /// An output without options.
    fn plain_output(&self, value: &OutputValue) -> Result<Output> {
        let shape = self.shape(value)?;
        Ok(Output {
            place: place_of(value),
            emit: None,
            optional: false,
            shape,
        })
    }

    fn shape(&self, value: &OutputValue) -> Result<OutputShape> {
        match value {
            OutputValue::One(part) => Ok(OutputShape::One(self.part(part)?)),
            OutputValue::Tuple(_, parts) => Ok(OutputShape::Tuple(self.parts(parts)?)),
        }
    }

    fn parts(&self, given: &[ast::OutputPart]) -> Result<Vec<OutputPart>> {
        let mut parts = Vec::new(self.alloc);
        for part in given {
            parts.push(self.part(part)?)?;
        }
        Ok(parts)
    }

    fn part(&self, part: &ast::OutputPart) -> Result<OutputPart> {
        match part {
            ast::OutputPart::Val(place, expr) => Ok(OutputPart::Val(self.formula(*place, expr)?)),
            ast::OutputPart::Path(place, expr) => Ok(OutputPart::Path(self.formula(*place, expr)?)),
            ast::OutputPart::Stdout(_) => Ok(OutputPart::Stdout),
        }
    }
}

fn place_of(value: &OutputValue) -> Place {
    match value {
        OutputValue::One(part) => part_place(part),
        OutputValue::Tuple(place, _) => *place,
    }
}

fn part_place(part: &ast::OutputPart) -> Place {
    match part {
        ast::OutputPart::Val(place, _) => *place,
        ast::OutputPart::Path(place, _) => *place,
        ast::OutputPart::Stdout(place) => *place,
    }
}

fn set_option(output: &mut Output, option: &Label) -> Result<()> {
    match option.name.as_str() {
        "emit" => set_emit(output, &option.value),
        "optional" => set_optional(output, &option.value),
        _ => bail!("no such option"),
    }
}

fn set_emit(output: &mut Output, value: &Expr) -> Result<()> {
    let Expr::Name(_, name) = value else {
        bail!("no name");
    };
    output.emit = Some(name.copy()?);
    Ok(())
}

fn set_optional(output: &mut Output, value: &Expr) -> Result<()> {
    let Expr::Truth(_, optional) = value else {
        bail!("neither true nor false");
    };
    output.optional = *optional;
    Ok(())
}
