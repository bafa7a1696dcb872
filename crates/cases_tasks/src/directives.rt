//! Reads the directives of a process.

use crate::reader::Reader;
use anyhow::{Result, bail};
use nf_ast::{Arg, Directive, Expr, Process};
use nf_eval::Closure;
use nf_tasks::{ErrorStrategy, ProcessSpec, Publish};
use nf_value::Place;

impl Reader {
    /// Reads the directives of the process.
    pub(crate) fn read_directives(&self, spec: &mut ProcessSpec, process: &Process) -> Result<()> {
        for directive in &process.directives {
            match directive.args.split_first() {
                Some((first, options)) => self.direct(spec, directive, &first.value, options)?,
                None => bail!("no argument"),
            }
        }
        Ok(())
    }

    fn direct(
        &self,
        spec: &mut ProcessSpec,
        directive: &Directive,
        value: &Expr,
        options: &[Arg],
    ) -> Result<()> {
        match directive.name.as_str() {
            "cpus" => self.set_cpus(spec, directive.place, value),
            "tag" => self.set_tag(spec, directive.place, value),
            "errorStrategy" => set_strategy(spec, value),
            "maxRetries" => set_retries(spec, value),
            "publishDir" => self.add_publish(spec, directive.place, value, options),
            _ => bail!("no such directive"),
        }
    }

    fn set_cpus(&self, spec: &mut ProcessSpec, place: Place, value: &Expr) -> Result<()> {
        spec.cpus = Some(self.formula(place, value)?);
        Ok(())
    }

    fn set_tag(&self, spec: &mut ProcessSpec, place: Place, value: &Expr) -> Result<()> {
        spec.tag = Some(self.formula(place, value)?);
        Ok(())
    }

    fn add_publish(
        &self,
        spec: &mut ProcessSpec,
        place: Place,
        folder: &Expr,
        options: &[Arg],
    ) -> Result<()> {
        let folder = self.formula(place, folder)?;
        let pattern = self.pattern(place, options)?;
        spec.publishes.push(Publish {
            place,
            folder,
            pattern,
        })?;
        Ok(())
    }

    /// The option `pattern`, if it stands first; no row has another option before it.
    fn pattern(&self, place: Place, options: &[Arg]) -> Result<Option<Closure>> {
        match options.first() {
            Some(option) if is_pattern(option) => Ok(Some(self.formula(place, &option.value)?)),
            _ => Ok(None),
        }
    }
}

fn is_pattern(option: &Arg) -> bool {
    match &option.name {
        Some((_, name)) => name.as_str() == "pattern",
        None => false,
    }
}

fn set_strategy(spec: &mut ProcessSpec, value: &Expr) -> Result<()> {
    let Expr::Text(_, _, text) = value else {
        bail!("no strategy");
    };
    spec.strategy = strategy(text.as_str())?;
    Ok(())
}

fn strategy(name: &str) -> Result<ErrorStrategy> {
    match name {
        "terminate" => Ok(ErrorStrategy::Terminate),
        "ignore" => Ok(ErrorStrategy::Ignore),
        "retry" => Ok(ErrorStrategy::Retry(1)),
        _ => bail!("no strategy"),
    }
}

/// `maxRetries`, which stands after `errorStrategy` here. It has an effect with `retry` alone.
fn set_retries(spec: &mut ProcessSpec, value: &Expr) -> Result<()> {
    let most = number(value)?;
    if let ErrorStrategy::Retry(_) = spec.strategy {
        spec.strategy = ErrorStrategy::Retry(most);
    }
    Ok(())
}

fn number(expr: &Expr) -> Result<u32> {
    let Expr::Number(_, number) = expr else {
        bail!("no number");
    };
    match u32::try_from(*number) {
        Ok(number) => Ok(number),
        Err(_) => bail!("no number of 32 bits"),
    }
}
