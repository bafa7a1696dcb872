//! `Reader`: the expressions of a process, as closures.

use anyhow::Result;
use nf_ast::{ClosureBody, ClosureExpr, Expr, Section, Stmt, Task};
use nf_eval::{Closure, Env, Library};
use nf_tasks::{Input, TaskScript, seen_names};
use nf_value::{Pairs, Place, Txt, Value};
use std::alloc::Global;
use std::sync::Arc;

/// Reads the parts of a process whose expressions see these names.
#[derive(Drop)]
pub(crate) struct Reader {
    pub(crate) alloc: Global,
    /// The place of the process.
    place: Place,
    names: Vec<Txt>,
    /// What the environments of its expressions share: no functions and no patterns.
    library: Arc<Library>,
}

impl Reader {
    /// A reader of a process at this place with these inputs.
    pub(crate) fn new(alloc: Global, place: Place, inputs: &[Input]) -> Result<Reader> {
        let names = seen_names(alloc, inputs)?;
        Ok(Reader {
            alloc,
            place,
            names,
            library: Arc::new(alloc, Library::new(alloc))?,
        })
    }

    /// An expression of the process.
    pub(crate) fn formula(&self, place: Place, expr: &Expr) -> Result<Closure> {
        let mut body = Vec::new(self.alloc);
        body.push(Stmt::Expr(expr.copy(self.alloc)?))?;
        self.closure(place, body)
    }

    /// The script of the process. A string that stands alone has the place 1:1.
    pub(crate) fn script(&self, task: &Task) -> Result<TaskScript> {
        match task {
            Task::Script(section) => self.statements(section),
            Task::Text(expr) => self.text_alone(expr),
        }
    }

    fn statements(&self, section: &Section) -> Result<TaskScript> {
        let place = section.place;
        let mut body = Vec::new(self.alloc);
        for statement in &section.body {
            body.push(statement.copy(self.alloc)?)?;
        }
        let body = self.closure(place, body)?;
        Ok(TaskScript { place, body })
    }

    fn text_alone(&self, expr: &Expr) -> Result<TaskScript> {
        let place = Place { line: 1, col: 1 };
        let body = self.formula(place, expr)?;
        Ok(TaskScript { place, body })
    }

    fn closure(&self, place: Place, body: Vec<Stmt>) -> Result<Closure> {
        let params = self.params()?;
        let env = env(self.alloc, self.library.clone()?)?;
        Ok(Closure::new(code(place, params, body), env))
    }

    fn params(&self) -> Result<Vec<(Place, Txt)>> {
        let mut params = Vec::new(self.alloc);
        for name in &self.names {
            params.push((self.place, name.copy()?))?;
        }
        Ok(params)
    }
}

fn code(place: Place, params: Vec<(Place, Txt)>, body: Vec<Stmt>) -> ClosureExpr {
    ClosureExpr {
        place,
        params: Some(params),
        body: ClosureBody::Statements(body),
    }
}

/// What the expressions capture: `params.outdir` is `results`, and the folder of the script is `.`.
fn env(alloc: Global, library: Arc<Library>) -> Result<Env> {
    let mut env = Env::new(alloc, library);
    define(&mut env, text(alloc, "params")?, params(alloc)?)?;
    define(&mut env, text(alloc, "projectDir")?, folder(alloc)?)?;
    env.for_process();
    Ok(env)
}

fn define(env: &mut Env, name: Txt, value: Value) -> Result<()> {
    env.define(name, value)?;
    Ok(())
}

fn params(alloc: Global) -> Result<Value> {
    let mut params = Vec::new(alloc);
    params.push((text(alloc, "outdir")?, Value::Text(text(alloc, "results")?)))?;
    Ok(Value::Map(Pairs::of(params)))
}

fn folder(alloc: Global) -> Result<Value> {
    Ok(Value::Text(text(alloc, ".")?))
}

fn text(alloc: Global, text: &str) -> Result<Txt> {
    Ok(Txt::of(String::from_str(alloc, text)?))
}
