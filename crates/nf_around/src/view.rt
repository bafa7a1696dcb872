//! `View`: what an expression of a body sees.

ghost use Rattle.std.specs.Prelude.{◌≡◌, IfOk, OnOk};
ghost use Rattle.nf_value.specs.View.{plain_of};
ghost use Rattle.nf_ast.specs.View.{view_closure};
ghost use Rattle.nf_placed.specs.Scope.{value_in};
ghost use Rattle.nf_relevant.specs.Reads.{AreAlike};
ghost use Rattle.nf_eval.specs.Memory.{closing, env_of};
ghost use Rattle.nf_graph.specs.Meaning.{Bags};
ghost use Rattle.nf_bodies.specs.Means.{GivesAs};
ghost use Rattle.nf_meaning.specs.Closures.{env_for};
ghost use Rattle.nf_meaning.specs.Stands.{ThingStands};
ghost use Rattle.nf_meaning.specs.Things as meaning;
ghost use Rattle.nf_meaning.specs.Walk as walk;
ghost use Rattle.nf_scopes.specs.Things.{thing_of};
ghost use Rattle.nf_tasks.specs.Memory.{Program};
ghost use Rattle.nf_known.specs.Reading.{reading_of};
ghost use Rattle.nf_around.specs.Kept.{KeepsAlso};
ghost use Rattle.nf_around.specs.Values.{is_hidden_by, or_null, seen_as};

use crate::everywhere::Everywhere;
use nf_ast::ClosureExpr;
use nf_eval::{Closure, Env};
use nf_known::{Reading, holds_file};
use nf_relevant::laws::closures_by_their_names;
use nf_relevant::names_in_closure;
use nf_scopes::{BodyNames, Thing};
use nf_value::{Mem, Txt, Value};
use std::alloc::Global;

/// What an expression of a body sees, by how its names are read.
#[derive(Drop, Clone, Copy)]
pub(crate) struct View<'a> {
    /// What is seen in every body.
    pub(crate) everywhere: &'a Everywhere,
    /// The names of the body.
    pub(crate) names: &'a BodyNames,
    /// How they are read.
    pub(crate) reading: Reading,
}

impl View<'_> {
    ghost use Rattle.nf_around.specs.Around.{Sees};

    /// The value of a name; `None` where it has none, or one that isn't seen here. Takes no memory.
    fn value(&self, name: &str) -> Option<&Value>
        ensures { (n : Program) (a : walk.Around) (s : walk.Scope) → Sees self.now n a s
            → value_in name.now (env_for (reading_of self.now.reading) a s).captured ≡ or_null result }
    {
        match self.names.thing(name) {
            Some(thing) => value_seen(self.reading, thing),
            None => self.everywhere.value(name),
        }
    }

    /// A copy of the value of a name, or null.
    fn copied(&self, name: &str) -> Result<Value, Mem>
        ensures { IfOk result (λ v. (n : Program) (a : walk.Around) (s : walk.Scope) → Sees self.now n a s
            → value_in name.now (env_for (reading_of self.now.reading) a s).captured ≡ plain_of v) }
    {
        match self.value(name) {
            Some(value) => value.copy(),
            None => Ok(Value::Null),
        }
    }

    /// An environment in which these names have the values that they have here. It holds no other name.
    pub(crate) fn env(&self, alloc: Global, names: &[Txt]) -> Result<Env, Mem>
        ensures { IfOk result (λ e. (n : Program) (a : walk.Around) (s : walk.Scope) → Sees self.now n a s
            → AreAlike names.now (env_of e n.titles n.answer) (env_for (reading_of self.now.reading) a s)) }
    {
        let mut env = Env::new(alloc, self.everywhere.library.clone()?);
        for name in names {
            self.bind(name, &mut env)?;
        }
        Ok(env)
    }

    /// Gives a name its value in an environment that hasn't the name.
    fn bind(&self, name: &Txt, env: &mut Env) -> Result<(), Mem>
        ensures { OnOk result ((n : Program) (a : walk.Around) (s : walk.Scope) → Sees self.now n a s
            → KeepsAlso name.now (env_of env.old n.titles n.answer) (env_of env.new n.titles n.answer)
            (env_for (reading_of self.now.reading) a s)) }
    {
        if env.has_name(name.as_str()) {
            return Ok(());
        }
        let value = self.copied(name.as_str())?;
        env.define(name.copy()?, value)?;
        Ok(())
    }

    /// The closure of this code, made here. It keeps the names that stand in it alone.
    pub(crate) fn closure(&self, alloc: Global, code: &ClosureExpr) -> Result<Closure, Mem>
        ensures { IfOk result (λ c. (n : Program) (a : walk.Around) (s : walk.Scope) → Sees self.now n a s
            → GivesAs n c (closing (view_closure code.now) (env_for (reading_of self.now.reading) a s))) }
    {
        closures_by_their_names();
        let names = names_in_closure(alloc, code)?;
        let env = self.env(alloc, &names)?;
        Ok(Closure::new(code.copy(alloc)?, env))
    }
}

/// The value of what a name stands for, as expressions see it: a channel has none, and a file has none before the run.
fn value_seen(reading: Reading, thing: &Thing) -> Option<&Value>
    ensures { (bags : Bags) (t : meaning.Thing) → ThingStands bags (thing_of thing.now) t
        → or_null result ≡ seen_as (reading_of reading) t }
{
    match thing {
        Thing::Known(value) => known_seen(reading, value),
        Thing::Channel(_) | Thing::Outputs(_) => None,
    }
}

/// A value that is known, unless it is hidden.
fn known_seen(reading: Reading, value: &Value) -> Option<&Value>
    ensures { or_null result ≡ seen_as (reading_of reading) (meaning.a_value (plain_of value.now)) }
{
    if is_hidden(reading, value) {
        None
    } else {
        Some(value)
    }
}

/// Whether a value is none here: a file, or what holds one, before the run.
fn is_hidden(reading: Reading, value: &Value) -> bool
    ensures { result ≡ is_hidden_by (reading_of reading) (plain_of value.now) }
{
    match reading {
        Reading::BeforeRun => holds_file(value),
        Reading::InRun | Reading::Unread => false,
    }
}
