//! What the names of a workflow's body stand for.

ghost use Rattle.std.specs.Prelude.{◌≡◌, map, ◌-◌, ◌++◌, length, option_copied, IfOk, OnOk};
ghost use Rattle.nf_kinds.specs.Kinds.{alone};
ghost use Rattle.nf_kinds.specs.Scope as spec;

use crate::bindings::Bindings;
use crate::half_bound::HalfBound;
use crate::kinds::{Kinds, Shape};
use nf_value::{Mem, Place, Txt};
use std::alloc::Global;
use std::marker::Model;

/// The scope of a workflow's body. Contracts see a `Scope`.
pub struct BodyScope {
    locals: Bindings,
    names: Bindings,
    half_bound: HalfBound,
    calls: Bindings,
}

impl Drop for BodyScope {
    fn drop(self) {
        let BodyScope {
            locals: _,
            names: _,
            half_bound: _,
            calls: _,
        } = self;
    }
}

impl Model for BodyScope {
    ghost use Rattle.nf_kinds.specs.Scope.{Scope};

    ghost Value = { Scope };

    ghost view = { λ s. record {
      locals = s.locals;
      names = s.names;
      half_bound = s.half_bound;
      calls = s.calls;
    } };
}

impl BodyScope {
    /// The start of a body, with the names that it takes.
    pub fn started(alloc: Global, names: Vec<(Txt, Shape)>) -> Result<BodyScope, Mem>
        ensures { IfOk result (λ s. s ≡ spec.started names.items) }
    {
        Ok(BodyScope {
            locals: Bindings::new(alloc),
            names: Bindings::of(alloc, names)?,
            half_bound: HalfBound::new(alloc),
            calls: Bindings::new(alloc),
        })
    }

    /// What a name stands for that is bound in the body.
    pub fn bound(&self, name: &str) -> Option<&Shape>
        ensures { option_copied result ≡ spec.bound_in name.now self.now }
    {
        if let Some(shape) = self.locals.find(name) {
            return Some(shape);
        }
        self.names.find(name)
    }

    /// Whether one arm of an `if` alone bound a name, so that it may also be what nothing binds.
    pub fn is_half_bound(&self, name: &str) -> bool
        ensures { result ≡ spec.is_half_bound name.now self.now }
    {
        !self.locals.has(name) && self.half_bound.has(name)
    }

    /// What a name stands for.
    pub fn read(&self, alloc: Global, name: &str) -> Result<Shape, Mem>
        ensures { IfOk result (λ s. s ≡ spec.read_name name.now self.now) }
    {
        match self.bound(name) {
            Some(shape) if self.is_half_bound(name) => {
                shape.merged(alloc, &Shape::alone(given_kinds(name)))
            }
            Some(shape) => shape.copy(alloc),
            None => Ok(Shape::alone(given_kinds(name))),
        }
    }

    /// Whether a name is unknown.
    pub fn is_unknown(&self, name: &str) -> bool
        ensures { result ≡ (spec.read_name name.now self.now).kinds.unknown }
    {
        match self.bound(name) {
            Some(shape) if self.is_half_bound(name) => {
                shape.kinds().either(given_kinds(name)).unknown
            }
            Some(shape) => shape.kinds().unknown,
            None => given_kinds(name).unknown,
        }
    }

    /// The outputs of a call that was made.
    pub fn call(&self, name: &str) -> Option<&Shape>
        ensures { option_copied result ≡ spec.shape_in name.now self.now.calls }
    {
        self.calls.find(name)
    }

    /// Defines a name for the rest of its braces.
    pub fn define(&mut self, name: &Txt, shape: Shape) -> Result<(), Mem>
        ensures { OnOk result (self.new ≡ spec.defined name.now shape self.old) }
    {
        self.locals.push(name.copy()?, shape)
    }

    /// Defines several names, which stand for things of one kind.
    pub fn define_all(&mut self, names: &[(Place, Txt)], kinds: Kinds) -> Result<(), Mem>
        ensures { OnOk result (self.new ≡ spec.all_defined (map (λ n. n.1) names.now) (alone kinds) self.old) }
    {
        for (_, name) in names {
            self.define(name, Shape::alone(kinds))?;
        }
        Ok(())
    }

    /// Gives a name a new meaning: a local one where there is one, and else one of the workflow's scope.
    pub fn assign(&mut self, _alloc: Global, name: &Txt, shape: Shape) -> Result<(), Mem>
        ensures { OnOk result (self.new ≡ spec.assigned name.now shape self.old) }
    {
        if self.locals.has(name.as_str()) {
            self.locals.rebind(name.as_str(), shape);
            return Ok(());
        }
        self.names.push(name.copy()?, shape)?;
        self.half_bound.remove(name.as_str());
        Ok(())
    }

    /// Adds the outputs of a call.
    pub fn add_call(&mut self, name: &Txt, shape: Shape) -> Result<(), Mem>
        ensures { OnOk result (self.new ≡ spec.call_made name.now shape self.old) }
    {
        self.calls.push(name.copy()?, shape)
    }

    /// How many local names there are.
    pub fn local_count(&self) -> usize
        ensures { result ≡ length self.now.locals }
    {
        self.locals.len()
    }

    /// Ends braces before which there were so many local names.
    pub fn leave(&mut self, alloc: Global, count: usize) -> Result<(), Mem>
        ensures { OnOk result (self.new ≡ spec.without_latest (length self.old.locals - count) self.old) }
    {
        self.locals = self.locals.oldest(alloc, count)?;
        Ok(())
    }

    /// The same scope.
    pub fn copy(&self, alloc: Global) -> Result<BodyScope, Mem>
        ensures { IfOk result (λ s. s ≡ self.now) }
    {
        Ok(BodyScope {
            locals: self.locals.copy(alloc)?,
            names: self.names.copy(alloc)?,
            half_bound: self.half_bound.copy(alloc)?,
            calls: self.calls.copy(alloc)?,
        })
    }

    /// The scope after two arms, of which the first ended with `first`.
    pub fn merge(&mut self, alloc: Global, first: &BodyScope) -> Result<(), Mem>
        ensures { OnOk result (self.new ≡ spec.after_both first.now self.old) }
    {
        self.half_bound = half_bound_after(alloc, first, self)?;
        self.locals = Bindings::aligned(alloc, &first.locals, &self.locals)?;
        self.names = Bindings::merged(alloc, &first.names, &self.names)?;
        self.calls = Bindings::merged(alloc, &first.calls, &self.calls)?;
        Ok(())
    }
}

/// The names that one arm alone bound, where the arms ended so.
fn half_bound_after(alloc: Global, first: &BodyScope, second: &BodyScope) -> Result<HalfBound, Mem>
    ensures { IfOk result (λ h. h ≡ (spec.after_both first.now second.now).half_bound) }
{
    let mut out = first.half_bound.list(alloc)?;
    add_others(&second.half_bound.list(alloc)?, &first.half_bound, &mut out)?;
    add_names_only(&first.names, &second.names, &mut out)?;
    add_names_only(&second.names, &first.names, &mut out)?;
    HalfBound::of(alloc, out)
}

/// What a name is where nothing binds it: `params` and the names of folders stand for plain values, any other is
/// unknown.
pub fn given_kinds(name: &str) -> Kinds
    ensures { result ≡ spec.given_kind name.now }
{
    Kinds::plain_unless(!is_given(name))
}

/// Whether a name stands for a plain value in every workflow.
fn is_given(name: &str) -> bool
    ensures { result ≡ spec.is_given name.now }
{
    name == "params" || name == "projectDir" || name == "baseDir" || name == "launchDir"
}

/// Adds those names that others don't have.
fn add_others(names: &[Txt], others: &HalfBound, out: &mut Vec<Txt>) -> Result<(), Mem>
    ensures { OnOk result (out.new.items ≡ out.old.items ++ spec.others names.now others.now) }
{
    for name in names {
        if !others.has(name.as_str()) {
            out.push(name.copy()?)?;
        }
    }
    Ok(())
}

/// Adds the names of the first that the second hasn't.
fn add_names_only(first: &Bindings, second: &Bindings, out: &mut Vec<Txt>) -> Result<(), Mem>
    ensures { OnOk result (out.new.items ≡ out.old.items ++ spec.names_only first.now second.now) }
{
    for (name, _) in first.items().iter().rev() {
        if !second.has(name.as_str()) {
            out.push(name.copy()?)?;
        }
    }
    Ok(())
}
