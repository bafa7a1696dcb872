//! Names with what they stand for, where each name is found at once.

ghost use Rattle.std.specs.Prelude.{◌≡◌, ◌-◌, ◌++◌, [], ◌∷◌, length, reverse, drop, option_copied, IfOk, OnOk, OnErr};
ghost use Rattle.nf_kinds.specs.Kinds.{merged};
ghost use Rattle.nf_kinds.specs.Scope as spec;

use crate::kinds::{Kinds, Shape};
use indexmap::IndexMap;
use nf_value::{Mem, Txt};
use std::alloc::Global;
use std::marker::Model;

/// Names with what they stand for. A name may be bound several times, and its latest is found in a time that doesn't grow
/// with the number of names. Contracts see the list of them, the latest first.
pub(crate) struct Bindings {
    alloc: Global,
    /// The latest last.
    items: Vec<(Txt, Shape)>,
    /// For each name the place of its latest.
    places: IndexMap<String, usize>,
}

impl Drop for Bindings {
    fn drop(self) {
        let Bindings {
            alloc: _,
            items: _,
            places: _,
        } = self;
    }
}

impl Model for Bindings {
    ghost use Rattle.std.specs.Prelude.{reverse};
    ghost use Rattle.nf_kinds.specs.Bindings.{GivesPlaces};
    ghost use Rattle.nf_kinds.specs.Scope as spec;

    ghost Value = { spec.Bindings };

    ghost view = { λ b. reverse b.items.items };

    ghost invariant = { λ b. GivesPlaces b.places.entries (reverse b.items.items) };
}

impl Bindings {
    /// No names. Takes no memory.
    pub(crate) fn new(alloc: Global) -> Bindings
        ensures { result ≡ [] }
    {
        Bindings {
            alloc,
            items: Vec::new(alloc),
            places: IndexMap::new(alloc),
        }
    }

    /// Names of which the latest stands first.
    pub(crate) fn of(alloc: Global, mut names: Vec<(Txt, Shape)>) -> Result<Bindings, Mem>
        ensures { IfOk result (λ b. b ≡ names.items) }
    {
        let mut all = Bindings::new(alloc);
        while let Some((name, shape)) = names.pop() {
            all.push(name, shape)?;
        }
        Ok(all)
    }

    /// How many there are, each name as often as it was bound.
    pub(crate) fn len(&self) -> usize
        ensures { result ≡ length self.now }
    {
        self.items.len()
    }

    /// What the latest of a name stands for.
    pub(crate) fn find(&self, name: &str) -> Option<&Shape>
        ensures { option_copied result ≡ spec.shape_in name.now self.now }
    {
        let place = *self.places.get(name)?;
        Some(&self.items[place].1)
    }

    /// Whether a name is bound.
    pub(crate) fn has(&self, name: &str) -> bool
        ensures { result ≡ spec.is_bound name.now self.now }
    {
        self.places.contains_key(name)
    }

    /// Binds a name. Where there is no memory for it, nothing changes.
    pub(crate) fn push(&mut self, name: Txt, shape: Shape) -> Result<(), Mem>
        ensures ok { OnOk result (self.new ≡ (name, shape) ∷ self.old) }
        ensures err { OnErr result (self.new ≡ self.old) }
    {
        let key = String::from_str(self.alloc, name.as_str())?;
        let place = self.items.len();
        self.items.reserve(1)?;
        self.places.insert(key, place)?;
        self.items.push((name, shape))?;
        Ok(())
    }

    /// Gives the latest of a name another meaning. Does nothing where the name isn't bound.
    pub(crate) fn rebind(&mut self, name: &str, shape: Shape)
        ensures { self.new ≡ spec.rebound name.now shape self.old }
    {
        if let Some(place) = self.places.get(name) {
            self.items[*place].1 = shape;
        }
    }

    /// The names with what they stand for, the latest last.
    pub(crate) fn items(&self) -> &[(Txt, Shape)]
        ensures { reverse result.now ≡ self.now }
    {
        &self.items
    }

    /// The same names.
    pub(crate) fn copy(&self, alloc: Global) -> Result<Bindings, Mem>
        ensures { IfOk result (λ b. b ≡ self.now) }
    {
        let mut out = Bindings::new(alloc);
        add_copies(alloc, &self.items, &mut out)?;
        Ok(out)
    }

    /// The oldest so many.
    pub(crate) fn oldest(&self, alloc: Global, count: usize) -> Result<Bindings, Mem>
        ensures { IfOk result (λ b. b ≡ drop (length self.now - count) self.now) }
    {
        let mut out = Bindings::new(alloc);
        let kept = count.min(self.items.len());
        add_copies(alloc, &self.items[..kept], &mut out)?;
        Ok(out)
    }

    /// The names after two arms, where both have the same names in the same order.
    pub(crate) fn aligned(
        alloc: Global,
        first: &Bindings,
        second: &Bindings,
    ) -> Result<Bindings, Mem>
        ensures { IfOk result (λ b. b ≡ spec.aligned first.now second.now) }
    {
        let mut latest_first = Vec::new(alloc);
        let others = second.items.iter().rev();
        for ((name, shape), (_, other)) in first.items.iter().rev().zip(others) {
            latest_first.push((name.copy()?, shape.merged(alloc, other)?))?;
        }
        Bindings::of(alloc, latest_first)
    }

    /// The names after two arms, of which each may have names that the other hasn't.
    pub(crate) fn merged(
        alloc: Global,
        first: &Bindings,
        second: &Bindings,
    ) -> Result<Bindings, Mem>
        ensures { IfOk result (λ b. b ≡ spec.merged_names first.now second.now) }
    {
        let mut out = Bindings::new(alloc);
        add_missing(alloc, first, second.items(), &mut out)?;
        add_both(alloc, first.items(), second, &mut out)?;
        Ok(out)
    }
}

/// Binds names again, of which the latest stands last.
fn add_copies(alloc: Global, names: &[(Txt, Shape)], out: &mut Bindings) -> Result<(), Mem>
    ensures { OnOk result (out.new ≡ reverse names.now ++ out.old) }
{
    for (name, shape) in names {
        out.push(name.copy()?, shape.copy(alloc)?)?;
    }
    Ok(())
}

/// Binds the names of the first, of which the latest stands last, each to what it is after the second.
fn add_both(
    alloc: Global,
    first: &[(Txt, Shape)],
    second: &Bindings,
    out: &mut Bindings,
) -> Result<(), Mem>
    ensures { OnOk result (out.new ≡ spec.both_names (reverse first.now) second.now ++ out.old) }
{
    for (name, shape) in first {
        let after = merged_with(alloc, shape, second.find(name.as_str()))?;
        out.push(name.copy()?, after)?;
    }
    Ok(())
}

/// What a name stands for after two arms, of which the second may not have it.
fn merged_with(alloc: Global, shape: &Shape, other: Option<&Shape>) -> Result<Shape, Mem>
    ensures { IfOk result (λ s. s ≡ merged shape.now (spec.shape_or_unknown (option_copied other.entry))) }
{
    match other {
        Some(other) => shape.merged(alloc, other),
        None => shape.merged(alloc, &Shape::alone(Kinds::unknown())),
    }
}

/// Binds those names of the second, of which the latest stands last, that the first hasn't.
fn add_missing(
    alloc: Global,
    first: &Bindings,
    second: &[(Txt, Shape)],
    out: &mut Bindings,
) -> Result<(), Mem>
    ensures { OnOk result (out.new ≡ spec.missing_names first.now (reverse second.now) ++ out.old) }
{
    for (name, shape) in second {
        if !first.has(name.as_str()) {
            out.push(name.copy()?, shape.copy(alloc)?)?;
        }
    }
    Ok(())
}
