//! What an expression in a workflow's body may be: a plain value, a value channel, a queue, or a call's result with
//! its outputs.

ghost use Rattle.std.specs.Prelude.{◌≡◌, ◌++◌, not, Some, is_some, IfOk, OnOk};
ghost use Rattle.nf_kinds.specs.Kinds as spec;

use nf_value::{Mem, Txt};
use std::alloc::Global;
use std::marker::Model;

/// What something may be, as far as it is known. Before a run it isn't known which arm of an `if` is taken, so it may
/// be several of these.
#[derive(Debug, Clone, Copy, PartialEq, Eq)]
pub struct Kinds {
    /// It is unknown: nothing binds a name in it.
    pub unknown: bool,
    /// It may be a plain value.
    pub plain: bool,
    /// It may be a value channel.
    pub value: bool,
    /// It may be a queue.
    pub queue: bool,
}

impl Kinds {
    /// What is known, and may be one of these.
    pub fn known(plain: bool, value: bool, queue: bool) -> Kinds
        ensures { result ≡ spec.known plain value queue }
    {
        Kinds {
            unknown: false,
            plain,
            value,
            queue,
        }
    }

    /// A call's result that isn't one channel.
    pub fn none() -> Kinds
        ensures { result ≡ spec.no_kind }
    {
        Kinds::known(false, false, false)
    }

    /// A plain value.
    pub fn plain() -> Kinds
        ensures { result ≡ spec.plain_kind }
    {
        Kinds::known(true, false, false)
    }

    /// What is unknown.
    pub fn unknown() -> Kinds
        ensures { result ≡ spec.unknown_kind }
    {
        Kinds {
            unknown: true,
            plain: false,
            value: false,
            queue: false,
        }
    }

    /// A queue, or a value channel.
    pub fn channel(is_queue: bool) -> Kinds
        ensures { result ≡ spec.channel_kind is_queue }
    {
        Kinds::known(false, !is_queue, is_queue)
    }

    /// A plain value, unless something in it is unknown.
    pub fn plain_unless(is_unknown: bool) -> Kinds
        ensures { result ≡ spec.plain_unless is_unknown }
    {
        if is_unknown {
            Kinds::unknown()
        } else {
            Kinds::plain()
        }
    }

    /// Whether it may be a channel.
    pub fn is_channel(self) -> bool
        ensures { result ≡ spec.is_channel self }
    {
        self.value || self.queue
    }

    /// What may be the one or the other: unknown only where both are.
    pub fn either(self, other: Kinds) -> Kinds
        ensures { result ≡ spec.either self other }
    {
        if self.unknown {
            other
        } else if other.unknown {
            self
        } else {
            Kinds::known(
                self.plain || other.plain,
                self.value || other.value,
                self.queue || other.queue,
            )
        }
    }

    /// What it is where a channel is due: a plain value becomes a value channel.
    pub fn as_channel(self) -> Kinds
        ensures { result ≡ spec.as_channel self }
    {
        Kinds {
            unknown: self.unknown,
            plain: false,
            value: self.plain || self.value,
            queue: self.queue,
        }
    }
}

/// By what an output is read.
pub enum Key {
    /// Its place, from 0.
    At(usize),
    /// Its name.
    Called(Txt),
}

impl Drop for Key {
    fn drop(self) {
        match self {
            Key::At(_) | Key::Called(_) => {}
        }
    }
}

impl Key {
    /// Whether it is the same.
    pub fn is(&self, other: &Key) -> bool
        ensures { result ≡ spec.is_key self.now other.now }
    {
        match (self, other) {
            (Key::At(place), Key::At(other)) => place == other,
            (Key::Called(name), Key::Called(other)) => name.as_str() == other.as_str(),
            (Key::At(_), Key::Called(_)) | (Key::Called(_), Key::At(_)) => false,
        }
    }

    /// The same key.
    pub fn copy(&self) -> Result<Key, Mem>
        ensures { IfOk result (λ k. k ≡ self.now) }
    {
        match self {
            Key::At(place) => Ok(Key::At(*place)),
            Key::Called(name) => Ok(Key::Called(name.copy()?)),
        }
    }
}

/// An output of a call.
pub struct Output {
    /// By what it is read. An output with a name is read by its place too, so it stands twice in its list.
    pub key: Key,
    /// What it may be.
    pub kinds: Kinds,
}

impl Drop for Output {
    fn drop(self) {
        let Output { key: _, kinds: _ } = self;
    }
}

/// What an output may be; unknown where there is none.
pub fn output_in(key: &Key, outputs: &[Output]) -> Kinds
    ensures { result ≡ spec.output_in key.now outputs.now }
{
    for output in outputs {
        if output.key.is(key) {
            return output.kinds;
        }
    }
    Kinds::unknown()
}

fn has_key(key: &Key, outputs: &[Output]) -> bool
    ensures { result ≡ spec.has_key key.now outputs.now }
{
    for output in outputs {
        if output.key.is(key) {
            return true;
        }
    }
    false
}

/// What one of the outputs may be, whichever it is.
pub fn some_output(outputs: &[Output]) -> Kinds
    ensures { result ≡ spec.some_output outputs.now }
{
    match outputs {
        [] => Kinds::unknown(),
        [first, rest @ ..] => first.kinds.either(some_output(rest)),
    }
}

/// Adds the outputs of a first arm, each with what it is after the second.
fn add_both(first: &[Output], second: &[Output], out: &mut Vec<Output>) -> Result<(), Mem>
    ensures { OnOk result (out.new.items ≡ out.old.items ++ spec.both_outputs first.now second.now) }
{
    for output in first {
        let kinds = output.kinds.either(output_in(&output.key, second));
        let key = output.key.copy()?;
        out.push(Output { key, kinds })?;
    }
    Ok(())
}

/// Adds the outputs of a second arm that the first hasn't.
fn add_missing(first: &[Output], second: &[Output], out: &mut Vec<Output>) -> Result<(), Mem>
    ensures { OnOk result (out.new.items ≡ out.old.items ++ spec.missing_outputs first.now second.now) }
{
    for output in second {
        if !has_key(&output.key, first) {
            let key = output.key.copy()?;
            let kinds = output.kinds;
            out.push(Output { key, kinds })?;
        }
    }
    Ok(())
}

/// What something may be, with the outputs that it has as a call's result. Contracts see a `Shaped`.
pub struct Shape {
    kinds: Kinds,
    outputs: Option<Vec<Output>>,
}

impl Drop for Shape {
    fn drop(self) {
        let Shape {
            kinds: _,
            outputs: _,
        } = self;
    }
}

impl Model for Shape {
    ghost use Rattle.std.specs.Prelude.{option_map};
    ghost use Rattle.nf_kinds.specs.Kinds.{Shaped};

    ghost Value = { Shaped };

    ghost view = { λ s. record { kinds = s.kinds; outputs = option_map (λ v. v.items) s.outputs } };
}

impl Shape {
    /// A call's result with these outputs, of which there may be none.
    pub fn called(kinds: Kinds, outputs: Vec<Output>) -> Shape
        ensures { result ≡ record { kinds = kinds; outputs = Some outputs.items } }
    {
        Shape {
            kinds,
            outputs: Some(outputs),
        }
    }

    /// What is no call's result.
    pub fn alone(kinds: Kinds) -> Shape
        ensures { result ≡ spec.alone kinds }
    {
        Shape {
            kinds,
            outputs: None,
        }
    }

    /// What the whole may be.
    pub fn kinds(&self) -> Kinds
        ensures { result ≡ self.now.kinds }
    {
        self.kinds
    }

    /// Whether it may be a call's result.
    pub fn has_outputs(&self) -> bool
        ensures { result ≡ is_some self.now.outputs }
    {
        self.outputs.is_some()
    }

    /// The same, with other kinds of the whole.
    pub fn with_kinds(self, kinds: Kinds) -> Shape
        ensures { result ≡ record { kinds = kinds; outputs = self.outputs } }
    {
        let Shape { kinds: _, outputs } = self;
        Shape { kinds, outputs }
    }

    /// What an output may be, or a part of a plain value.
    pub fn output(&self, key: &Key) -> Kinds
        ensures { result ≡ spec.output_of key.now self.now }
    {
        match &self.outputs {
            Some(outputs) => self.part(output_in(key, outputs)),
            None => Kinds::plain_unless(self.kinds.unknown),
        }
    }

    /// What any of its outputs may be, or a part of a plain value.
    pub fn some_output(&self) -> Kinds
        ensures { result ≡ spec.some_output_of self.now }
    {
        match &self.outputs {
            Some(outputs) => self.part(some_output(outputs)),
            None => Kinds::plain_unless(self.kinds.unknown),
        }
    }

    /// An output, or a part of a plain value if it may be one.
    fn part(&self, output: Kinds) -> Kinds
        ensures { result ≡ spec.either output (spec.plain_unless (not self.now.kinds.plain)) }
    {
        output.either(Kinds::plain_unless(!self.kinds.plain))
    }

    /// The same shape.
    pub fn copy(&self, alloc: Global) -> Result<Shape, Mem>
        ensures { IfOk result (λ s. s ≡ self.now) }
    {
        match &self.outputs {
            Some(outputs) => Ok(Shape::called(self.kinds, copies(alloc, outputs)?)),
            None => Ok(Shape::alone(self.kinds)),
        }
    }

    /// What it is after two arms, of which the second gives the other.
    pub fn merged(&self, alloc: Global, other: &Shape) -> Result<Shape, Mem>
        ensures { IfOk result (λ s. s ≡ spec.merged self.now other.now) }
    {
        let kinds = self.kinds.either(other.kinds);
        match (&self.outputs, &other.outputs) {
            (Some(first), Some(second)) => {
                Ok(Shape::called(kinds, merged_outputs(alloc, first, second)?))
            }
            (Some(outputs), None) | (None, Some(outputs)) => {
                Ok(Shape::called(kinds, copies(alloc, outputs)?))
            }
            (None, None) => Ok(Shape::alone(kinds)),
        }
    }
}

fn copies(alloc: Global, outputs: &[Output]) -> Result<Vec<Output>, Mem>
    ensures { IfOk result (λ v. v.items ≡ outputs.now) }
{
    let mut copies = Vec::new(alloc);
    for output in outputs {
        let key = output.key.copy()?;
        let kinds = output.kinds;
        copies.push(Output { key, kinds })?;
    }
    Ok(copies)
}

/// Outputs after two arms.
fn merged_outputs(alloc: Global, first: &[Output], second: &[Output]) -> Result<Vec<Output>, Mem>
    ensures { IfOk result (λ v. v.items ≡ spec.both_outputs first.now second.now
        ++ spec.missing_outputs first.now second.now) }
{
    let mut outputs = Vec::new(alloc);
    add_both(first, second, &mut outputs)?;
    add_missing(first, second, &mut outputs)?;
    Ok(outputs)
}
