//! Expressions that may still be called.

ghost use Rattle.std.specs.Prelude.{◌≡◌, ℕ, List, ◌||◌, [], None, Some, IfOk};
ghost use Rattle.nf_kinds.specs.declared.kinds.Key.TheVariants as keys;
ghost use Rattle.nf_kinds.specs.Kinds.{alone, plain_unless};
ghost use Rattle.nf_kinds.specs.Walk.{came};
ghost use Rattle.nf_order.specs.declared.subject.Head.TheVariants as heads;
ghost use Rattle.nf_order.specs.Standing.{around_of, free_head, free_part, uncalled};

use crate::around::{Around, State};
use nf_kinds::{Given, Key, Kinds, Shape};
use nf_value::{Mem, Place, Txt};

/// What may still be called.
#[derive(Drop)]
pub(crate) enum Head {
    /// An expression.
    Value(Shape),
    /// A name.
    Name(Place, Txt),
    /// `e.name`, with what e is.
    Member(Shape, Place, Txt),
    /// `channel.name`.
    Source(Txt),
    /// `m.name`, where one arm of an `if` alone bound m: with what it is bound to, and what it is where nothing binds
    /// it.
    HalfBound(Shape, Free, Place, Txt),
}

/// What stands before a dot that nothing in the body binds.
#[derive(Drop)]
pub(crate) enum Free {
    /// The word `channel`.
    Channel,
    /// What the call of a process or a workflow gave, of which `out` is read.
    Output(Shape),
    /// Any other word.
    Word(Shape),
}

/// An expression as far as its parts are read: a closure may still follow its arguments.
#[derive(Drop)]
pub(crate) struct Subject {
    /// What is called, if it is.
    pub head: Head,
    /// The arguments, where it is called.
    pub args: Option<Vec<Given>>,
}

impl Subject {
    /// What isn't called yet.
    pub fn of(head: Head) -> Subject
        ensures { result ≡ record { head = head; args = None } }
    {
        Subject { head, args: None }
    }

    /// An expression of these kinds.
    pub fn of_kind(kinds: Kinds) -> Subject
        ensures { result ≡ record { head = heads.Value (alone kinds); args = None } }
    {
        Subject::of(Head::Value(Shape::alone(kinds)))
    }

    /// `e.name`, with what e is.
    pub fn member(shape: Shape, place: Place, name: &Txt) -> Result<Subject, Mem>
        ensures { IfOk result (λ x. x ≡ record { head = heads.Member shape place name.now; args = None }) }
    {
        Ok(Subject::of(Head::Member(shape, place, name.copy()?)))
    }

    /// `m.name`, where nothing in the body binds m.
    pub fn free(free: Free, place: Place, name: &Txt) -> Result<Subject, Mem>
        ensures { IfOk result (λ x. x ≡ record { head = free_head free place name.now; args = None }) }
    {
        match free {
            Free::Channel => Ok(Subject::of(Head::Source(name.copy()?))),
            Free::Output(shape) => Ok(Subject::of(Head::Value(shape))),
            Free::Word(shape) => Subject::member(shape, place, name),
        }
    }

    /// `m.name`, where one arm of an `if` alone bound m to this.
    pub fn half_bound(shape: Shape, free: Free, place: Place, name: &Txt) -> Result<Subject, Mem>
        ensures { IfOk result (λ x. x ≡ record { head = heads.HalfBound shape free place name.now; args = None }) }
    {
        Ok(Subject::of(Head::HalfBound(shape, free, place, name.copy()?)))
    }

    /// What is called with these arguments.
    pub fn called(head: Head, args: Vec<Given>) -> Subject
        ensures { result ≡ record { head = head; args = Some args } }
    {
        Subject {
            head,
            args: Some(args),
        }
    }
}

/// What is read and not called.
pub(crate) fn read_head(head: Head, around: &Around<'_>, state: &State) -> Result<Shape, Mem>
    ensures { IfOk result (λ v. (uncalled (around_of around.now) head).thing state.now.scope
        ≡ came v state.now.scope []) }
{
    match head {
        Head::Value(shape) => Ok(shape),
        Head::Name(_, name) => state.scope.read(around.alloc, name.as_str()),
        Head::Member(shape, _, name) => Ok(Shape::alone(shape.output(&Key::Called(name)))),
        Head::Source(_) => Ok(Shape::alone(Kinds::unknown())),
        Head::HalfBound(shape, free, _, name) => {
            let key = Key::Called(name);
            let bound = Shape::alone(shape.output(&key));
            bound.merged(around.alloc, &read_free(free, &key))
        }
    }
}

/// A part of what nothing binds.
fn read_free(free: Free, key: &Key) -> Shape
    ensures { (n : List ℕ) → key.now ≡ keys.Called n → result ≡ free_part free n }
{
    match free {
        Free::Channel => Shape::alone(Kinds::unknown()),
        Free::Output(shape) => shape,
        Free::Word(shape) => Shape::alone(shape.output(key)),
    }
}

/// What is made of two parts: a plain value, unless one of them is unknown.
pub(crate) fn plain_of(left: &Shape, right: &Shape) -> Shape
    ensures { result ≡ alone (plain_unless (left.now.kinds.unknown || right.now.kinds.unknown)) }
{
    Shape::alone(Kinds::plain_unless(left.kinds().unknown || right.kinds().unknown))
}
