//! `Args`: the arguments of a call that are still to be gone through.

ghost use Rattle.std.specs.Prelude.{◌≡◌, ◌++◌, ◌∷◌, [], List, length};
ghost use Rattle.nf_graph.specs.Meaning.{Bags};
ghost use Rattle.nf_meaning.specs.Arguments as meaning;

use crate::closures::look_at_all;
use crate::counts::{around_unnamed, count_if, unnamed_in};
use crate::one::One;
use crate::written::Written;
use nf_ast::{Arg, ClosureExpr};
use nf_scopes::Thing;
use nf_value::Place;

/// What stands before a pipe; what it stands for is known.
#[derive(Drop)]
pub struct Before {
    /// Where its expression begins.
    pub place: Place,
    /// What it stands for.
    pub thing: Thing,
}

/// The arguments of a call that are still to be gone through (own): what stands before a pipe, those in brackets, and a closure behind them. Contracts
/// see by `AreArgs` which arguments of the meaning they are.
#[derive(Drop)]
pub struct Args<'e> {
    /// What stands before a pipe.
    pub before: Option<Before>,
    /// Those in brackets that stand before the argument that an operator is called on, once that is taken: all have names.
    pub options: &'e [Arg],
    /// The others in brackets.
    pub args: &'e [Arg],
    /// A closure behind them.
    pub closure: Option<&'e ClosureExpr>,
}

impl<'e> Args<'e> {
    ghost use Rattle.nf_arguments.specs.Args.{AreArgs, AreBefore, SplitsFirst, SplitsReceiver};
    ghost use Rattle.nf_arguments.specs.Written.{args_in, closure_arg};
    ghost use Rattle.std.specs.Prelude.{None, Some};

    /// Those in brackets, as in `f(..)` (Nextflow reference documentation, "Syntax", "Function call"). Takes no memory.
    pub fn of(args: &'e [Arg]) -> Args<'e>
        ensures are { (bags : Bags) → AreArgs bags result (args_in args.now) }
        ensures whole { result.options.now ≡ [] }
        ensures alone { result.before ≡ None }
    {
        look_at_all(args);
        Args {
            before: None,
            options: &[],
            args,
            closure: None,
        }
    }

    /// Those in brackets and a closure behind them, as in `f(..) { .. }`. Takes no memory.
    pub fn with_closure(args: &'e [Arg], closure: &'e ClosureExpr) -> Args<'e>
        ensures are { (bags : Bags) → AreArgs bags result (args_in args.now ++ closure_arg closure.now ∷ []) }
        ensures whole { result.options.now ≡ [] }
        ensures alone { result.before ≡ None }
    {
        look_at_all(args);
        Args {
            before: None,
            options: &[],
            args,
            closure: Some(closure),
        }
    }

    /// What stands before a pipe is the first: `a | f(..)` is `f(a, ..)` (Nextflow reference documentation, "Workflows", "Pipes"). Takes no memory.
    pub fn after(self, before: Before) -> Args<'e>
        requires { self.before ≡ None }
        ensures are { (bags : Bags) (xs ys : List meaning.Arg) → AreBefore bags (Some before) xs → AreArgs bags self.entry ys
            → AreArgs bags result (xs ++ ys) }
        ensures options { result.options ≡ self.entry.options }
        ensures before { result.before ≡ Some before }
    {
        Args {
            before: Some(before),
            options: self.options,
            args: self.args,
            closure: self.closure,
        }
    }

    /// How many there are. Takes no memory.
    pub fn len(&self) -> usize
        ensures { (bags : Bags) (ys : List meaning.Arg) → AreArgs bags self.now ys → result ≡ length ys }
    {
        self.options.len()
            + self.args.len()
            + count_if(self.before.is_some())
            + count_if(self.closure.is_some())
    }

    /// How many have no name. Takes no memory.
    pub fn unnamed(&self) -> usize
        ensures { (bags : Bags) (ys : List meaning.Arg) → AreArgs bags self.now ys → result ≡ meaning.unnamed ys }
    {
        unnamed_in(self.options)
            + unnamed_in(self.args)
            + count_if(self.before.is_some())
            + count_if(self.closure.is_some())
    }

    /// The first, if there is one; it is taken off. Takes no memory.
    pub fn take_first(&mut self) -> Option<One<'e>>
        ensures { SplitsFirst self.old self.new result }
    {
        if let Some(before) = self.before.take() {
            return Some(One::Before(before));
        }
        if let Some((first, more)) = self.options.split_first() {
            self.options = more;
            return Some(One::Written(Written::Arg(first)));
        }
        if let Some((first, more)) = self.args.split_first() {
            self.args = more;
            return Some(One::Written(Written::Arg(first)));
        }
        match self.closure.take() {
            Some(closure) => Some(One::Written(Written::Closure(closure))),
            None => None,
        }
    }

    /// The argument that an operator is called on, as in `view(ch)`: the first without a name, if there is one; it is taken out, and those before it are options.
    /// Takes no memory.
    pub fn take_receiver(&mut self) -> Option<One<'e>>
        requires { self.old.options.now ≡ [] }
        ensures { SplitsReceiver self.old self.new result }
    {
        if let Some(before) = self.before.take() {
            return Some(One::Before(before));
        }
        if let Some((options, first, args)) = around_unnamed(self.args) {
            self.options = options;
            self.args = args;
            return Some(One::Written(Written::Arg(first)));
        }
        match self.closure.take() {
            Some(closure) => Some(One::Written(Written::Closure(closure))),
            None => None,
        }
    }
}
