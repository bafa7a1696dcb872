//! `InBody`: which expressions of a workflow's body lead to channels, to what a call gives, or to files.

ghost use Rattle.std.specs.Prelude.{◌≡◌, ◌||◌, true, false};
ghost use Rattle.nf_ast.specs.View.{views};
ghost use Rattle.nf_meaning.specs.Expressions as meaning;
ghost use Rattle.nf_meaning.specs.Expressions.{leading, leads_in};
ghost use Rattle.nf_meaning.specs.Walk.{Around, Scope};

use crate::names::{call_leads, is_tied, leads_to_channels};
use nf_ast::Expr;
use nf_builtins::Natives;
use nf_callees::Definitions;
use nf_fronts::{Front, Last};
use nf_scopes::BodyNames;

/// Whether an expression leads to a channel, to what a call gives, or to a file (own).
#[derive(Drop, Clone, Copy)]
pub struct Leading {
    /// As an expression.
    pub alone: bool,
    /// Where it is called.
    pub called: bool,
}

impl Leading {
    ghost use Rattle.nf_leading.specs.Bodies.{leading_of};

    /// Of what can't be called.
    fn uncalled(leads: bool) -> Leading
        ensures { leading_of result ≡ record { alone = leads; called = false } }
    {
        Leading {
            alone: leads,
            called: false,
        }
    }

    /// Of what leads there in either way, or in none.
    fn both(leads: bool) -> Leading
        ensures { leading_of result ≡ record { alone = leads; called = leads } }
    {
        Leading {
            alone: leads,
            called: leads,
        }
    }
}

/// The body of a workflow in which an expression stands (own): its names, and what the script and the program define. Contracts see by `IsBody` which
/// body of the meaning it is.
#[derive(Drop)]
pub struct InBody<'b, 'a, N> {
    /// The names of the body.
    pub names: &'b BodyNames,
    /// What the script defines.
    pub definitions: &'b Definitions<'a>,
    /// The program's functions.
    pub natives: &'b N,
}

impl<N: Natives> InBody<'_, '_, N> {
    ghost use Rattle.nf_fronts.specs.Fronts.{tree_of};
    ghost use Rattle.nf_fronts.specs.Lasts.{maybe_tree};
    ghost use Rattle.nf_leading.specs.Bodies.{IsBody, leading_of};

    /// Whether an expression, or the front of one, leads to a channel, to what a call gives, or to a file. Takes no memory.
    #[cycle(leading)]
    pub fn leading(&self, front: Front<'_>) -> Leading
        ensures { (a : Around) (s : Scope) → IsBody N.titles self.now a s
            → leading_of result ≡ leading (leads_in a s) (tree_of front.entry) }
    {
        match front.last() {
            Last::Name(_, name) => Leading {
                alone: self.name_leads(name.as_str()),
                called: self.call_leads(name.as_str()),
            },
            Last::List(_, items) => Leading::uncalled(self.any_leads(items)),
            Last::Property(before, _, _) => Leading::both(self.leading(before).alone),
            Last::Index(before, _, _) => Leading::uncalled(self.leading(before).alone),
            Last::Call(before, _, _) => Leading::both(self.leading(before).called),
            Last::With(before, _) => Leading::both(self.leading(before).called),
            Last::Pipe(_, _, _) => Leading::uncalled(true),
            Last::Conditional(_, _, yes, no) => {
                Leading::uncalled(either(self.leading(yes).alone, self.maybe_leads(no)))
            }
            Last::Other => Leading::uncalled(false),
        }
    }

    #[cycle(leading)]
    fn maybe_leads(&self, front: Option<Front<'_>>) -> bool
        ensures { (a : Around) (s : Scope) → IsBody N.titles self.now a s
            → result ≡ (leading (leads_in a s) (maybe_tree front.entry)).alone }
    {
        match front {
            Some(front) => self.leading(front).alone,
            None => false,
        }
    }

    #[cycle(leading)]
    fn any_leads(&self, exprs: &[Expr]) -> bool
        ensures { (a : Around) (s : Scope) → IsBody N.titles self.now a s
            → result ≡ (leading (leads_in a s) (views exprs.now)).alone }
    {
        for expr in exprs {
            if self.leading(Front::Whole(expr)).alone {
                return true;
            }
        }
        false
    }

    fn name_leads(&self, name: &str) -> bool
        ensures { (a : Around) (s : Scope) → IsBody N.titles self.now a s → result ≡ (leads_in a s).name name.now }
    {
        match self.names.thing(name) {
            Some(thing) => is_tied(thing),
            None => leads_to_channels(self.definitions, name),
        }
    }

    fn call_leads(&self, name: &str) -> bool
        ensures { (a : Around) (s : Scope) → IsBody N.titles self.now a s → result ≡ (leads_in a s).call name.now }
    {
        call_leads(&self.definitions.callee(name, self.natives))
    }
}

fn either(first: bool, second: bool) -> bool
    ensures { result ≡ (first || second) }
{
    first || second
}
