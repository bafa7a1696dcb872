//! Closures that are just a name, as `set` takes one.

ghost use Rattle.std.specs.Prelude.{◌≡◌};
ghost use Rattle.std.specs.Option.{option_copied};
ghost use Rattle.nf_ast.specs.View.{view, view_body, view_closure, view_stmt, view_stmts};
ghost use Rattle.nf_meaning.specs.Closures as spec;
ghost use Rattle.nf_meaning.specs.Walk as walk;
ghost use Rattle.nf_around.specs.Gives.{Reads};
ghost use Rattle.nf_around.specs.Labels.{params_in};
ghost use Rattle.nf_around.specs.Words.{IsWord, name_alone, word_after, word_in};

use crate::forms::{closure_in, name_in};
use crate::surroundings::Surroundings;
use nf_ast::{ClosureBody, ClosureExpr, Expr, Stmt};
use nf_builtins::Natives;
use nf_meaning::LowerFault;
use nf_scopes::BodyNames;
use nf_value::{Place, Txt};

impl<N: Natives> Surroundings<'_, N> {
    ghost use Rattle.nf_around.specs.Around.{IsBody};

    /// The name that an argument is, as in `set { name }` (Nextflow reference documentation, "Operators", "set").
    ///
    /// # Errors
    ///
    /// `BadOption` if it is another closure, or none; a name that nothing binds is at fault first. `Mem` for want of
    /// memory.
    pub fn word_arg<'e>(&self, expr: &'e Expr, names: &BodyNames) -> Result<&'e Txt, LowerFault>
        ensures { (a : walk.Around) (s : walk.State) → IsBody N.titles N.answer self.now names.now a s.scope
            → Reads IsWord (spec.word_arg (view expr.now)) a s result }
    {
        match closure_in(expr) {
            Some(closure) => word_of(closure),
            None => Err(self.no_closure(expr, names)?),
        }
    }
}

/// The name that a closure is (own). Takes no memory.
///
/// # Errors
///
/// `BadOption` at its brace if it is no name, or has an arrow.
pub fn word_of(closure: &ClosureExpr) -> Result<&Txt, LowerFault>
    ensures { (a : walk.Around) (s : walk.State) → Reads IsWord (spec.word_arg (view_closure closure.now)) a s result }
{
    match word_after(&closure.params, &closure.body) {
        Some(name) => Ok(name),
        None => Err(LowerFault::BadOption {
            place: closure.place,
        }),
    }
}

/// The name that is all that stands in a closure without an arrow.
fn word_after<'e>(params: &Option<Vec<(Place, Txt)>>, body: &'e ClosureBody) -> Option<&'e Txt>
    ensures { option_copied result ≡ word_after (params_in params.now) (view_body body.now) }
{
    match params {
        None => word_in(body),
        Some(_) => None,
    }
}

/// The name that is all that stands in a closure.
fn word_in(body: &ClosureBody) -> Option<&Txt>
    ensures { option_copied result ≡ word_in (view_body body.now) }
{
    match body {
        ClosureBody::Labels(_) => None,
        ClosureBody::Statements(stmts) => sole_word(stmts),
    }
}

fn sole_word(stmts: &[Stmt]) -> Option<&Txt>
    ensures { option_copied result ≡ word_in (view_stmts stmts.now) }
{
    match stmts {
        [only] => stmt_word(only),
        [] => None,
        [_, _, ..] => None,
    }
}

fn stmt_word(stmt: &Stmt) -> Option<&Txt>
    ensures { option_copied result ≡ name_alone (view_stmt stmt.now) }
{
    match stmt {
        Stmt::Expr(expr) => expr_word(expr),
        Stmt::Choice(_, _) => None,
        Stmt::Define(_, _, _, _)
        | Stmt::DefineAll(_, _, _)
        | Stmt::Assign(_, _, _)
        | Stmt::Return(_, _)
        | Stmt::Println(_, _)
        | Stmt::Log(_, _, _, _) => None,
    }
}

fn expr_word(expr: &Expr) -> Option<&Txt>
    ensures { option_copied result ≡ name_alone (view expr.now) }
{
    match name_in(expr) {
        Some(found) => Some(found.1),
        None => None,
    }
}
