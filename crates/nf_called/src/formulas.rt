//! `Formulas`: what makes closures of the expressions of a process.

ghost use Rattle.nf_ast.specs.View.{view, view_stmts};
ghost use Rattle.nf_lowered.specs.Given.{Gives};
ghost use Rattle.nf_meaning.specs.Directives.{Inside, expression, formula};
ghost use Rattle.nf_tasks.specs.Memory.{Program};
ghost use Rattle.nf_called.specs.Formulas.{IsFormula};

use nf_ast::{Expr, Stmt};
use nf_eval::Closure;
use nf_meaning::LowerFault;
use nf_value::Place;
use std::alloc::Global;

/// What makes closures of the expressions of one process (own). Each takes the values of the names that these see: the names of the inputs,
/// in their order, and `task`. `program` has the functions that the closures may call, `inside` what the expressions mean, and `keeps` is what has
/// to hold of it for its closures to be right.
pub trait Formulas {
    ghost program: { Self → Program };

    ghost inside: { Self → Inside };

    ghost keeps: { Self → Type 0 };

    /// The closure of an expression.
    ///
    /// # Errors
    ///
    /// The first fault of the names in it. `Mem` for want of memory.
    fn expression(&self, alloc: Global, expr: &Expr) -> Result<Closure, LowerFault>
        requires { keeps self.now }
        ensures { Gives (IsFormula (program self.now)) (expression (inside self.now) (view expr.now)) result };

    /// The closure of statements. `place` is that of their section's word.
    ///
    /// # Errors
    ///
    /// The first fault of the names in them. `Mem` for want of memory.
    fn statements(&self, alloc: Global, place: Place, body: &[Stmt]) -> Result<Closure, LowerFault>
        requires { keeps self.now }
        ensures { Gives (IsFormula (program self.now)) (formula (inside self.now) place (view_stmts body.now)) result };
}
