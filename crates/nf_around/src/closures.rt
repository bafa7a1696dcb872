//! The closures that operators take.

ghost use Rattle.std.specs.Prelude.{◌≡◌, true, false, map, IfOk, MatchOption};
ghost use Rattle.nf_ast.specs.View.{trees, view, view_body, view_closure, view_label, view_stmts};
ghost use Rattle.nf_meaning.specs.Closures as spec;
ghost use Rattle.nf_meaning.specs.Places.{begins_at as place_of};
ghost use Rattle.nf_meaning.specs.Walk as walk;
ghost use Rattle.nf_names_used.specs.Uses.{is_name};
ghost use Rattle.nf_known.specs.Reading.{reading_of};
ghost use Rattle.nf_around.specs.Gives.{IsClosing, Reads};
ghost use Rattle.nf_around.specs.Labels.{HasLabels};

use crate::forms::{closure_in, is_label_stmt, name_in};
use crate::surroundings::Surroundings;
use nf_ast::{ClosureBody, ClosureExpr, Expr, Label, Stmt};
use nf_builtins::Natives;
use nf_eval::Closure;
use nf_known::{Around, Reading};
use nf_lowered::begins_at;
use nf_meaning::LowerFault;
use nf_scopes::BodyNames;
use nf_value::Mem;

impl<N: Natives> Surroundings<'_, N> {
    ghost use Rattle.nf_around.specs.Around.{IsBody};

    /// The closure that an argument is (Nextflow reference documentation, "Operators"). It keeps the names that stand
    /// in it alone.
    ///
    /// # Errors
    ///
    /// `BadOption` at a closure of labels, and where a closure is wanted and there is none; the first fault of its
    /// names. `Mem` for want of memory.
    pub fn closure_arg(
        &self,
        expr: &Expr,
        names: &BodyNames,
        reading: Reading,
    ) -> Result<Closure, LowerFault>
        ensures { (a : walk.Around) (s : walk.State) → IsBody N.titles N.answer self.now names.now a s.scope
            → Reads (IsClosing a.given.program) (spec.closure_arg (reading_of reading) (view expr.now)) a s result }
    {
        match closure_in(expr) {
            Some(closure) => self.without_labels(closure, names, reading),
            None => Err(self.no_closure(expr, names)?),
        }
    }

    /// A closure of statements.
    ///
    /// # Errors
    ///
    /// As for `closure_arg`.
    pub fn without_labels(
        &self,
        closure: &ClosureExpr,
        names: &BodyNames,
        reading: Reading,
    ) -> Result<Closure, LowerFault>
        ensures { (a : walk.Around) (s : walk.State) → IsBody N.titles N.answer self.now names.now a s.scope
            → Reads (IsClosing a.given.program) (spec.closure_arg (reading_of reading)
            (view_closure closure.now)) a s result }
    {
        match labels_in(&closure.body) {
            Some(_) => Err(LowerFault::BadOption {
                place: closure.place,
            }),
            None => {
                self.check_closure(closure, names, reading)?;
                Ok(self.captured(closure, names, reading)?)
            }
        }
    }

    /// What is wrong where a closure is wanted and there is none (own): a name that nothing binds is at fault first,
    /// and else the expression, where it begins. The expression is no closure.
    ///
    /// # Errors
    ///
    /// `Mem` for want of memory.
    pub fn no_closure(&self, expr: &Expr, names: &BodyNames) -> Result<LowerFault, Mem>
        ensures { IfOk result (λ f. (a : walk.Around) (s : walk.State)
            → IsBody N.titles N.answer self.now names.now a s.scope
            → spec.no_closure {A = Unit {0}} (view expr.now) a s ≡ Err f) }
    {
        match name_in(expr) {
            Some(_) => self.bare_name(expr, names),
            None => Ok(bad_option(expr)),
        }
    }

    /// The same of a name.
    fn bare_name(&self, expr: &Expr, names: &BodyNames) -> Result<LowerFault, Mem>
        ensures { IfOk result (λ f. (a : walk.Around) (s : walk.State)
            → IsBody N.titles N.answer self.now names.now a s.scope
            → is_name (view expr.now) ≡ true → spec.no_closure {A = Unit {0}} (view expr.now) a s ≡ Err f) }
    {
        let around = Around::Body(names);
        let wrong = self
            .known
            .names_fault(self.alloc, expr, &around, Reading::Unread)?;
        Ok(wrong.unwrap_or(bad_option(expr)))
    }
}

/// That an expression is none that is wanted, where it begins.
fn bad_option(expr: &Expr) -> LowerFault
    ensures { result ≡ LowerFault.BadOption (place_of (view expr.now)) }
{
    LowerFault::BadOption {
        place: begins_at(expr),
    }
}

/// The labels that stand in a closure, at least one.
pub(crate) fn labels_in(body: &ClosureBody) -> Option<&[Label]>
    ensures { MatchOption result (spec.has_labels (view_body body.now) ≡ false)
        (λ ls. HasLabels (view_body body.now) ls.now) }
{
    match body {
        ClosureBody::Labels(labels) => at_least_one(labels),
        ClosureBody::Statements(body) => {
            let _none = begin_with_label(body);
            None
        }
    }
}

fn at_least_one(labels: &[Label]) -> Option<&[Label]>
    ensures { MatchOption result (spec.has_labels (trees (map view_label labels.now)) ≡ false)
        (λ ls. HasLabels (trees (map view_label labels.now)) ls.now) }
{
    match labels {
        [] => None,
        [_first, ..] => Some(labels),
    }
}

/// Whether statements begin with a label: none do.
fn begin_with_label(body: &[Stmt]) -> bool
    ensures label { result ≡ spec.has_labels (view_stmts body.now) }
    ensures none { result ≡ false }
{
    match body {
        [] => false,
        [first, ..] => is_label_stmt(first),
    }
}
