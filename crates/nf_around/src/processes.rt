//! `ProcessFormulas`: the closures of a process's expressions.

ghost use Rattle.std.specs.Prelude.{◌≡◌, [], true, drop, IfOk};
ghost use Rattle.nf_value.specs.declared.place.Place.{Place};
ghost use Rattle.nf_ast.specs.Tree as tree;
ghost use Rattle.nf_ast.specs.View.{view_closure, view_stmts};
ghost use Rattle.nf_builtins.specs.Natives.{is_among};
ghost use Rattle.nf_called.specs.Formulas.{IsFormula};
ghost use Rattle.nf_eval.specs.Memory.{closing};
ghost use Rattle.nf_lowered.specs.Given.{Gives};
ghost use Rattle.nf_meaning.specs.Directives as directives;
ghost use Rattle.nf_meaning.specs.Walk as walk;
ghost use Rattle.nf_meaning.specs.Walk.{env_with};
ghost use Rattle.nf_bodies.specs.Means.{GivesAs};
ghost use Rattle.nf_around.specs.Gives.{Judges};
ghost use Rattle.nf_around.specs.Processes.{inside_of, code_at, placed_at, repeats};

use crate::surroundings::Surroundings;
use crate::values::judged;
use indexmap::IndexMap;
use nf_ast::{ClosureBody, ClosureExpr, Expr, Stmt};
use nf_builtins::Natives;
use nf_called::Formulas;
use nf_eval::Closure;
use nf_known::{Around, Reading};
use nf_lowered::begins_at;
use nf_meaning::LowerFault;
use nf_names_used::{Use, closure_uses};
use nf_relevant::laws::closures_by_their_names;
use nf_relevant::names_in_closure;
use nf_scopes::BodyNames;
use nf_value::{Mem, Place, Txt};
use std::alloc::Global;

/// What makes closures of the expressions of a process (Nextflow reference documentation, "Processes"): they see the
/// names of its inputs and `task`, which are their parameters, and the names that have a value everywhere. A name may
/// stand there twice, since an expression may be read before the names of the inputs are judged.
#[derive(Drop)]
pub struct ProcessFormulas<'a, 'b, N> {
    around: &'b Surroundings<'a, N>,
    seen: &'b [Txt],
}

impl<'a, 'b, N: Natives> ProcessFormulas<'a, 'b, N> {
    ghost use Rattle.nf_around.specs.Around.{IsAround};

    /// Those of a process whose expressions see these names. Takes no memory.
    pub fn new(around: &'b Surroundings<'a, N>, seen: &'b [Txt]) -> ProcessFormulas<'a, 'b, N>
        ensures around { result.around.now ≡ around.now }
        ensures seen { result.seen.now ≡ seen.now }
        ensures inside { (a : walk.Around) → IsAround N.titles N.answer around.now a
            → inside_of N.titles N.answer around.now seen.now ≡ directives.inside a seen.now }
    {
        ProcessFormulas { around, seen }
    }

    /// The closure of statements at this place.
    fn made(&self, place: Place, body: Vec<Stmt>) -> Result<Closure, LowerFault>
        ensures { (a : walk.Around) → IsAround N.titles N.answer self.now.around.now a
            → Gives (IsFormula a.given.program) (directives.formula (directives.inside a self.now.seen.now) place
            (view_stmts body.items)) result }
    {
        let alloc = self.around.alloc;
        let params = placed(alloc, place, self.seen)?;
        let code = ClosureExpr::new(place, Some(params), ClosureBody::statements(body));
        self.check(&code)?;
        Ok(self.captured(code)?)
    }

    /// The first fault of the names of what stands in the closure. The uses of its parameters come first, and don't
    /// count.
    fn check(&self, code: &ClosureExpr) -> Result<(), LowerFault>
        ensures { (a : walk.Around) (place : Place) (body : tree.Tree)
            → IsAround N.titles N.answer self.now.around.now a
            → view_closure code.now ≡ code_at place self.now.seen.now body
            → Judges (directives.seen_fault a self.now.seen.now body) result }
    {
        let uses = closure_uses(self.around.alloc, code)?;
        let body = after(&uses, repeated(self.seen));
        let known = &self.around.known;
        judged(known.uses_fault(self.around.alloc, body, &Around::Everywhere, Reading::InRun)?)
    }

    /// The closure of this code, which keeps the names that stand in it.
    fn captured(&self, code: ClosureExpr) -> Result<Closure, Mem>
        ensures { IfOk result (λ c. (a : walk.Around) → IsAround N.titles N.answer self.now.around.now a
            → GivesAs a.given.program c (closing (view_closure code) (env_with a [] true))) }
    {
        closures_by_their_names();
        let alloc = self.around.alloc;
        let names = BodyNames::new(alloc, IndexMap::new(alloc));
        let used = names_in_closure(alloc, &code)?;
        let mut env = self.around.env(&used, &names, Reading::InRun)?;
        env.for_process();
        Ok(Closure::new(code, env))
    }
}

impl<N: Natives> Formulas for ProcessFormulas<'_, '_, N> {
    ghost use Rattle.nf_tasks.specs.Memory.{program};
    ghost use Rattle.nf_around.specs.Processes.{StandSomewhere, inside_of};

    ghost program = { λ f. program (N.titles f.around.now.natives.now) (N.answer f.around.now.natives.now) };

    ghost inside = { λ f. inside_of N.titles N.answer f.around.now f.seen.now };

    ghost keeps = { λ f. StandSomewhere N.titles N.answer f.around.now };

    fn expression(&self, alloc: Global, expr: &Expr) -> Result<Closure, LowerFault> {
        let mut body = Vec::new(alloc);
        body.push(Stmt::Expr(expr.copy(alloc)?))?;
        self.made(begins_at(expr), body)
    }

    fn statements(
        &self,
        alloc: Global,
        place: Place,
        body: &[Stmt],
    ) -> Result<Closure, LowerFault> {
        self.made(place, copied(alloc, body)?)
    }
}

/// Names as parameters that stand at one place.
fn placed(alloc: Global, place: Place, names: &[Txt]) -> Result<Vec<(Place, Txt)>, Mem>
    ensures { IfOk result (λ ps. ps.items ≡ placed_at place names.now) }
{
    let mut params = Vec::new(alloc);
    for name in names {
        params.push((place, name.copy()?))?;
    }
    Ok(params)
}

/// Copies of statements.
fn copied(alloc: Global, body: &[Stmt]) -> Result<Vec<Stmt>, Mem>
    ensures { IfOk result (λ copies. view_stmts copies.items ≡ view_stmts body.now) }
{
    let mut copies = Vec::new(alloc);
    for stmt in body {
        copies.push(stmt.copy(alloc)?)?;
    }
    Ok(copies)
}

/// The uses after the first so many; none where there are no more.
#[tactic(auto, using(crate::proofs::InProcess::none_after))]
fn after(uses: &[Use], count: usize) -> &[Use]
    ensures { result.now ≡ drop count uses.now }
{
    if count > uses.len() {
        return &[];
    }
    &uses[count..]
}

/// How many of these names have the text of one before them.
fn repeated(names: &[Txt]) -> usize
    ensures { result ≡ repeats [] names.now }
{
    let mut count = 0;
    for (i, name) in names.iter().enumerate() {
        if stands_in(&names[..i], name.as_str()) {
            count += 1;
        }
    }
    count
}

fn stands_in(names: &[Txt], name: &str) -> bool
    ensures { result ≡ is_among name.now names.now }
{
    for other in names {
        if other.as_str() == name {
            return true;
        }
    }
    false
}
