//! Closures of labels, as `branch` and `multiMap` take them.

ghost use Rattle.std.specs.Prelude.{◌≡◌, IfOk};
ghost use Rattle.nf_ast.specs.View.{view, view_closure};
ghost use Rattle.nf_builtins.specs.Natives.{is_among};
ghost use Rattle.nf_lowered.specs.Given.{Gives};
ghost use Rattle.nf_names_used.specs.Uses.{params_uses};
ghost use Rattle.nf_meaning.specs.Closures as spec;
ghost use Rattle.nf_meaning.specs.Names.{in_run, uses_fault};
ghost use Rattle.nf_meaning.specs.Walk as walk;
ghost use Rattle.nf_meaning.specs.Walk.{known_in};
ghost use Rattle.nf_around.specs.Gives.{Judges, Reads};
ghost use Rattle.nf_around.specs.Labels.{AreLabelled, AreLabels, HasParams, IsLabelled};
ghost use Rattle.nf_around.specs.Labels.{judged_label, judged_labels, params_in, with_only};

use crate::closures::labels_in;
use crate::forms::closure_in;
use crate::surroundings::Surroundings;
use nf_ast::{ClosureBody, ClosureExpr, Expr, Label};
use nf_builtins::Natives;
use nf_eval::Closure;
use nf_known::Reading;
use nf_meaning::LowerFault;
use nf_scopes::BodyNames;
use nf_value::{Mem, Place, Txt};
use std::alloc::Global;

impl<N: Natives> Surroundings<'_, N> {
    ghost use Rattle.nf_around.specs.Around.{IsBody};

    /// The labels of the closure that an argument is, and for each a closure of it alone (Nextflow reference
    /// documentation, "Operators", "branch" and "multiMap").
    ///
    /// # Errors
    ///
    /// `BadOption` where a closure of labels is wanted and there is none; `TwiceDefined` at a parameter or a label that
    /// stands a second time; the first fault of the names of its expressions. `Mem` for want of memory.
    pub fn labels_arg(
        &self,
        expr: &Expr,
        names: &BodyNames,
    ) -> Result<(Vec<Txt>, Vec<Closure>), LowerFault>
        ensures { (a : walk.Around) (s : walk.State) → IsBody N.titles N.answer self.now names.now a s.scope
            → Reads (AreLabels a.given.program) (spec.labels_arg (view expr.now)) a s result }
    {
        match closure_in(expr) {
            Some(closure) => self.with_labels(closure, names),
            None => Err(self.no_closure(expr, names)?),
        }
    }

    /// The same of a closure.
    ///
    /// # Errors
    ///
    /// As for `labels_arg`.
    pub fn with_labels(
        &self,
        closure: &ClosureExpr,
        names: &BodyNames,
    ) -> Result<(Vec<Txt>, Vec<Closure>), LowerFault>
        ensures { (a : walk.Around) (s : walk.State) → IsBody N.titles N.answer self.now names.now a s.scope
            → Reads (AreLabels a.given.program) (spec.labels_arg (view_closure closure.now)) a s result }
    {
        match labels_in(&closure.body) {
            Some(labels) => {
                self.check_params(closure, names)?;
                self.each_label(closure, labels, names)
            }
            None => Err(LowerFault::BadOption {
                place: closure.place,
            }),
        }
    }

    /// The parameters of a closure of labels have different names.
    fn check_params(&self, closure: &ClosureExpr, names: &BodyNames) -> Result<(), LowerFault>
        ensures { (a : walk.Around) (s : walk.Scope) → IsBody N.titles N.answer self.now names.now a s
            → Judges (uses_fault a.given a.definitions (known_in a s) in_run
            (params_uses (params_in closure.now.params))) result }
    {
        let params = copy_params(self.alloc, &closure.params)?;
        let alone = ClosureExpr::new(
            closure.place,
            params,
            ClosureBody::statements(Vec::new(self.alloc)),
        );
        self.check_closure(&alone, names, Reading::InRun)
    }

    /// Each of the labels.
    fn each_label(
        &self,
        closure: &ClosureExpr,
        labels: &[Label],
        names: &BodyNames,
    ) -> Result<(Vec<Txt>, Vec<Closure>), LowerFault>
        ensures { (a : walk.Around) (s : walk.Scope) → IsBody N.titles N.answer self.now names.now a s
            → HasParams a s closure.now
            → Gives (AreLabelled a s closure.now labels.now) (judged_labels a s closure.now labels.now) result }
    {
        let mut titles = Vec::new(self.alloc);
        let mut closures = Vec::new(self.alloc);
        for label in labels {
            let stored = self.label(closure, label, &titles, names)?;
            closures.push(stored)?;
            titles.push(label.name.copy()?)?;
        }
        Ok((titles, closures))
    }

    /// One of them, after those with these titles.
    fn label(
        &self,
        closure: &ClosureExpr,
        label: &Label,
        titles: &[Txt],
        names: &BodyNames,
    ) -> Result<Closure, LowerFault>
        ensures { (a : walk.Around) (s : walk.Scope) → IsBody N.titles N.answer self.now names.now a s
            → HasParams a s closure.now
            → Gives (IsLabelled a s closure.now label.now) (judged_label a s closure.now titles.now label.now) result }
    {
        if has_title(titles, label.name.as_str()) {
            return Err(LowerFault::TwiceDefined { place: label.place });
        }
        let alone = label_alone(self.alloc, closure, label)?;
        self.check_closure(&alone, names, Reading::InRun)?;
        Ok(self.captured(&alone, names, Reading::InRun)?)
    }
}

/// Whether a name is one of these.
fn has_title(titles: &[Txt], name: &str) -> bool
    ensures { result ≡ is_among name.now titles.now }
{
    for title in titles {
        if title.as_str() == name {
            return true;
        }
    }
    false
}

/// The closure with this label alone.
fn label_alone(alloc: Global, closure: &ClosureExpr, label: &Label) -> Result<ClosureExpr, Mem>
    ensures { IfOk result (λ c. view_closure c ≡ with_only closure.now label.now) }
{
    let params = copy_params(alloc, &closure.params)?;
    let mut labels = Vec::new(alloc);
    labels.push(label.copy(alloc)?)?;
    Ok(ClosureExpr::new(closure.place, params, ClosureBody::labels(labels)))
}

/// A copy of parameters.
fn copy_params(
    alloc: Global,
    params: &Option<Vec<(Place, Txt)>>,
) -> Result<Option<Vec<(Place, Txt)>>, Mem>
    ensures { IfOk result (λ copy. params_in copy ≡ params_in params.now) }
{
    match params {
        None => Ok(None),
        Some(list) => Ok(Some(copy_names(alloc, list)?)),
    }
}

/// A copy of names with their places.
fn copy_names(alloc: Global, names: &[(Place, Txt)]) -> Result<Vec<(Place, Txt)>, Mem>
    ensures { IfOk result (λ copy. copy.items ≡ names.now) }
{
    let mut copies = Vec::new(alloc);
    for (place, name) in names {
        copies.push((*place, name.copy()?))?;
    }
    Ok(copies)
}
