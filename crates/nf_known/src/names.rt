//! `KnownScript`: what the names of a script stand for, and what is wrong with those of an expression.

ghost use Rattle.std.specs.Prelude.{◌≡◌, IfOk, map};
ghost use Rattle.nf_ast.specs.Tops.{view_top};
ghost use Rattle.nf_ast.specs.View.{trees, view, view_closure};
ghost use Rattle.nf_meaning.specs.Given.{Given};
ghost use Rattle.nf_meaning.specs.Names as spec;
ghost use Rattle.nf_known.specs.Known.{Question, wrong_with, wrong_with_name, wrong_with_uses};
ghost use Rattle.nf_known.specs.Reading.{reading_of};

use crate::around::Around;
use crate::patterns::PatternTexts;
use crate::reading::Reading;
use crate::uses::TopNames;
use indexmap::IndexMap;
use nf_ast::{ClosureExpr, Expr, Top};
use nf_builtins::Natives;
use nf_callees::Definitions;
use nf_meaning::LowerFault;
use nf_names_used::{Use, closure_uses, expr_uses};
use nf_value::{Mem, Place};
use std::alloc::Global;

/// What the names of a script stand for (own): its processes, workflows and functions, each function judged once; the program's functions; and the script's
/// patterns.
#[derive(Drop)]
pub struct KnownScript<'a, N> {
    pub(crate) top: TopNames<'a, N>,
    /// The functions that don't lead back, with what is wrong in each.
    pub(crate) judged: IndexMap<String, Option<LowerFault>>,
}

impl<'a, N: Natives> KnownScript<'a, N> {
    ghost use Rattle.nf_known.specs.Script.{IsScript};
    ghost use Rattle.nf_known.specs.Known.{IsAsked, IsKnownScript};

    /// What the names of a script stand for. Takes time by the size of its functions.
    ///
    /// # Errors
    ///
    /// `Mem` if there is no memory for it.
    pub fn new(
        alloc: Global,
        tops: &'a [Top],
        patterns: &'a PatternTexts,
        natives: &'a N,
    ) -> Result<KnownScript<'a, N>, Mem>
        ensures { IfOk result (λ s. (g : Given) → IsScript tops.now (N.titles natives.now) patterns.now g
            → IsKnownScript N.titles s g) }
    {
        let top = TopNames {
            definitions: Definitions::new(alloc, tops)?,
            patterns,
            natives,
        };
        let judged = top.judge_functions(alloc)?;
        Ok(KnownScript { top, judged })
    }

    /// The script's definitions. Takes no memory.
    pub fn definitions(&self) -> &Definitions<'a>
        ensures { (g : Given) → IsKnownScript N.titles self.now g → g.tops ≡ trees (map view_top result.now) }
    {
        &self.top.definitions
    }

    /// What is wrong with the text of a pattern: the grammar of `regex` reads no pattern in it, or it is too large (own). Takes no memory.
    pub fn pattern_fault(&self, place: Place, text: &str) -> Option<LowerFault>
        ensures { (g : Given) → IsKnownScript N.titles self.now g → result ≡ spec.pattern_fault g place text.now }
    {
        self.top.patterns.fault(place, text)
    }

    /// What is wrong with a name that is read (own). Takes no memory.
    pub fn name_fault(
        &self,
        place: Place,
        name: &str,
        around: &Around<'_>,
        reading: Reading,
    ) -> Option<LowerFault>
        ensures { (q : Question) → IsAsked N.titles self.now around.now q
            → result ≡ wrong_with_name q (reading_of reading) place name.now }
    {
        self.top.name_fault(place, name, around, reading)
    }

    /// What is wrong with an expression (own): first with its names, in the order of the text, then in the functions that it leads to. Takes time by the
    /// number of names.
    ///
    /// # Errors
    ///
    /// `Mem` if there is no memory for it.
    pub fn names_fault(
        &self,
        alloc: Global,
        expr: &Expr,
        around: &Around<'_>,
        reading: Reading,
    ) -> Result<Option<LowerFault>, Mem>
        ensures { IfOk result (λ o. (q : Question) → IsAsked N.titles self.now around.now q
            → o ≡ wrong_with q (reading_of reading) (view expr.now)) }
    {
        let uses = expr_uses(alloc, expr)?;
        self.uses_fault(alloc, &uses, around, reading)
    }

    /// The same of a closure.
    ///
    /// # Errors
    ///
    /// `Mem` if there is no memory for it.
    pub fn closure_fault(
        &self,
        alloc: Global,
        closure: &ClosureExpr,
        around: &Around<'_>,
        reading: Reading,
    ) -> Result<Option<LowerFault>, Mem>
        ensures { IfOk result (λ o. (q : Question) → IsAsked N.titles self.now around.now q
            → o ≡ wrong_with q (reading_of reading) (view_closure closure.now)) }
    {
        let uses = closure_uses(alloc, closure)?;
        self.uses_fault(alloc, &uses, around, reading)
    }

    /// The same of an expression's uses, as `expr_uses` of `nf_names_used` lists them. A caller may leave out those of names that it binds itself.
    ///
    /// # Errors
    ///
    /// `Mem` if there is no memory for it.
    pub fn uses_fault(
        &self,
        alloc: Global,
        uses: &[Use],
        around: &Around<'_>,
        reading: Reading,
    ) -> Result<Option<LowerFault>, Mem>
        ensures { IfOk result (λ o. (q : Question) → IsAsked N.titles self.now around.now q
            → o ≡ wrong_with_uses q (reading_of reading) uses.now) }
    {
        if let Some(fault) = self.top.uses_fault(uses, around, reading) {
            return Ok(Some(fault));
        }
        self.called_fault(alloc, uses)
    }
}
