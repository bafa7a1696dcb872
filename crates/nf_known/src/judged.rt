//! The functions of a script that don't lead back, with what is wrong in each.

ghost use Rattle.std.specs.Prelude.{◌≡◌, IfOk, OnOk};
ghost use Rattle.nf_meaning.specs.Given.{Given};
ghost use Rattle.nf_callees.specs.Found.{HasFunctions, defined_in};
ghost use Rattle.nf_known.specs.Judged.{IsMore, JudgesAll, JudgesAt, NoneIsReady, call_in, calls_in, fault_after, is_ready, is_ready_use};

use crate::around::Around;
use crate::order::callees_first;
use crate::reading::Reading;
use crate::uses::TopNames;
use indexmap::IndexMap;
use nf_builtins::Natives;
use nf_callees::DefinedFunction;
use nf_meaning::LowerFault;
use nf_names_used::{Use, UseKind};
use nf_value::Mem;
use std::alloc::Global;

/// Functions by name, with what is wrong in each.
type Faults = IndexMap<String, Option<LowerFault>>;

/// The functions of a script by name.
type Functions<'a> = IndexMap<String, DefinedFunction<'a>>;

impl<'a, N: Natives> TopNames<'a, N> {
    ghost use Rattle.nf_known.specs.Script.{HasProgram};
    ghost use Rattle.nf_known.specs.Judged.{AreJudged, StayJudged};

    /// What is wrong in each function that doesn't lead back to a function in which it stands.
    pub(crate) fn judge_functions(&self, alloc: Global) -> Result<Faults, Mem>
        ensures judged { IfOk result (λ m. (g : Given) → HasProgram N.titles self.now g
            → AreJudged g (defined_in self.now.definitions) m.entries) }
        ensures whole { IfOk result (λ m. NoneIsReady (defined_in self.now.definitions) m.entries) }
    {
        let functions = self.definitions.functions();
        let mut judged = IndexMap::new(alloc);
        for at in callees_first(alloc, functions)? {
            self.judge_at(alloc, at, functions, &mut judged)?;
        }
        'rounds: loop {
            if !self.judge_all(alloc, functions, &mut judged)? {
                return Ok(judged);
            }
        }
    }

    /// Judges each function that calls only those that are judged by then, and says whether there was one.
    fn judge_all(
        &self,
        alloc: Global,
        functions: &Functions<'a>,
        judged: &mut Faults,
    ) -> Result<bool, Mem>
        requires { HasFunctions (defined_in self.now.definitions) functions.now.entries }
        ensures judged { OnOk result (StayJudged N.titles self.now judged.old.entries judged.new.entries) }
        ensures more { IfOk result (λ more.
            IsMore (defined_in self.now.definitions) more judged.old.entries judged.new.entries) }
        ensures whole { IfOk result (λ more. JudgesAll (defined_in self.now.definitions) judged.new.entries more) }
    {
        let mut more = false;
        for at in 0..functions.len() {
            if self.judge_at(alloc, at, functions, judged)? {
                more = true;
            }
        }
        Ok(more)
    }

    /// Judges the function at this place, if it calls only those that are judged, and says whether it did.
    fn judge_at(
        &self,
        alloc: Global,
        at: usize,
        functions: &Functions<'a>,
        judged: &mut Faults,
    ) -> Result<bool, Mem>
        requires { HasFunctions (defined_in self.now.definitions) functions.now.entries }
        ensures judged { OnOk result (StayJudged N.titles self.now judged.old.entries judged.new.entries) }
        ensures more { IfOk result (λ more.
            IsMore (defined_in self.now.definitions) more judged.old.entries judged.new.entries) }
        ensures settled { IfOk result (λ more.
            JudgesAt (defined_in self.now.definitions) functions.now.entries at judged.new.entries more) }
    {
        let Some((name, function)) = functions.get_index(at) else {
            return Ok(false);
        };
        if judged.contains_key(name.as_str()) {
            return Ok(false);
        }
        if !self.is_ready(&function.uses, functions, judged) {
            return Ok(false);
        }
        let fault = self.fault_after(&function.uses, judged);
        judged.insert(name.clone()?, fault)?;
        Ok(true)
    }

    /// Whether these uses call only functions that are judged.
    fn is_ready(&self, uses: &[Use], functions: &Functions<'a>, judged: &Faults) -> bool
        requires { HasFunctions (defined_in self.now.definitions) functions.now.entries }
        ensures { result ≡ is_ready (defined_in self.now.definitions) judged.now.entries uses.now }
    {
        for one in uses {
            if !self.is_ready_use(one, functions, judged) {
                return false;
            }
        }
        true
    }

    fn is_ready_use(&self, one: &Use, functions: &Functions<'a>, judged: &Faults) -> bool
        requires { HasFunctions (defined_in self.now.definitions) functions.now.entries }
        ensures { result ≡
            is_ready_use (defined_in self.now.definitions) judged.now.entries one.now.kind one.now.text }
    {
        let text = one.text.as_str();
        match one.kind {
            UseKind::Function => !functions.contains_key(text) || judged.contains_key(text),
            UseKind::Name | UseKind::Assigned | UseKind::Again | UseKind::Pattern => true,
        }
    }

    /// What is wrong in a function with these uses, which call only functions that are judged.
    fn fault_after(&self, uses: &[Use], judged: &Faults) -> Option<LowerFault>
        ensures { (g : Given) → HasProgram N.titles self.now g
            → result ≡ fault_after g (defined_in self.now.definitions) judged.now.entries uses.now }
    {
        if let Some(fault) = self.uses_fault(uses, &Around::Nothing, Reading::InRun) {
            return Some(fault);
        }
        called_fault(uses, judged)
    }
}

/// The first fault of judged functions that these uses call.
fn called_fault(uses: &[Use], judged: &Faults) -> Option<LowerFault>
    ensures { result ≡ calls_in judged.now.entries uses.now }
{
    for one in uses {
        if let Some(fault) = judged_call(one, judged) {
            return Some(fault);
        }
    }
    None
}

fn judged_call(one: &Use, judged: &Faults) -> Option<LowerFault>
    ensures { result ≡ call_in judged.now.entries one.now.kind one.now.text }
{
    match one.kind {
        UseKind::Function => match judged.get(one.text.as_str()) {
            Some(fault) => *fault,
            None => None,
        },
        UseKind::Name | UseKind::Assigned | UseKind::Again | UseKind::Pattern => None,
    }
}
