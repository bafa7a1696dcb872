//! `Setting`: a script with what stands outside of it.

ghost use Rattle.std.specs.Prelude.{◌≡◌, IfOk};
ghost use Rattle.nf_value.specs.Plain.{text};
ghost use Rattle.nf_value.specs.View.{plain_of};
ghost use Rattle.nf_callees.specs.Found.{defined_in};
ghost use Rattle.nf_eval.specs.Memory.{definitions_of};
ghost use Rattle.nf_lowered.specs.Given.{Gives};
ghost use Rattle.nf_meaning.specs.Functions.{in_order};
ghost use Rattle.nf_meaning.specs.Given.{Given};
ghost use Rattle.nf_meaning.specs.Script.{around, begun, tops_read};
ghost use Rattle.nf_around.specs.Around.{IsAround};

use nf_around::Surroundings;
use nf_ast::Top;
use nf_builtins::Natives;
use nf_declared::read_tops;
use nf_eval::Library;
use nf_known::{KnownScript, PatternTexts};
use nf_meaning::LowerFault;
use nf_value::{Mem, Pairs, Txt, Value};
use std::alloc::Global;
use std::sync::Arc;

/// A script with what stands outside of it, but for files and what comes of its tasks (own).
#[derive(Drop, Clone, Copy)]
pub struct Setting<'a, N> {
    /// What stands at the script's top.
    pub tops: &'a [Top],
    /// The texts of its patterns.
    pub texts: &'a PatternTexts,
    /// The parameters that are set from outside, which win over the script's.
    pub params: &'a Pairs,
    /// The folder of the script.
    pub folder: &'a str,
    /// The program's functions.
    pub natives: &'a N,
}

impl<'a, N: Natives> Setting<'a, N> {
    ghost use Rattle.nf_calling.specs.Settings.{IsSettingOf};

    /// What the bodies of the script have around them once its top is read (own): each name stands there once, and all parameters are set.
    /// `library` has the script's functions and patterns.
    ///
    /// # Errors
    ///
    /// The first fault at the script's top, as `read_tops` of `nf_declared` has it. `Mem` for want of memory.
    pub fn surroundings(
        &self,
        alloc: Global,
        library: Library,
    ) -> Result<Surroundings<'a, N>, LowerFault>
        requires natives { N.keeps self.now.natives.now }
        requires functions { definitions_of library ≡ in_order (defined_in self.now.tops.now).functions }
        ensures natives { IfOk result (λ s. s.natives.now ≡ self.now.natives.now) }
        ensures walk { (g : Given) → IsSettingOf N.titles N.answer self.now library g
            → Gives (λ s q. IsAround N.titles N.answer s (around g q.params)) (tops_read g g.tops (begun g)) result }
    {
        let before = self.before_tops(alloc, library)?;
        read_tops(alloc, self.tops, self.params, before)
    }

    /// The same before the top is read: the parameters are those that are set from outside.
    fn before_tops(&self, alloc: Global, library: Library) -> Result<Surroundings<'a, N>, Mem>
        requires { definitions_of library ≡ in_order (defined_in self.now.tops.now).functions }
        ensures natives { IfOk result (λ s. s.natives.now ≡ self.now.natives.now) }
        ensures stands { IfOk result (λ s. (g : Given) → IsSettingOf N.titles N.answer self.now library g
            → IsAround N.titles N.answer s (around g g.params)) }
    {
        let known = KnownScript::new(alloc, self.tops, self.texts, self.natives)?;
        let library = Arc::new(alloc, library)?;
        let params = Value::Map(self.params.copy()?);
        let folder = text_value(alloc, self.folder)?;
        let launch = text_value(alloc, ".")?;
        let made = Surroundings::new(alloc, known, library, self.natives, params, folder, launch);
        Ok(made)
    }
}

/// A text as a value.
fn text_value(alloc: Global, words: &str) -> Result<Value, Mem>
    ensures { IfOk result (λ v. plain_of v ≡ text words.now) }
{
    Ok(Value::Text(Txt::of(String::from_str(alloc, words)?)))
}
