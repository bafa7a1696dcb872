//! `Surroundings`: what all bodies of a script have around them.

ghost use Rattle.std.specs.Prelude.{◌≡◌, ℕ, List, IfOk};
ghost use Rattle.nf_value.specs.Plain.{Plain, table, plain_pairs_of};
ghost use Rattle.nf_value.specs.View.{plain_of};
ghost use Rattle.nf_meaning.specs.Given.{Given};
ghost use Rattle.nf_meaning.specs.Script.{around};
ghost use Rattle.nf_ast.specs.View.{view_closure};
ghost use Rattle.nf_relevant.specs.Reads.{AreAlike};
ghost use Rattle.nf_bodies.specs.Means.{GivesAs};
ghost use Rattle.nf_eval.specs.Memory.{closing, env_of};
ghost use Rattle.nf_meaning.specs.Closures.{env_for};
ghost use Rattle.nf_meaning.specs.Walk as walk;
ghost use Rattle.nf_known.specs.Reading.{reading_of};

use crate::everywhere::Everywhere;
use crate::view::View;
use nf_ast::ClosureExpr;
use nf_builtins::Natives;
use nf_eval::{Closure, Env, Library};
use nf_known::{KnownScript, Reading};
use nf_scopes::BodyNames;
use nf_value::{Mem, Txt, Value};
use std::alloc::Global;
use std::sync::Arc;

/// What all bodies of a script have around them (own): its definitions, its functions and patterns, the program's
/// functions, and the names that have a value everywhere. Contracts see `IsAround`, and for a body with its names
/// `IsBody`.
#[derive(Drop)]
pub struct Surroundings<'a, N> {
    pub(crate) alloc: Global,
    /// The script's definitions, and what is wrong with its functions.
    pub known: KnownScript<'a, N>,
    pub(crate) natives: &'a N,
    pub(crate) everywhere: Everywhere,
}

impl<'a, N: Natives> Surroundings<'a, N> {
    ghost use Rattle.nf_around.specs.Around.{HasFolders, HasGiven, IsAround, IsBody};

    /// What the bodies of a script have around them. `params` is the map of the parameters that are set, `folder` the
    /// folder of the script and `launch` that of the run, as texts. Takes no memory.
    pub fn new(
        alloc: Global,
        known: KnownScript<'a, N>,
        library: Arc<Library>,
        natives: &'a N,
        params: Value,
        folder: Value,
        launch: Value,
    ) -> Surroundings<'a, N>
        ensures natives { result.natives.now ≡ natives.now }
        ensures around { (g : Given) (ps : List (List ℕ × Plain))
            → HasGiven N.titles N.answer known.entry natives.now library.value g
            → HasFolders params folder launch g ps → IsAround N.titles N.answer result (around g ps) }
    {
        Surroundings {
            alloc,
            known,
            natives,
            everywhere: Everywhere {
                params,
                folder,
                launch,
                library,
            },
        }
    }

    /// Other parameters are set: `params` is their map. Takes no memory.
    pub fn set_params(&mut self, params: Value)
        ensures natives { self.new.natives.now ≡ self.old.natives.now }
        ensures around { (g : Given) (ps : List (List ℕ × Plain)) (qs : List (List ℕ × Plain))
            → IsAround N.titles N.answer self.old (around g ps)
            → plain_of params ≡ table (plain_pairs_of qs) → IsAround N.titles N.answer self.new (around g qs) }
    {
        self.everywhere.params = params;
    }

    /// The memory. Takes none.
    pub fn alloc(&self) -> Global {
        self.alloc
    }

    /// The program's functions. Takes no memory.
    pub fn natives(&self) -> &'a N
        ensures { result.now ≡ self.now.natives.now }
    {
        self.natives
    }

    /// An environment of a body in which these names have the values that they have there. It holds no other name.
    pub(crate) fn env(&self, used: &[Txt], names: &BodyNames, reading: Reading) -> Result<Env, Mem>
        ensures { IfOk result (λ e. (a : walk.Around) (s : walk.Scope) → IsBody N.titles N.answer self.now names.now a s
            → AreAlike used.now (env_of e a.given.program.titles a.given.program.answer)
            (env_for (reading_of reading) a s)) }
    {
        let view = View {
            everywhere: &self.everywhere,
            names,
            reading,
        };
        view.env(self.alloc, used)
    }

    /// The closure of this code, made in a body. It keeps the names that stand in it alone.
    pub(crate) fn captured(
        &self,
        code: &ClosureExpr,
        names: &BodyNames,
        reading: Reading,
    ) -> Result<Closure, Mem>
        ensures { IfOk result (λ c. (a : walk.Around) (s : walk.Scope) → IsBody N.titles N.answer self.now names.now a s
            → GivesAs a.given.program c (closing (view_closure code.now) (env_for (reading_of reading) a s))) }
    {
        let view = View {
            everywhere: &self.everywhere,
            names,
            reading,
        };
        view.closure(self.alloc, code)
    }
}
