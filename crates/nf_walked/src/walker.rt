//! `Walker`: what goes through the bodies of a script.

ghost use Rattle.std.specs.Prelude.{◌≡◌, Err};
ghost use Rattle.nf_meaning.specs.Names.{called_by};
ghost use Rattle.nf_ast.specs.View.{view};
ghost use Rattle.nf_meaning.specs.Places.{begins_at as place_of};
ghost use Rattle.nf_meaning.specs.Workflow.{done_with, part_of};
ghost use Rattle.nf_meaning.specs.declared.fault.LowerFault.TheVariants.{BadOption};
ghost use Rattle.nf_callees.specs.Callee.{called_of};
ghost use Rattle.nf_fronts.specs.Fronts.{tree_of};
ghost use Rattle.nf_callees.specs.Found.{defined_in};

use indexmap::IndexMap;
use nf_around::Surroundings;
use nf_ast::Expr;
use nf_builtins::Natives;
use nf_callees::{Callee, Definitions};
use nf_fronts::Front;
use nf_lowered::begins_at;
use nf_meaning::LowerFault;
use nf_value::{FileRef, Place};
use std::alloc::Global;

/// What goes through the bodies of a script (own): each of its functions is one of the walks by which the meaning of
/// scripts is defined. Contracts see by `Knows` which script and which run it is.
#[derive(Drop, Clone, Copy)]
pub struct Walker<'a, N> {
    /// The memory.
    pub alloc: Global,
    /// The definitions of the script.
    pub definitions: &'a Definitions<'a>,
    /// What is around all bodies.
    pub around: &'a Surroundings<'a, N>,
    /// The files that were found, by the paths of their sources.
    pub found: &'a IndexMap<String, &'a [FileRef]>,
    /// To how many calls of workflows the body at hand may still lead, each in the body of the one before.
    pub left: usize,
}

impl<'a, N: Natives> Walker<'a, N> {
    /// What a name is where it is called. Takes no memory.
    pub fn callee(&self, name: &str) -> Callee<'a>
        ensures { called_of result ≡ called_by (defined_in self.now.definitions.now)
            (N.titles self.now.around.now.natives.now) name.now }
    {
        self.definitions.callee(name, self.around.natives())
    }
}

/// Where an expression, or the front of one, begins. Takes no memory.
pub fn begin(front: Front<'_>) -> Place
    ensures { result ≡ place_of (tree_of front.entry) }
{
    match front {
        Front::Whole(expr) => begins_at(expr),
        Front::Operands(first, _) => begins_at(first),
        Front::Turns(first, _) => begins_at(first),
        Front::Parts(first, _) => begins_at(first),
    }
}

/// An expression that stands alone is gone through for what it stands for. It does nothing: it is called for its contract.
pub fn stands_alone(expr: &Expr)
    ensures { (part_of (view expr.now)).done ≡ done_with (place_of (view expr.now)) (part_of (view expr.now)).thing }
{
    let _last = Front::Whole(expr).last();
}

/// An argument or an option is of another kind than is wanted (own): `BadOption` at the place. Takes no memory.
pub fn bad_option<T>(place: Place) -> Result<T, LowerFault>
    ensures { result ≡ Err (BadOption place) }
{
    Err(LowerFault::BadOption { place })
}
