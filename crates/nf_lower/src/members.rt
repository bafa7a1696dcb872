//! Outputs of calls, by their names and places.

ghost use Rattle.nf_ast.specs.View.{view};
ghost use Rattle.nf_meaning.specs.Workflow.{part_of};
ghost use Rattle.nf_fronts.specs.Fronts.{tree_of};
ghost use Rattle.nf_walked.specs.Around.{CanWalk, Knows};
ghost use Rattle.nf_walked.specs.Forms.{a_thing};
ghost use Rattle.nf_walked.specs.Parts.{index_at};
ghost use Rattle.nf_walked.specs.Members.{member_at};
ghost use Rattle.nf_walked.specs.Steps.{Walked, due};

use crate::things::thing;
use nf_ast::Expr;
use nf_builtins::Natives;
use nf_calling::{name_member, output_of};
use nf_fronts::{Front, Last};
use nf_leading::member_of;
use nf_lowering::Lowering;
use nf_meaning::LowerFault;
use nf_scopes::Thing;
use nf_value::{Place, Txt};
use nf_walked::{Walker, begin};

/// `e.name`.
#[cycle(lower)]
pub(crate) fn member<N: Natives>(
    walker: &Walker<'_, N>,
    state: &mut Lowering,
    front: Front<'_>,
    place: Place,
    name: &Txt,
) -> Result<Thing, LowerFault>
    requires { CanWalk N.titles N.answer N.keeps walker.now state.old }
    ensures { Walked (Knows N.titles N.answer walker.now)
        (due a_thing ((part_of (tree_of front.entry)).member place name.now)) state.old state.new result }
{
    match front.last() {
        Last::Name(at, object) => name_member(walker, state, at, object.as_str(), place, name),
        Last::List(_, _)
        | Last::Property(_, _, _)
        | Last::Index(_, _, _)
        | Last::Call(_, _, _)
        | Last::With(_, _)
        | Last::Pipe(_, _, _)
        | Last::Conditional(_, _, _, _)
        | Last::Other => thing_member(walker, state, front, place, name),
    }
}

/// The same of what is no name.
#[cycle(lower)]
fn thing_member<N: Natives>(
    walker: &Walker<'_, N>,
    state: &mut Lowering,
    front: Front<'_>,
    place: Place,
    name: &Txt,
) -> Result<Thing, LowerFault>
    requires { CanWalk N.titles N.answer N.keeps walker.now state.old }
    ensures { Walked (Knows N.titles N.answer walker.now)
        (due a_thing (member_at (tree_of front.entry) place name.now)) state.old state.new result }
{
    let thing = thing(walker, state, front)?;
    member_of(begin(front), place, name, &thing)
}

/// `e[i]`.
#[cycle(lower)]
pub(crate) fn index_of<N: Natives>(
    walker: &Walker<'_, N>,
    state: &mut Lowering,
    front: Front<'_>,
    place: Place,
    index: &Expr,
) -> Result<Thing, LowerFault>
    requires { CanWalk N.titles N.answer N.keeps walker.now state.old }
    ensures { Walked (Knows N.titles N.answer walker.now)
        (due a_thing (index_at (tree_of front.entry) place (view index.now))) state.old state.new result }
{
    let thing = thing(walker, state, front)?;
    output_of(walker, state, begin(front), place, index, thing)
}
