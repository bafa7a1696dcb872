//! Outputs of calls, by their names and places.

ghost use Rattle.nf_ast.specs.View.{view};
ghost use Rattle.nf_scopes.specs.Things.{thing_of};
ghost use Rattle.nf_follows.specs.Things.{ThingReads};
ghost use Rattle.nf_walked.specs.Around.{CanWalk, Knows};
ghost use Rattle.nf_walked.specs.Forms.{a_thing};
ghost use Rattle.nf_walked.specs.Members.{indexed};
ghost use Rattle.nf_walked.specs.Parts.{free_member_at, name_member_at, of_thing};
ghost use Rattle.nf_walked.specs.Steps.{Walked, due};
ghost use Rattle.nf_calling.specs.Outs.{out_at};

use nf_ast::Expr;
use nf_builtins::Natives;
use nf_fronts::Front;
use nf_leading::{is_channel_word, member_of, output_at};
use nf_lowered::begins_at;
use nf_lowering::{Lowering, copy_thing};
use nf_meaning::LowerFault;
use nf_scopes::Thing;
use nf_value::{Place, Txt};
use nf_walked::{Walker, bad_option};

/// `object.name` of a name (Nextflow reference documentation, "Workflows", "Accessing outputs"): an output of what the
/// body binds to the name, or else `P.out` of a process or a workflow P that was called in the body. The object stands at
/// `at`, and the name after the dot at `place`.
///
/// # Errors
///
/// Of a name that is bound `UnknownName` at `place` if no output has that name, and `BadOption` there of a channel, and at
/// `at` of a value. Else `BadOption` at `place` for any part of `channel` and for any other than `out`, and `UnknownName` at
/// `at` if nothing of that name was called. `Mem` for want of memory.
pub fn name_member<N: Natives>(
    walker: &Walker<'_, N>,
    state: &Lowering,
    at: Place,
    object: &str,
    place: Place,
    name: &Txt,
) -> Result<Thing, LowerFault>
    requires { CanWalk N.titles N.answer N.keeps walker.now state.now }
    ensures { Walked (Knows N.titles N.answer walker.now)
        (due a_thing (name_member_at at object.now place name.now)) state.now state.now result }
{
    match state.names().thing(object) {
        Some(thing) => member_of(at, place, name, thing),
        None => free_member(walker, state, at, object, place, name),
    }
}

/// The same of a name that nothing in the body binds.
fn free_member<N: Natives>(
    walker: &Walker<'_, N>,
    state: &Lowering,
    at: Place,
    object: &str,
    place: Place,
    name: &Txt,
) -> Result<Thing, LowerFault>
    requires { CanWalk N.titles N.answer N.keeps walker.now state.now }
    ensures { Walked (Knows N.titles N.answer walker.now)
        (due a_thing (free_member_at at object.now place name.now)) state.now state.now result }
{
    if is_channel_word(object) {
        return bad_option(place);
    }
    if name.as_str() == "out" {
        return called_out(walker, state, at, object);
    }
    bad_option(place)
}

/// What the call of a process or a workflow gave that was called in the body.
fn called_out<N: Natives>(
    walker: &Walker<'_, N>,
    state: &Lowering,
    at: Place,
    called: &str,
) -> Result<Thing, LowerFault>
    requires { CanWalk N.titles N.answer N.keeps walker.now state.now }
    ensures { Walked (Knows N.titles N.answer walker.now) (due a_thing (out_at at called.now)) state.now state.now result }
{
    match state.call(called) {
        Some(thing) => Ok(copy_thing(walker.alloc, thing)?),
        None => Err(LowerFault::UnknownName { place: at }),
    }
}

/// `e[i]`: the output at a place among those of a call (Nextflow reference documentation, "Workflows", "Accessing
/// outputs"). The expression e begins at `begin`, and its bracket stands at `place`.
///
/// # Errors
///
/// `BadOption` at `place` of a channel, and at `begin` of a value. Else the first fault of the index; `BadOption` where it
/// begins if it is no number; `UnknownName` at `place` if no output has that place. `Mem` for want of memory.
pub fn output_of<N: Natives>(
    walker: &Walker<'_, N>,
    state: &Lowering,
    begin: Place,
    place: Place,
    index: &Expr,
    thing: Thing,
) -> Result<Thing, LowerFault>
    requires before { CanWalk N.titles N.answer N.keeps walker.now state.now }
    requires reads { ThingReads state.now.plan (thing_of thing) }
    ensures { Walked (Knows N.titles N.answer walker.now)
        (of_thing thing a_thing (indexed begin place (view index.now))) state.now state.now result }
{
    match thing {
        Thing::Outputs(outputs) => {
            let at = walker.value_of(state, Front::Whole(index))?;
            output_at(place, begins_at(index), &at, &outputs)
        }
        Thing::Channel(_) => bad_option(place),
        Thing::Known(_) => bad_option(begin),
    }
}
