//! What goes through the bodies of a script from its entry on.

ghost use Rattle.std.specs.Prelude.{◌≡◌, ℕ, List};
ghost use Rattle.nf_value.specs.Plain.{Plain};
ghost use Rattle.nf_callees.specs.Found.{defined_in};
ghost use Rattle.nf_meaning.specs.CallPaths.{NamesArePlain};
ghost use Rattle.nf_meaning.specs.Given.{Given};
ghost use Rattle.nf_meaning.specs.Script.{around as around_of, entry_around};
ghost use Rattle.nf_around.specs.Around.{IsAround};
ghost use Rattle.nf_lowering.specs.State.{IsLowering};
ghost use Rattle.nf_lowering.specs.declared.state.Lowering.{Lowering};
ghost use Rattle.nf_plan.specs.Runs.{Run};
ghost use Rattle.nf_walked.specs.Around.{CanWalk, Knows};
ghost use Rattle.nf_calling.specs.Entries.{IsRunOf, StandsAround};

use indexmap::IndexMap;
use nf_around::Surroundings;
use nf_ast::Top;
use nf_builtins::Natives;
use nf_tops::named_workflows;
use nf_value::FileRef;
use nf_walked::Walker;
use std::alloc::Global;

/// What goes through the bodies of a script, from its entry on (own): calls of workflows lead on from there as often as the script has
/// workflows with a name. `found` has the files that were found, by the paths of their sources. Takes no memory.
pub fn walker_of<'a, N: Natives>(
    alloc: Global,
    tops: &[Top],
    around: &'a Surroundings<'a, N>,
    found: &'a IndexMap<String, &'a [FileRef]>,
) -> Walker<'a, N>
    ensures natives { result.around.now.natives.now ≡ around.now.natives.now }
    ensures knows { (g : Given) (ps : List (List ℕ × Plain)) (r : Run) → IsRunOf tops.now found.now.entries g r
        → IsAround N.titles N.answer around.now (around_of g ps) → Knows N.titles N.answer result r (entry_around g ps) }
    ensures walks { (z : Lowering) → N.keeps around.now.natives.now → StandsAround N.titles N.answer tops.now around.now
        → NamesArePlain (defined_in tops.now) → IsLowering z → CanWalk N.titles N.answer N.keeps result z }
{
    Walker {
        alloc,
        definitions: around.known.definitions(),
        around,
        found,
        left: named_workflows(tops),
    }
}
