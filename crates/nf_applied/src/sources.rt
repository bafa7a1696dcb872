//! Sources whose items are known.

ghost use Rattle.std.specs.Prelude.{◌≡◌, ◌≤◌, length, true};
ghost use Rattle.nf_plan.specs.Plans.{HasRoom};
ghost use Rattle.nf_walked.specs.Around.{CanWalk, Knows};
ghost use Rattle.nf_applied.specs.Rooms.{Used};
ghost use Rattle.nf_applied.specs.Sources.{gives_value, of_items};

use nf_builtins::Natives;
use nf_lowering::Lowering;
use nf_meaning::LowerFault;
use nf_opargs::Source;
use nf_plan::SourceCall;
use nf_scopes::Thing;
use nf_value::{Place, Txt, Vals, Value};
use nf_walked::Walker;

/// The channel of a source that is counted, and whose items are known (Nextflow reference documentation, "Channel
/// factories"). The source's name stands at `place`.
///
/// # Errors
///
/// `Mem` for want of memory.
pub fn give_source<N: Natives>(
    walker: &Walker<'_, N>,
    state: &mut Lowering,
    place: Place,
    name: &Txt,
    source: Source,
    items: Vec<Value>,
) -> Result<Thing, LowerFault>
    requires before { CanWalk N.titles N.answer N.keeps walker.now state.old }
    requires room { HasRoom state.old.plan 0 }
    requires single { gives_value source ≡ true → length items.items ≤ 1 }
    ensures { Used (Knows N.titles N.answer walker.now) 1 0 (of_items source items) state.old state.new result }
{
    let name = name.copy()?;
    let call = SourceCall {
        name,
        place,
        items: Vals::of(items),
        value: is_value(source),
    };
    let port = walker.source(state, call)?;
    Ok(Thing::Channel(port))
}

/// Whether a source gives a value channel.
fn is_value(source: Source) -> bool
    ensures { result ≡ gives_value source }
{
    match source {
        Source::Value => true,
        Source::Of | Source::FromList | Source::Empty | Source::FromPath | Source::FromFilePairs =>
            false,
    }
}
