//! Sources of channels, by their names.

ghost use Rattle.nf_taken.specs.Sources.{IsSourceWanted, IsTaking};

use nf_meaning::LowerFault;
use nf_opargs::Source;
use nf_value::Place;

/// The source of a call with so many arguments without a name; the source's name stands at `place` (Nextflow reference
/// documentation, "Channel factories"). Takes no memory.
///
/// # Errors
///
/// `UnknownName` at the name if no source has it; then `WrongArity` there if it takes another number.
pub fn source_wanted(place: Place, name: &str, count: usize) -> Result<Source, LowerFault>
    ensures { IsSourceWanted place name.now count result }
{
    match Source::named(name) {
        Some(source) => taking(place, source, count),
        None => Err(LowerFault::UnknownName { place }),
    }
}

fn taking(place: Place, source: Source, count: usize) -> Result<Source, LowerFault>
    ensures { IsTaking place source count result }
{
    if source.takes(count) {
        Ok(source)
    } else {
        Err(LowerFault::WrongArity { place })
    }
}
