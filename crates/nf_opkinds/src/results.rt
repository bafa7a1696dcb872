//! Results of calls with their outputs.

ghost use Rattle.std.specs.Prelude.{◌≡◌, ◌++◌, IfOk, OnOk};
ghost use Rattle.nf_opkinds.specs.Results as spec;

use nf_kinds::{Key, Kinds, Output, Shape};
use nf_value::{Mem, Txt};
use std::alloc::Global;

/// A result with these outputs, in their order, each with its name if it has one.
pub fn shape_of(alloc: Global, outputs: &[(Option<Txt>, Kinds)]) -> Result<Shape, Mem>
    ensures { IfOk result (λ s. s ≡ spec.shape_of outputs.now) }
{
    let mut keyed = Vec::new(alloc);
    for (place, output) in outputs.iter().enumerate() {
        add_output(place, output, &mut keyed)?;
    }
    Ok(Shape::called(whole_of(outputs), keyed))
}

/// Adds an output by its place, and by its name if it has one.
fn add_output(
    place: usize,
    output: &(Option<Txt>, Kinds),
    keyed: &mut Vec<Output>,
) -> Result<(), Mem>
    ensures { OnOk result (keyed.new.items ≡ keyed.old.items ++ spec.output_at place output.now) }
{
    let key = Key::At(place);
    let kinds = output.1;
    keyed.push(Output { key, kinds })?;
    add_named(&output.0, kinds, keyed)
}

fn add_named(name: &Option<Txt>, kinds: Kinds, keyed: &mut Vec<Output>) -> Result<(), Mem>
    ensures { OnOk result (keyed.new.items ≡ keyed.old.items ++ spec.named_output name.now kinds) }
{
    match name {
        Some(name) => {
            let key = Key::Called(name.copy()?);
            keyed.push(Output { key, kinds })?;
            Ok(())
        }
        None => Ok(()),
    }
}

/// What the whole of a result may be: its one output, or what has several or none.
fn whole_of(outputs: &[(Option<Txt>, Kinds)]) -> Kinds
    ensures { result ≡ spec.whole_kind outputs.now }
{
    match outputs {
        [(_, kinds)] => *kinds,
        _ => Kinds::none(),
    }
}

/// Outputs of these names, which are all of one kind.
pub(crate) fn all_of_kind(
    alloc: Global,
    kinds: Kinds,
    names: Vec<Option<Txt>>,
) -> Result<Vec<(Option<Txt>, Kinds)>, Mem>
    ensures { IfOk result (λ v. v.items ≡ spec.all_of_kind kinds names.items) }
{
    let mut outputs = Vec::new(alloc);
    for name in names {
        outputs.push((name, kinds))?;
    }
    Ok(outputs)
}

/// The same, which may be a plain value too if `may_be_plain` (own): so it is of what has a method of an operator's
/// name.
pub fn or_plain(alloc: Global, may_be_plain: bool, shape: Shape) -> Result<Shape, Mem>
    ensures { IfOk result (λ s. s ≡ spec.or_plain may_be_plain shape) }
{
    if may_be_plain {
        return shape.merged(alloc, &Shape::alone(Kinds::plain()));
    }
    Ok(shape)
}
