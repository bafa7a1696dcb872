//! The code of a list of inputs.

ghost use Rattle.std.specs.Prelude.{◌≡◌, IfOk, OnOk};
ghost use Rattle.nf_value.specs.Plain.{list, plains_of};
ghost use Rattle.nf_job.specs.JobText.{inputs_text};
ghost use Rattle.nf_job.specs.Sizes.{IsFit};

use nf_codec::encode_text;
use nf_value::{Mem, Txt, Vals, Value};
use std::alloc::Global;

/// The code of a list of inputs as a text. Equal lists have equal codes, distinct lists distinct ones. A list that has a code has
/// numbers, lengths and counts that fit 64 bits, as the laws on jobs require.
///
/// # Errors
///
/// `Mem` if there is no memory for it.
pub fn inputs_code(alloc: Global, inputs: &Vals) -> Result<Txt, Mem>
    ensures code { IfOk result (λ t. t ≡ inputs_text inputs.now) }
    ensures fit { OnOk result (IsFit (list (plains_of inputs.now))) }
{
    let list = Value::List(inputs.copy()?);
    let code = encode_text(alloc, &list)?;
    Ok(code)
}
