//! `params_of`: the parameters in a file.

ghost use Rattle.nf_params.specs.Params.{params_in, params_of_text as params_of_text_of, params_of_data, Gives};
ghost use Rattle.serde_json.specs.View.{view};

use crate::fault::ParamsFault;
use crate::json::pairs_of;
use crate::pointer::here;
use nf_value::Pairs;
use serde_json::Value as Json;
use std::alloc::Global;

/// The parameters that the bytes of a file give: the members of a JSON object (RFC 8259; own: numbers are those of 64 signed bits). Of
/// members of one name the last counts. Null, truth values, integers, texts, lists and objects are values of these kinds.
///
/// # Errors
///
/// `BadParams` with the pointer to what is refused (RFC 6901); of several, the first in the order of keys and items, a list or object
/// before its members:
///
/// - the empty pointer, if `serde_json` reads no JSON in the bytes, or their value is no object;
/// - a number that `serde_json` doesn't give as an integer of 64 signed bits, as `1.0`, `1e2` or `9223372036854775808`;
/// - a value whose pointer has more than 64 parts.
///
/// `Mem` if there is no memory for the parameters.
pub fn params_of(alloc: Global, bytes: &[u8]) -> Result<Pairs, ParamsFault>
    ensures { Gives (λ ps. ps) (params_in bytes.now) result }
{
    match std::str::from_utf8(bytes) {
        Ok(text) => params_of_text(alloc, text),
        Err(_) => Err(here(alloc)),
    }
}

fn params_of_text(alloc: Global, text: &str) -> Result<Pairs, ParamsFault>
    ensures { Gives (λ ps. ps) (params_of_text_of text.now) result }
{
    match Json::from_str(alloc, text) {
        Ok(json) => params_of_json(alloc, &json),
        Err(error) => {
            if error.is_memory() {
                Err(ParamsFault::Mem)
            } else {
                Err(here(alloc))
            }
        }
    }
}

fn params_of_json(alloc: Global, json: &Json) -> Result<Pairs, ParamsFault>
    ensures { Gives (λ ps. ps) (params_of_data (view json.now)) result }
{
    match json.as_object() {
        Some(members) => pairs_of(alloc, members, 1),
        None => Err(here(alloc)),
    }
}
