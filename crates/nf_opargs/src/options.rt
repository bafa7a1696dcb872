//! The options of operators.

ghost use Rattle.std.specs.Prelude.{◌≡◌, map};
ghost use Rattle.nf_value.specs.View.{plain_of};
ghost use Rattle.nf_builtins.specs.Natives.{is_among};
ghost use Rattle.nf_optable.specs.Rows.{option_names};
ghost use Rattle.nf_meaning.specs.Options as spec;
ghost use Rattle.nf_opargs.specs.Still.{IsKey, IsStill};

use crate::values::flag_in;
use nf_bag::{OpOpts, Total};
use nf_meaning::LowerFault;
use nf_optable::Options;
use nf_value::{Place, Value};

/// An operator without options; `collect` opens its lists.
pub fn no_options() -> OpOpts
    ensures { result ≡ spec.no_options }
{
    OpOpts {
        by: None,
        remainder: false,
        sort: false,
        flat: true,
        start: None,
        total: Total::Sum,
        outs: 0,
    }
}

/// Whether a row has an option of this name.
pub fn has_option(row: Options, name: &str) -> bool
    ensures { result ≡ is_among name.now (option_names row) }
{
    is_listed(row.names(), name)
}

fn is_listed(names: &[&str], name: &str) -> bool
    ensures { result ≡ is_among name.now (map (λ n. n.now) names.now) }
{
    for other in names {
        if *other == name {
            return true;
        }
    }
    false
}

/// One more option, which has a name of the row; of two with one name the later counts (Nextflow reference documentation, "Operators").
///
/// # Errors
///
/// `BadOption` at the option's name if its value is of another kind than is wanted, or is no key that the operator takes.
pub fn with_option(
    row: Options,
    place: Place,
    name: &str,
    value: &Value,
    opts: OpOpts,
) -> Result<OpOpts, LowerFault>
    ensures { IsStill (spec.with_value row place name.now (plain_of value.now) opts) result }
{
    if name == "by" {
        return with_key(row, place, value, opts);
    }
    let flag = flag_in(place, value)?;
    Ok(with_flag(name, flag, opts))
}

fn with_key(row: Options, place: Place, value: &Value, opts: OpOpts) -> Result<OpOpts, LowerFault>
    ensures { IsStill (spec.key_in row place (plain_of value.now) opts) result }
{
    let Some(key) = key_in(row, value) else {
        return Err(LowerFault::BadOption { place });
    };
    let mut opts = opts;
    opts.by = Some(key);
    Ok(opts)
}

fn key_in(row: Options, value: &Value) -> Option<u32>
    ensures { IsKey row (plain_of value.now) result }
{
    match value {
        Value::Int(number) => match u32::try_from(*number) {
            Ok(key) if allows_key(row, key) => Some(key),
            _ => None,
        },
        _ => None,
    }
}

/// `combine` takes its first elements as keys, or none.
fn allows_key(row: Options, key: u32) -> bool
    ensures { result ≡ spec.allows_key row key }
{
    match row {
        Options::OfCombine => key == 0,
        Options::OfJoin | Options::OfGroupTuple => true,
        Options::OfBuffer | Options::OfCollect | Options::Nothing => false,
    }
}

/// The sorting of `collect`, and what `join` does with equal keys, has no effect.
fn with_flag(name: &str, flag: bool, opts: OpOpts) -> OpOpts
    ensures { result ≡ spec.with_flag name.now flag opts }
{
    let mut opts = opts;
    match name {
        "remainder" => opts.remainder = flag,
        "sort" => opts.sort = flag,
        "flat" => opts.flat = flag,
        _ => {}
    }
    opts
}
