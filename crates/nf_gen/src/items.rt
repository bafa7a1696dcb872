//! The items of a generated script.

ghost use Rattle.std.specs.Prelude.{◌≡◌, ◌++◌, OnOk, string_bytes, codes, decimal, flat_map};
ghost use Rattle.nf_gen.specs.Script.{next as next_number, item_of as item, items, listed};

use nf_value::Mem;

/// The factor and the summand by which each number gives the next one (Knuth, MMIX).
const FACTOR: u64 = 6364136223846793005;

const SUMMAND: u64 = 1442695040888963407;

/// Appends the items of the `n` numbers after `start`, with `, ` between them.
pub(crate) fn push_items(out: &mut String, n: u32, start: u64) -> Result<(), Mem>
    ensures { OnOk result (string_bytes out.new ≡ string_bytes out.old ++ listed (items n start)) }
{
    if n == 0 {
        return Ok(());
    }
    let first = next(start);
    push_item(out, first)?;
    push_more(out, n - 1, first)
}

/// Appends the items of the `n` numbers after this one, with `, ` before each.
fn push_more(out: &mut String, n: u32, number: u64) -> Result<(), Mem>
    ensures { OnOk result (string_bytes out.new ≡ string_bytes out.old ++ flat_map (λ i. codes ", " ++ decimal i) (items n number)) }
{
    let mut last = number;
    for done in 0..n {
        last = next(last);
        out.push_str(", ")?;
        push_item(out, last)?;
    }
    Ok(())
}

/// Appends the item that a number gives.
fn push_item(out: &mut String, number: u64) -> Result<(), Mem>
    ensures { OnOk result (string_bytes out.new ≡ string_bytes out.old ++ decimal (item number)) }
{
    let mut digits = itoa::Buffer::new();
    out.push_str(digits.format((number >> 33) % 1000))?;
    Ok(())
}

fn next(number: u64) -> u64
    ensures { result ≡ next_number number }
{
    number.wrapping_mul(FACTOR).wrapping_add(SUMMAND)
}
