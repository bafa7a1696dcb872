//! The count and the total of the numbers so far.

ghost use Rattle.std.specs.Prelude.{◌≡◌, ◌+◌, ◌*◌, ◌^◌, ◌≤◌, ◌≤ℤ◌, ◌+ℤ◌, pos, neg_ℤ, Ok, MatchResult};
ghost use Rattle.nf_value.specs.View.{plain_of};
ghost use Rattle.nf_opstream.specs.Promise.{emits_of, IsFault};
ghost use Rattle.nf_opclose.specs.Numbers.{is_number as is_plain_number, number_of, total_due};

use crate::emits::emit;
use nf_bag::OpFault;
use nf_opstream::PassState;
use nf_value::Value;

/// The most items that an operator which counts them takes.
pub(crate) const MOST_ITEMS: u64 = 1 << 32;

/// The least total that is emitted.
const LEAST: i128 = i64::MIN as i128;

/// The greatest total that is emitted.
const GREATEST: i128 = i64::MAX as i128;

/// How many numbers there were, and their total. Each has 64 signed bits, so the total of 2^32 + 1 of them fits 128.
#[derive(Drop)]
pub(crate) struct Numbers {
    pub(crate) count: u64,
    pub(crate) total: i128,
    ghost few: { count ≤ 2 ^ 32 + 1 },
    ghost above: { neg_ℤ (pos (count * 2 ^ 63)) ≤ℤ total },
    ghost below: { total ≤ℤ pos (count * 2 ^ 63) },
}

impl Numbers {
    pub(crate) fn none() -> Numbers
        ensures count { result.count ≡ 0 }
        ensures total { result.total ≡ pos 0 }
    {
        Numbers { count: 0, total: 0 }
    }

    pub(crate) fn add(&mut self, number: i64)
        requires { self.old.count ≤ 2 ^ 32 }
        ensures count { self.new.count ≡ self.old.count + 1 }
        ensures total { self.new.total ≡ self.old.total +ℤ number }
    {
        self.count += 1;
        self.total += number as i128;
    }

    /// Emits the total to the first output, if it fits 64 signed bits.
    pub(crate) fn emit_total(&self, out: &mut PassState) -> Result<Vec<(u32, Value)>, OpFault>
        ensures { let due = total_due self.now.total in MatchResult result (λ es. due ≡ Ok (emits_of es.items)) (IsFault due) }
    {
        if self.total < LEAST || self.total > GREATEST {
            return Err(OpFault::Overflow { total: self.total });
        }
        emit(out, Value::Int(self.total as i64))
    }
}

/// Whether a value is a number.
pub(crate) fn is_number(value: &Value) -> bool
    ensures { result ≡ is_plain_number (plain_of value.now) }
{
    match value {
        Value::Int(_) => true,
        _ => false,
    }
}

/// The number; 0 if the value is none.
pub(crate) fn number(value: &Value) -> i64
    ensures { result ≡ number_of (plain_of value.now) }
{
    match value {
        Value::Int(number) => *number,
        _ => 0,
    }
}
