//! Laws of the operators, each a contract over the definitions alone.

ghost use Rattle.std.specs.Prelude.{ℕ, Bool};
ghost use Rattle.nf_opstream.specs.Operator.{IsOperator};
ghost use Rattle.nf_opjoin.specs.Pairing.{Matching, IsMatching, pairing};
ghost use Rattle.nf_opjoin.specs.Combined.{combine_row};
ghost use Rattle.nf_opjoin.specs.Grouped.{group_row};
ghost use Rattle.nf_opjoin.specs.Joined.{join, join_row};

use nf_bag::laws::{distinct_values, sorting};
use nf_opstream::laws::inputs;

/// An operator that pairs items emits the bag that it means, whatever the order of its items.
pub fn all_pairs()
    ensures { (m : Matching) → IsMatching m → IsOperator (pairing m) }
{
    inputs();
}

/// `combine` emits the bag that it means, whatever the order of its items.
pub fn combined()
    ensures { (by_first : Bool) → IsOperator (combine_row by_first) }
{
    all_pairs();
}

/// `join` pairs items, and emits the bag that it means, whatever the order of its items.
pub fn joined()
    ensures matches { (n : ℕ) → (wanted : Bool) → IsMatching (join n wanted) }
    ensures operator { (n : ℕ) → (wanted : Bool) → IsOperator (join_row n wanted) }
{
    all_pairs();
    inputs();
    sorting();
}

/// `groupTuple` emits the bag that it means, whatever the order of its items.
pub fn grouped()
    ensures { (n : ℕ) → (sort : Bool) → IsOperator (group_row n sort) }
{
    all_pairs();
    inputs();
    sorting();
    distinct_values();
}
