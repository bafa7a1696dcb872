//! Laws of the operators, each a contract over the definitions alone.

ghost use Rattle.std.specs.Prelude.{◌≡◌, ◌∷◌, ◌^◌, ◌<◌, List, ℕ, Bool, Option, Result, length};
ghost use Rattle.nf_value.specs.Plain.{Plain};
ghost use Rattle.nf_bag.specs.declared.options.Total.{Total};
ghost use Rattle.nf_opstream.specs.Push.{Push, IsSameInput};
ghost use Rattle.nf_opstream.specs.Fault.{Fault};
ghost use Rattle.nf_opstream.specs.Operator.{IsOperator};
ghost use Rattle.nf_opclose.specs.Closing.{closing};
ghost use Rattle.nf_opclose.specs.Rows.{count_row, if_empty_row, to_list_row, collect_row, min_row, max_row, sum_row, reduce_row};
ghost use Rattle.nf_opclose.specs.Kept.{IsCountAfter, IsReduceAfter, IsSumAfter};
ghost use Rattle.nf_opclose.specs.Room.{HasCountRoom, HasReduceRoom, HasSumRoom};
ghost use Rattle.nf_opclose.specs.declared.count.CountState.{CountState};
ghost use Rattle.nf_opclose.specs.declared.reduce.ReduceState.{ReduceState};
ghost use Rattle.nf_opclose.specs.declared.sum.SumState.{SumState};

use nf_bag::laws::{sorting, sums};
use nf_opstream::laws::{inputs, item_by_item};

/// An operator that looks at each item by itself, and whose close depends on the bag of the input alone, emits the bag that it means,
/// whatever the order of its items.
pub fn at_the_close()
    ensures { (f : Push → Result (List (ℕ × Plain)) Fault) → (g : List Push → Result (List (ℕ × Plain)) Fault) → ((p : List Push) → (q : List Push) → IsSameInput p q → g p ≡ g q) → IsOperator (closing f g) }
{
    item_by_item();
}

/// `count` emits the bag that it means, whatever the order of its items.
pub fn count()
    ensures { IsOperator count_row }
{
    at_the_close();
    inputs();
}

/// `ifEmpty` emits the bag that it means, whatever the order of its items.
pub fn if_empty()
    ensures { (v : Plain) → IsOperator (if_empty_row v) }
{
    at_the_close();
    inputs();
}

/// `toList` emits the bag that it means, whatever the order of its items.
pub fn to_list()
    ensures { IsOperator to_list_row }
{
    at_the_close();
    inputs();
    sorting();
}

/// `collect` emits the bag that it means, whatever the order of its items.
pub fn collect()
    ensures { (flat : Bool) → IsOperator (collect_row flat) }
{
    at_the_close();
    inputs();
    sorting();
}

/// `min` emits the bag that it means, whatever the order of its items.
pub fn min()
    ensures { IsOperator min_row }
{
    at_the_close();
    inputs();
    sorting();
}

/// `max` emits the bag that it means, whatever the order of its items.
pub fn max()
    ensures { IsOperator max_row }
{
    at_the_close();
    inputs();
    sorting();
}

/// `sum` emits the bag that it means, whatever the order of its items.
pub fn sum()
    ensures { IsOperator sum_row }
{
    at_the_close();
    inputs();
    sums();
}

/// `reduce` emits the bag that it means, whatever the order of its items.
pub fn reduce()
    ensures { (kind : Total) → (start : Option Plain) → IsOperator (reduce_row kind start) }
{
    at_the_close();
    inputs();
    sorting();
    sums();
}

/// After fewer than 2^32 pushes, `count`, `sum` and `reduce` have room for one more item.
pub fn room()
    ensures count { (p : List Push) → (s : CountState) → IsCountAfter p s → length p < 2 ^ 32 → HasCountRoom s }
    ensures sum { (p : List Push) → (s : SumState) → IsSumAfter p s → length p < 2 ^ 32 → HasSumRoom s }
    ensures reduce { (kind : Total) → (start : Option Plain) → (p : List Push) → (s : ReduceState) → IsReduceAfter kind start p s → length p < 2 ^ 32 → HasReduceRoom s }
{}
