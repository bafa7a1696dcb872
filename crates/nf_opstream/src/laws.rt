//! Laws of the operators, each a contract over the definitions alone.

ghost use Rattle.std.specs.Prelude.{◌≡◌, ◌≤◌, ◌∷◌, List, ℕ, Result, Ok, Err, sum_by};
ghost use Rattle.nf_value.specs.Plain.{Plain};
ghost use Rattle.nf_opstream.specs.Push.{Push, IsWithin, IsSameInput};
ghost use Rattle.nf_opstream.specs.Fault.{Fault};
ghost use Rattle.nf_opstream.specs.Operator.{Operator, AreFine, IsOperator};
ghost use Rattle.nf_opstream.specs.Promise.{HasEmitted, HasFaulted, HasEnded, HasBroken};
ghost use Rattle.nf_opstream.specs.Alone.{each};
ghost use Rattle.nf_opstream.specs.Rows.{unique_row};

use nf_bag::laws::distinct_values;

/// What `gives` and `ends` of an operator say meets the promises of a push and a close.
#[tactic(auto, using(crate::proofs::Promised::has_emitted, crate::proofs::Promised::has_faulted, crate::proofs::Promised::has_ended, crate::proofs::Promised::has_broken))]
pub fn promises()
    ensures emitted { (op : Operator) → IsOperator op → (p : List Push) → AreFine op p → (x : Push) → (es : List (ℕ × Plain)) → op.gives p x ≡ Ok es → HasEmitted op p x es }
    ensures faulted { (op : Operator) → IsOperator op → (p : List Push) → AreFine op p → (x : Push) → (f : Fault) → op.gives p x ≡ Err f → HasFaulted op p x f }
    ensures ended { (op : Operator) → IsOperator op → (p : List Push) → AreFine op p → (es : List (ℕ × Plain)) → op.ends p ≡ Ok es → HasEnded op p es }
    ensures broken { (op : Operator) → IsOperator op → (p : List Push) → AreFine op p → (f : Fault) → op.ends p ≡ Err f → HasBroken op p f }
{}

/// The sum over an input doesn't depend on its order, and is at least the sum over any input that it contains.
#[tactic(auto, using(crate::proofs::Pushes::sum_within, crate::proofs::Pushes::sum_of_input))]
pub fn inputs()
    ensures within { (f : Push → ℕ) → (p : List Push) → (q : List Push) → IsWithin p q → sum_by f p ≤ sum_by f q }
    ensures same { (f : Push → ℕ) → (p : List Push) → (q : List Push) → IsSameInput p q → sum_by f p ≡ sum_by f q }
{}

/// An operator that looks at each item by itself emits the bag that it means, whatever the order of its items.
#[tactic(auto, using(crate::proofs::Each::each_law))]
pub fn item_by_item()
    ensures { (f : Push → Result (List (ℕ × Plain)) Fault) → IsOperator (each f) }
{}

/// `unique` emits the bag that it means, whatever the order of its items.
pub fn each_once()
    ensures { IsOperator unique_row }
{
    distinct_values();
}
