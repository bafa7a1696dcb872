//! Laws of values: each function does nothing, and its contract is the law.

ghost use Rattle.std.specs.Prelude.{◌≡◌, true};
ghost use Rattle.std.specs.Ordering.{on, eq_by_cmp};
ghost use Rattle.std.specs.Cmp.{IsTotalOrder};
ghost use Rattle.std.specs.declared.cmp.Ordering.TheVariants.{Equal};
ghost use Rattle.nf_value.specs.Plain.{Plain};
ghost use Rattle.nf_value.specs.View.{plain_of};
ghost use Rattle.nf_value.specs.declared.value.Value.{Value};
ghost use Rattle.nf_value.specs.Order.{value_cmp};

/// The order of values is total.
#[tactic(auto, using(crate::specs::Order::value_cmp_total))]
pub fn order_is_total()
    ensures { IsTotalOrder value_cmp }
{}

/// Values that compare as `Equal`, or for which `==` is true, are the same value.
#[tactic(auto, using(crate::specs::Identity::value_cmp_exact, crate::specs::Identity::same_by_eq))]
pub fn equal_is_same()
    ensures cmp { (a : Plain) → (b : Plain) → value_cmp a b ≡ Equal → a ≡ b }
    ensures eq { (a : Value) → (b : Value) → eq_by_cmp (on plain_of value_cmp) a b ≡ true → plain_of a ≡ plain_of b }
{}
