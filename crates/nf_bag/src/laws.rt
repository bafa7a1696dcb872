//! Laws of bags, each a contract over the definitions alone.

ghost use Rattle.std.specs.Prelude.{◌≡◌, ◌≤◌, ◌+◌, ◌↔◌, ℕ, List, [], ◌++◌, length, min, sum_by};
ghost use Rattle.nf_value.specs.Plain.{Plain};
ghost use Rattle.nf_bag.specs.Bag.{count, IsSubBag, IsSameBag};
ghost use Rattle.nf_bag.specs.Tests.{IsSubByTests, IsSameByTests};
ghost use Rattle.nf_bag.specs.Sorted.{IsRising, IsStrictlyRising, sorted_of, distinct_of};

/// Two rising lists of the same bag are equal.
#[tactic(auto, using(crate::proofs::Rising::rising_is_unique))]
pub fn one_rising_list()
    ensures { (a : List Plain) → (b : List Plain) → IsRising a → IsRising b → IsSameBag a b → a ≡ b }
{}

/// Sorting a list gives the rising list of its bag, and depends on the bag alone.
#[tactic(auto, using(crate::proofs::Rising::sorted_of_rises, crate::proofs::Rising::sorted_of_is_same, crate::proofs::Rising::sorted_of_same))]
pub fn sorting()
    ensures rising { (a : List Plain) → IsRising (sorted_of a) }
    ensures bag { (a : List Plain) → IsSameBag (sorted_of a) a }
    ensures by_bag { (a : List Plain) → (b : List Plain) → IsSameBag a b → sorted_of a ≡ sorted_of b }
{}

/// The distinct values of a list are its values once each, in strictly rising order, and depend on the bag alone.
#[tactic(auto, using(crate::proofs::Once::distinct_of_rises, crate::proofs::Once::count_of_distinct, crate::proofs::Once::distinct_of_same))]
pub fn distinct_values()
    ensures rising { (a : List Plain) → IsStrictlyRising (distinct_of a) }
    ensures once { (v : Plain) → (a : List Plain) → count v (distinct_of a) ≡ min (count v a) 1 }
    ensures by_bag { (a : List Plain) → (b : List Plain) → IsSameBag a b → distinct_of a ≡ distinct_of b }
{}

/// Counts add up over appended lists, and the bag of two appended lists doesn't depend on their order.
#[tactic(auto, using(crate::proofs::Bags::count_append, crate::proofs::Bags::sub_append, crate::proofs::Bags::same_append, crate::proofs::Bags::same_swap))]
pub fn appended()
    ensures count { (v : Plain) → (a : List Plain) → (b : List Plain) → count v (a ++ b) ≡ count v a + count v b }
    ensures sub { (a : List Plain) → (b : List Plain) → (c : List Plain) → (d : List Plain) → IsSubBag a b → IsSubBag c d → IsSubBag (a ++ c) (b ++ d) }
    ensures same { (a : List Plain) → (b : List Plain) → (c : List Plain) → (d : List Plain) → IsSameBag a b → IsSameBag c d → IsSameBag (a ++ c) (b ++ d) }
    ensures swapped { (a : List Plain) → (b : List Plain) → IsSameBag (a ++ b) (b ++ a) }
{}

/// A common front can be cancelled.
#[tactic(auto, using(crate::proofs::Bags::sub_cancel, crate::proofs::Bags::same_cancel))]
pub fn cancelled()
    ensures sub { (c : List Plain) → (a : List Plain) → (b : List Plain) → IsSubBag (c ++ a) (c ++ b) → IsSubBag a b }
    ensures same { (c : List Plain) → (a : List Plain) → (b : List Plain) → IsSameBag (c ++ a) (c ++ b) → IsSameBag a b }
{}

/// Two lists that are sub-bags of each other are the same bag. A sub-bag as long as the whole is the whole.
#[tactic(auto, using(crate::proofs::Bags::same_from_both, crate::proofs::Bags::same_from_length, crate::proofs::Bags::sub_from_same, crate::proofs::Bags::sub_trans))]
pub fn sub_bags()
    ensures both { (a : List Plain) → (b : List Plain) → IsSubBag a b → IsSubBag b a → IsSameBag a b }
    ensures whole { (a : List Plain) → (b : List Plain) → IsSubBag a b → length a ≡ length b → IsSameBag a b }
    ensures from_same { (a : List Plain) → (b : List Plain) → IsSameBag a b → IsSubBag a b }
    ensures through { (a : List Plain) → (b : List Plain) → (c : List Plain) → IsSubBag a b → IsSubBag b c → IsSubBag a c }
{}

/// The sum over a list, and so its length, depends on its bag alone, and is at least the sum over a sub-bag.
#[tactic(auto, using(crate::proofs::Bags::sub_sum, crate::proofs::Bags::same_sum, crate::proofs::Bags::sub_length, crate::proofs::Bags::same_length))]
pub fn sums()
    ensures sub { (f : Plain → ℕ) → (a : List Plain) → (b : List Plain) → IsSubBag a b → sum_by f a ≤ sum_by f b }
    ensures same { (f : Plain → ℕ) → (a : List Plain) → (b : List Plain) → IsSameBag a b → sum_by f a ≡ sum_by f b }
    ensures sub_length { (a : List Plain) → (b : List Plain) → IsSubBag a b → length a ≤ length b }
    ensures same_length { (a : List Plain) → (b : List Plain) → IsSameBag a b → length a ≡ length b }
{}

/// A list is a sub-bag of another, or the same bag, by counts of values exactly where it is by tests.
#[tactic(auto, using(crate::proofs::ByTests::sub_by_tests, crate::proofs::ByTests::sub_by_counts, crate::proofs::ByTests::same_by_tests, crate::proofs::ByTests::same_by_counts))]
pub fn tests()
    ensures sub { (a : List Plain) → (b : List Plain) → IsSubBag a b ↔ IsSubByTests a b }
    ensures same { (a : List Plain) → (b : List Plain) → IsSameBag a b ↔ IsSameByTests a b }
{}
