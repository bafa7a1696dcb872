//! `NumberSet`: a set of small numbers.

ghost use Rattle.std.specs.Prelude.{◌≡◌, ◌==◌, ◌<◌, ◌≤◌, ◌^◌, ℕ, true, false, length, slice_index, if◌then◌else◌, IfOk, MatchBool, MatchOption};
ghost use Rattle.nf_spot.specs.Order.{IsOrder, moved};

use nf_value::Mem;
use std::alloc::Global;

/// A set of numbers below a limit (own). A number is put in, taken out and looked up without a walk, and only the beginning takes memory.
pub struct NumberSet {
    /// All numbers below the limit, those of the set first.
    order: Vec<u32>,
    /// For each number its place in that order.
    places: Vec<u32>,
    /// How many numbers the set has.
    count: u32,
    ghost ordered: { IsOrder order.items places.items },
    ghost within: { count ≤ length order.items },
    ghost small: { length order.items < 2 ^ 32 },
}

impl Drop for NumberSet {
    fn drop(self) {
        let NumberSet {
            order: _,
            places: _,
            count: _,
        } = self;
    }
}

impl NumberSet {
    ghost use Rattle.nf_spot.specs.Numbers.{has, limit_of};

    /// The empty set of numbers below a limit.
    ///
    /// # Errors
    ///
    /// `Mem` if there is no memory for it.
    pub fn new(alloc: Global, limit: u32) -> Result<NumberSet, Mem>
        ensures limit { IfOk result (λ s. limit_of s ≡ limit) }
        ensures empty { IfOk result (λ s. (x : ℕ) → has s x ≡ false) }
    {
        let order = all_below(alloc, limit)?;
        let places = all_below(alloc, limit)?;
        Ok(NumberSet {
            order,
            places,
            count: 0,
        })
    }

    /// Whether a number below the limit is in the set.
    pub fn contains(&self, number: u32) -> bool
        requires { number < limit_of self.now }
        ensures { result ≡ has self.now number }
    {
        self.places[number as usize] < self.count
    }

    /// Puts a number below the limit into the set, or takes it out.
    pub fn set(&mut self, number: u32, is_in: bool)
        requires { number < limit_of self.old }
        ensures limit { limit_of self.new ≡ limit_of self.old }
        ensures set { (x : ℕ) → has self.new x ≡ (if x == number then is_in else has self.old x) }
    {
        if is_in {
            self.insert(number);
        } else {
            self.remove(number);
        }
    }

    fn insert(&mut self, number: u32)
        requires { number < limit_of self.old }
        ensures limit { limit_of self.new ≡ limit_of self.old }
        ensures set { (x : ℕ) → has self.new x ≡ (if x == number then true else has self.old x) }
    {
        if self.contains(number) {
            return;
        }
        exchange(&mut self.order, &mut self.places, number, self.count);
        self.count += 1;
    }

    fn remove(&mut self, number: u32)
        requires { number < limit_of self.old }
        ensures limit { limit_of self.new ≡ limit_of self.old }
        ensures set { (x : ℕ) → has self.new x ≡ (if x == number then false else has self.old x) }
    {
        if !self.contains(number) {
            return;
        }
        let last = self.count - 1;
        exchange(&mut self.order, &mut self.places, number, last);
        self.count = last;
    }

    /// A number of the set, if there is one.
    pub fn any(&self) -> Option<u32>
        ensures { MatchOption result ((x : ℕ) → has self.now x ≡ false) (λ x. has self.now x ≡ true) }
    {
        if self.count == 0 {
            return None;
        }
        Some(self.order[(self.count - 1) as usize])
    }

    /// Whether each number below the limit is in the set.
    pub fn is_full(&self) -> bool
        ensures { MatchBool result ((x : ℕ) → x < limit_of self.now → has self.now x ≡ true)
            ((x : ℕ) × (x < limit_of self.now) × (has self.now x ≡ false)) }
    {
        self.count as usize == self.order.len()
    }
}

/// The numbers below a limit.
fn all_below(alloc: Global, limit: u32) -> Result<Vec<u32>, Mem>
    ensures len { IfOk result (λ v. length v.items ≡ limit) }
    ensures each { IfOk result (λ v. (k : ℕ) → k < limit → slice_index v.items k ≡ k) }
{
    let mut numbers = Vec::with_capacity(alloc, limit as usize)?;
    for number in 0..limit {
        numbers.push(number)?;
    }
    Ok(numbers)
}

/// Lets a number and the one at a place change their places.
fn exchange(order: &mut [u32], places: &mut [u32], number: u32, place: u32)
    requires ordered { IsOrder order.old places.old }
    requires number { number < length order.old }
    requires place { place < length order.old }
    ensures ordered { IsOrder order.new places.new }
    ensures len { length order.new ≡ length order.old }
    ensures moved { (x : ℕ) → x < length order.old
        → slice_index places.new x ≡ moved order.old places.old number place x }
{
    let at = places[number as usize];
    let other = order[place as usize];
    order[at as usize] = other;
    order[place as usize] = number;
    places[other as usize] = at;
    places[number as usize] = place;
}
