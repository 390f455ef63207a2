ghost use Rattle.std.specs.Prelude.{◌≡◌, ◌≢◌, ℕ, ◌+◌, ◌<◌, ◌≤◌, true, length, slice_index, IfErr, IfOk, IsOk, OnErr, OnOk};
ghost use Rattle.std.specs.FinSet as set;
ghost use Rattle.std.specs.List.Sorted.{IsStrictlyIncreasing};
ghost use Rattle.number_set.specs.Marked.{IsMarked, greatest};
ghost use Rattle.number_set.specs.Members.{GoesTo};

use crate::strip::Strip;
use std::alloc::{AllocError, Global};
use std::marker::Model;

// The greatest number, which no mark passes.
const GREATEST: u64 = u64::MAX;

/// A set of numbers. Contracts see a finite set.
#[derive(Drop)]
pub struct NumberSet {
    mark: u64,
    above: Strip,
}

impl Model for NumberSet {
    ghost use Rattle.std.specs.Coded.{coded_ℕ};
    ghost use Rattle.std.specs.FinSet as set;
    ghost use Rattle.std.specs.Ordering.{nat_cmp};
    ghost use Rattle.number_set.specs.Members.{IsKept, members};

    ghost Value = { set.FinSet nat_cmp };

    ghost coded = { set.code coded_ℕ };

    ghost view = { λ s. members s.mark s.above };

    ghost invariant = { λ s. IsKept s.mark s.above };
}

// The place of a number in an ascending list, or, where it is not in it, the place where it goes in.
fn place(numbers: &[u64], n: u64) -> Result<usize, usize>
    requires { IsStrictlyIncreasing numbers.now }
    ensures stands { IfOk result (λ i. i < length numbers.now) }
    ensures found { IfOk result (λ i. slice_index numbers.now i ≡ n) }
    ensures goes { IfErr result (GoesTo numbers.now n) }
{
    let Some(last) = numbers.last() else {
        return Err(0);
    };
    if *last < n {
        return Err(numbers.len());
    }
    if n < numbers[0] {
        return Err(0);
    }
    numbers.binary_search(&n)
}

// How many numbers at the front of an ascending list are `next` and those that follow it without a gap, below the greatest.
fn run_from(next: u64, numbers: &[u64]) -> usize
    ensures within { result ≤ length numbers.now }
    ensures fits { next + result ≤ greatest }
    ensures no_gap { (k : ℕ) → k < result → slice_index numbers.now k ≡ next + k }
    ensures gap { result < length numbers.now → next + result < greatest → slice_index numbers.now result ≢ next + result }
{
    let mut end = next;
    for (i, n) in numbers.iter().enumerate() {
        if *n != end || end == GREATEST {
            return i;
        }
        end += 1;
    }
    numbers.len()
}

impl NumberSet {
    /// No numbers. It takes no memory.
    pub fn new(alloc: Global) -> Self
        ensures { result ≡ set.empty }
    {
        NumberSet {
            mark: 0,
            above: Strip::new(alloc),
        }
    }

    /// Whether the number is in it.
    pub fn contains(&self, n: u64) -> bool
        ensures { result ≡ set.contains self.now n }
    {
        n < self.mark || place(self.above.numbers(), n).is_ok()
    }

    /// The least number that is not in it, and the numbers of the set above that one, in ascending order. Of a set of all numbers
    /// both are the greatest number.
    pub fn gaps(&self) -> (u64, &[u64])
        ensures { IsMarked self.now result.0 result.1.now }
    {
        (self.mark, self.above.numbers())
    }

    /// Adds a number. It takes no memory where the number is in it already. An `Err` changes nothing.
    pub fn insert(&mut self, n: u64) -> Result<(), AllocError>
        ensures ok { OnOk result (self.new ≡ set.insert self.old n) }
        ensures err { OnErr result (self.new ≡ self.old) }
        ensures succeeds { set.contains self.old n ≡ true → IsOk result }
    {
        if n < self.mark {
            return Ok(());
        }
        if n == self.mark && n < GREATEST {
            let closed = run_from(n + 1, self.above.numbers());
            self.above.drop_front(closed);
            self.mark = n + 1 + closed as u64;
            return Ok(());
        }
        match place(self.above.numbers(), n) {
            Ok(_) => Ok(()),
            Err(i) => self.above.insert(i, n),
        }
    }
}
