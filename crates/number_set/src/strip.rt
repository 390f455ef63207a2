ghost use Rattle.std.specs.Prelude.{◌≡◌, ◌+◌, ◌<◌, ◌≤◌, [], drop, insert, length, vec_len, IfOk, OnErr, OnOk};

use std::alloc::{AllocError, Global};
use std::marker::Model;

/// A list of numbers in one piece, with room at both ends, so that a number goes in by moving those before it or those after it.
/// Contracts see the list.
#[derive(Drop)]
pub(crate) struct Strip {
    places: Vec<u64>,
    start: usize,
}

impl Model for Strip {
    ghost use Rattle.std.specs.Prelude.{◌≤◌, ℕ, List, drop, length};
    ghost use Rattle.std.specs.Coded.{coded_list, coded_ℕ};

    ghost Value = { List ℕ };

    ghost coded = { coded_list coded_ℕ };

    ghost view = { λ s. drop s.start s.places.items };

    ghost invariant = { λ s. s.start ≤ length s.places.items };
}

// New places with these numbers, and with free ones for half as many and two before the first and after the last: the places, and
// where the first number stands.
fn spread(alloc: Global, numbers: &[u64]) -> Result<(Vec<u64>, usize), AllocError>
    ensures numbers { IfOk result (λ r. drop r.1 r.0.items ≡ numbers.now) }
    ensures start { IfOk result (λ r. r.1 ≤ length r.0.items) }
    ensures room { IfOk result (λ r. 0 < r.1) }
{
    let room = numbers.len() / 2 + 2;
    let wanted = numbers.len().saturating_add(2 * room);
    let mut places = Vec::with_capacity(alloc, wanted)?;
    places.resize(room, 0)?;
    places.extend_from_slice(numbers)?;
    Ok((places, room))
}

// Puts a number in at place i after the first free place at `start`: the i numbers before it move there.
fn move_front(places: &mut [u64], start: usize, i: usize, n: u64)
    requires { start + i < length places.old }
    ensures numbers { drop start places.new ≡ insert (drop (start + 1) places.old) i n }
    ensures len { length places.new ≡ length places.old }
{
    let moved = &mut places[start..start + i + 1];
    moved.rotate_left(1);
    moved[i] = n;
}

impl Strip {
    /// No numbers. It takes no memory.
    pub(crate) fn new(alloc: Global) -> Self
        ensures { result ≡ [] }
    {
        Strip {
            places: Vec::new(alloc),
            start: 0,
        }
    }

    /// The numbers, in order.
    pub(crate) fn numbers(&self) -> &[u64]
        ensures { result.now ≡ self.now }
    {
        &self.places[self.start..]
    }

    /// Drops the first k numbers.
    pub(crate) fn drop_front(&mut self, k: usize)
        requires { k ≤ length self.old }
        ensures { self.new ≡ drop k self.old }
    {
        self.start += k;
        if self.start == self.places.len() {
            self.places.clear();
            self.start = 0;
        }
    }

    // Puts a number in at place i, and moves those before it.
    fn insert_forward(&mut self, i: usize, n: u64) -> Result<(), AllocError>
        requires { i ≤ length self.old }
        ensures ok { OnOk result (self.new ≡ insert self.old i n) }
        ensures err { OnErr result (self.new ≡ self.old) }
    {
        if self.start == 0 {
            let (places, start) = spread(*self.places.allocator(), self.numbers())?;
            self.places = places;
            self.start = start;
        }
        self.start -= 1;
        move_front(&mut self.places, self.start, i, n);
        Ok(())
    }

    // Puts a number in at place i, and moves those after it.
    fn insert_backward(&mut self, i: usize, n: u64) -> Result<(), AllocError>
        requires { i ≤ length self.old }
        ensures ok { OnOk result (self.new ≡ insert self.old i n) }
        ensures err { OnErr result (self.new ≡ self.old) }
    {
        if self.places.len() == self.places.capacity() {
            let (places, start) = spread(*self.places.allocator(), self.numbers())?;
            self.places = places;
            self.start = start;
        }
        self.places.insert(self.start + i, n)?;
        Ok(())
    }

    /// Puts a number in at place i. The shorter side moves: where there is no room for it, all numbers go to new places, with room at
    /// both ends for half as many more. An `Err` changes nothing.
    pub(crate) fn insert(&mut self, i: usize, n: u64) -> Result<(), AllocError>
        requires { i ≤ length self.old }
        ensures ok { OnOk result (self.new ≡ insert self.old i n) }
        ensures err { OnErr result (self.new ≡ self.old) }
    {
        let len = self.places.len() - self.start;
        if i < len - i {
            self.insert_forward(i, n)
        } else {
            self.insert_backward(i, n)
        }
    }
}
