ghost use Rattle.std.specs.Prelude.{◌≡◌, ℕ, [], ◌<◌, length, OnOk};
ghost use Rattle.number_set.specs.Marked.{IsMarked};
ghost use Rattle.seqnum_xform.specs.Numbering.{has_seen, seen_of, with_seen};

use number_set::NumberSet;
use std::alloc::{AllocError, Global};
use std::marker::Model;
use vst_base::Node;

/// The numbers that were seen of each sender. Contracts see a set for each sender, from sender 0 on.
#[derive(Drop)]
pub struct SeenNumbers {
    senders: Vec<NumberSet>,
}

impl Model for SeenNumbers {
    ghost use Rattle.std.specs.Coded.{coded_list, coded_ℕ};
    ghost use Rattle.std.specs.FinSet as set;
    ghost use Rattle.seqnum_xform.specs.Numbering.{Seen};

    ghost Value = { Seen };

    ghost coded = { coded_list (set.code coded_ℕ) };

    ghost view = { λ s. s.senders.items };
}

// Makes a place for a sender, with no number seen of it where there was none.
fn reach(alloc: Global, senders: &mut Vec<NumberSet>, sender: usize) -> Result<(), AllocError>
    ensures there { OnOk result (sender < length senders.new.items) }
    ensures same { OnOk result ((n : ℕ) → with_seen senders.new.items sender n ≡ with_seen senders.old.items sender n) }
{
    while senders.len() <= sender {
        senders.push(NumberSet::new(alloc))?;
    }
    Ok(())
}

impl SeenNumbers {
    /// No number was seen of any sender. It takes no memory.
    pub fn new(alloc: Global) -> Self
        ensures { result ≡ [] }
    {
        SeenNumbers {
            senders: Vec::new(alloc),
        }
    }

    /// Whether the number was seen of the sender.
    pub fn has(&self, sender: Node, n: u64) -> bool
        ensures { result ≡ has_seen self.now sender n }
    {
        match self.senders.get(usize::from(sender.index())) {
            Some(numbers) => numbers.contains(n),
            None => false,
        }
    }

    /// The least number that was not seen of the sender, and those above it that were, in ascending order: 0 and none of a sender of whom
    /// nothing was seen.
    pub fn gaps(&self, sender: Node) -> (u64, &[u64])
        ensures { IsMarked (seen_of self.now sender) result.0 result.1.now }
    {
        match self.senders.get(usize::from(sender.index())) {
            Some(numbers) => numbers.gaps(),
            None => (0, &[]),
        }
    }

    /// Notes that the number was seen of the sender. After an `Err` it is given up.
    pub fn add(&mut self, alloc: Global, sender: Node, n: u64) -> Result<(), AllocError>
        ensures { OnOk result (self.new ≡ with_seen self.old sender n) }
    {
        let place = usize::from(sender.index());
        reach(alloc, &mut self.senders, place)?;
        let numbers = &mut self.senders[place];
        numbers.insert(n)
    }
}
