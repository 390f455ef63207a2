ghost use Rattle.std.specs.Prelude.{◌≡◌, ◌+◌, ◌≤◌, true, drop, length, IfOk, IsOk, OnErr, OnOk};
ghost use Rattle.vst_base.specs.Logs.{has_conflict};
ghost use Rattle.raft_log.specs.Accepting.{agreed, answer, log_after};

use crate::Log;
use raft_types::MAX_INDEX;
use std::alloc::{AllocError, Global};
use vst_base::{Entry, Machine};

/// What a log answers to a leader's entries.
#[derive(Clone, Copy, Debug, PartialEq, Eq)]
pub enum Accept {
    /// The log has them, up to this index.
    Taken(u32),
    /// At this index the first that differs in term stands for a committed one, so none was taken.
    Below(u32),
}

// How many of the new entries agree in term with the old ones, up to the first that doesn't.
fn agreed<C>(old: &[Entry<C>], new: &[Entry<C>]) -> usize
    ensures agreed { result ≡ agreed old.now new.now }
    ensures in_range { (result ≤ length old.now) × (result ≤ length new.now) }
{
    let mut count = 0;
    while count < old.len() && count < new.len() && old[count].term() == new[count].term() {
        count += 1;
    }
    count
}

impl<C: Drop> Log<C> {
    /// Takes a leader's entries for the places after the index prev (section 5.3 of the Raft paper): the
    /// log is cut at the first that differs in term from the leader's, and the missing ones are added. Where
    /// none differs nothing is cut, since the message may be an old one. None is taken where one differs
    /// from an entry up to commit.
    ///
    /// It looks at the entries that come and at the places that they are for. An `Err` changes nothing. Where
    /// none is taken, or the log has them all, it takes no memory.
    pub fn accept<M: Machine<Cmd = C>>(
        &mut self,
        alloc: Global,
        machine: &M,
        prev: u32,
        entries: &[Entry<C>],
        commit: u32,
    ) -> Result<Accept, AllocError>
        requires prev { prev ≤ length self.old }
        requires commit { commit ≤ length self.old }
        requires room { prev + length entries.now ≤ MAX_INDEX }
        ensures answer { IfOk result (λ accept. accept ≡ answer self.old commit prev entries.now) }
        ensures log { OnOk result (self.new ≡ log_after self.old commit prev entries.now) }
        ensures err { OnErr result (self.new ≡ self.old) }
        ensures refuses { has_conflict self.old commit prev entries.now ≡ true → IsOk result }
        ensures had { agreed (drop prev self.old) entries.now ≡ length entries.now → IsOk result }
    {
        let same = agreed(&self.entries()[prev as usize..], entries);
        let kept = prev as usize + same;
        if same < entries.len() {
            if kept < commit as usize {
                return Ok(Accept::Below(kept as u32 + 1));
            }
            self.replace_from(alloc, machine, kept, &entries[same..])?;
        }
        Ok(Accept::Taken(prev + entries.len() as u32))
    }
}
