ghost use Rattle.std.specs.Prelude.{◌≡◌, ◌≤◌, ◌+◌, IfSome, None, Some, drop, if◌then◌else◌, length};
ghost use Rattle.raft_types.specs.Messages.{IsIndex};
ghost use Rattle.raft_types.specs.declared.limits.TheConstants.{MAX_BATCH};
ghost use Rattle.wire_fields.specs.Fields.{Reads};
ghost use Rattle.wire_messages.specs.RaftBytes.{IsFront, append_with, ends_at_an_index, front, front_bytes, front_of};

use byteorder::{ByteOrder, NetworkEndian};
use raft_types::{Append, Entries, MAX_INDEX};
use vst_base::MAX_TERM;
use wire_fields::Input;

/// How many bytes a front has.
pub const FRONT_LEN: usize = 24;

/// What a leader says before its entries: its term, the index after which they stand with the term there, and how far it
/// has committed.
#[derive(Clone, Copy, Debug)]
pub struct Front {
    pub term: u64,
    pub prev_index: u32,
    pub prev_term: u64,
    pub commit: u32,
}

// The methods are inlined always, as those of `Input` are, so what is left of it stands in registers.
impl Front {
    /// What stands before the entries of this message.
    #[inline(always)]
    pub fn of<C>(append: &Append<C>) -> Self
        ensures value { result ≡ front_of append.now }
        ensures in_range { IsFront result }
        ensures last_index { IsIndex (result.prev_index + length append.now.entries) }
    {
        Front {
            term: append.term(),
            prev_index: append.prev_index(),
            prev_term: append.prev_term(),
            commit: append.commit(),
        }
    }

    /// Writes the front over the first bytes, of which there are `FRONT_LEN` at least.
    #[inline(always)]
    #[tactic(auto, unfolding(wire_fields::specs::Bytes::number_bytes))]
    pub fn write(&self, bytes: &mut [u8])
        requires { 24 ≤ length bytes.old }
        ensures { bytes.new ≡ front_bytes self.now (drop 24 bytes.old) }
    {
        NetworkEndian::write_u64(bytes, self.term);
        NetworkEndian::write_u32(&mut bytes[8..], self.prev_index);
        NetworkEndian::write_u64(&mut bytes[12..], self.prev_term);
        NetworkEndian::write_u32(&mut bytes[20..], self.commit);
    }

    /// The front that stands at the front of the input, and `None` where none does.
    #[inline(always)]
    pub fn read(input: &mut Input<'_>) -> Option<Self>
        ensures value { Reads front input.old input.new result }
        ensures in_range { IfSome result IsFront }
    {
        let term = input.u64(1, MAX_TERM)?;
        let prev_index = input.u32(0, MAX_INDEX)?;
        let prev_term = input.u64(0, MAX_TERM)?;
        let commit = input.u32(0, MAX_INDEX)?;
        Some(Front {
            term,
            prev_index,
            prev_term,
            commit,
        })
    }

    /// The front with these entries, and `None` where the last of them would stand past the greatest index.
    #[inline(always)]
    pub fn with_entries<C: Drop>(self, entries: Entries<C>) -> Option<Append<C>>
        requires in_range { IsFront self }
        requires count { length entries ≤ MAX_BATCH }
        ensures { result ≡ (if ends_at_an_index (append_with self entries) then Some (append_with self entries) else None) }
    {
        let count = entries.as_slice().len() as u32;
        if self.prev_index + count > MAX_INDEX {
            return None;
        }
        Some(Append::new(
            self.term,
            self.prev_index,
            self.prev_term,
            self.commit,
            entries,
        ))
    }
}
