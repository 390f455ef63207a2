use crate::Says;
use crate::words::push_number;
use raft_types::{Append, Appended, RaftMsg, ReadMsg, RequestVote, Vote};
use std::alloc::AllocError;
use vst_base::{Entry, What};

// Adds the term of a message.
fn say_term(out: &mut Vec<u8>, term: u64) -> Result<(), AllocError> {
    out.extend_from_slice(b" (term ")?;
    push_number(out, term)?;
    out.extend_from_slice(b")")
}

impl Says for RequestVote {
    fn say(&self, out: &mut Vec<u8>) -> Result<(), AllocError> {
        out.extend_from_slice(b"vote for me?")?;
        say_term(out, self.term())
    }
}

impl Says for Vote {
    fn say(&self, out: &mut Vec<u8>) -> Result<(), AllocError> {
        out.extend_from_slice(if self.granted() { b"vote" } else { b"no vote" })?;
        say_term(out, self.term())
    }
}

impl<C: Says> Says for Entry<C> {
    fn say(&self, out: &mut Vec<u8>) -> Result<(), AllocError> {
        match self.what() {
            What::Noop => out.extend_from_slice(b"no-op"),
            What::Request { cmd, .. } => cmd.say(out),
        }
    }
}

// Adds what entries hold, in order.
fn say_entries<C: Says>(out: &mut Vec<u8>, entries: &[Entry<C>]) -> Result<(), AllocError> {
    let mut parting: &[u8] = b": ";
    for entry in entries {
        out.extend_from_slice(parting)?;
        entry.say(out)?;
        parting = b", ";
    }
    Ok(())
}

impl<C: Says> Says for Append<C> {
    fn say(&self, out: &mut Vec<u8>) -> Result<(), AllocError> {
        let before = u64::from(self.prev_index());
        let count = self.entries().len() as u64;
        if count == 0 {
            out.extend_from_slice(b"heartbeat")?;
        } else {
            out.extend_from_slice(b"log ")?;
            push_number(out, before + 1)?;
            if count > 1 {
                out.extend_from_slice(b"-")?;
                push_number(out, before + count)?;
            }
            say_entries(out, self.entries())?;
        }
        out.extend_from_slice(b" (commit ")?;
        push_number(out, u64::from(self.commit()))?;
        out.extend_from_slice(b")")
    }
}

impl Says for Appended {
    fn say(&self, out: &mut Vec<u8>) -> Result<(), AllocError> {
        out.extend_from_slice(if self.ok() {
            b"has up to "
        } else {
            b"lacks entry "
        })?;
        push_number(out, u64::from(self.index()))
    }
}

impl<C: Says> Says for RaftMsg<C> {
    fn say(&self, out: &mut Vec<u8>) -> Result<(), AllocError> {
        match self {
            RaftMsg::RequestVote(request) => request.say(out),
            RaftMsg::Vote(vote) => vote.say(out),
            RaftMsg::Append(append) => append.say(out),
            RaftMsg::Appended(appended) => appended.say(out),
        }
    }
}

// What the message of Raft says, and the round where it has one.
impl<C: Says> Says for ReadMsg<C> {
    fn say(&self, out: &mut Vec<u8>) -> Result<(), AllocError> {
        self.raft().say(out)?;
        if self.round() > 0 {
            out.extend_from_slice(b" (round ")?;
            push_number(out, self.round())?;
            out.extend_from_slice(b")")?;
        }
        Ok(())
    }
}
