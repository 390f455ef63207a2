use crate::words::push_number;
use app_text::{AppText, KvText, TableText};
use kv_machine::KvCmd;
use lock_table::TableCmd;
use std::alloc::AllocError;
use vst_base::{LockMsg, MirrorMsg, PbMsg, RetryMsg, SeqMsg};

/// What can be said in a few words, for people to read.
pub trait Says {
    /// Adds the words at the end.
    fn say(&self, out: &mut Vec<u8>) -> Result<(), AllocError>;
}

// A machine alone sends nothing.
impl Says for () {
    fn say(&self, _out: &mut Vec<u8>) -> Result<(), AllocError> {
        Ok(())
    }
}

impl Says for LockMsg {
    fn say(&self, out: &mut Vec<u8>) -> Result<(), AllocError> {
        out.extend_from_slice(match self {
            LockMsg::Lock => b"lock",
            LockMsg::Unlock => b"unlock",
            LockMsg::Locked => b"locked",
        })
    }
}

impl Says for MirrorMsg {
    fn say(&self, out: &mut Vec<u8>) -> Result<(), AllocError> {
        match self {
            MirrorMsg::Item(value) => {
                out.extend_from_slice(b"item ")?;
                out.extend_from_slice(value.as_bytes())
            }
        }
    }
}

// Adds a number behind the words of what it numbers.
fn say_number(number: u64, out: &mut Vec<u8>) -> Result<(), AllocError> {
    out.extend_from_slice(b" #")?;
    push_number(out, number)
}

// Its number, of all packets of its sender or of those to its destination.
impl<M: Says> Says for SeqMsg<M> {
    fn say(&self, out: &mut Vec<u8>) -> Result<(), AllocError> {
        self.inner.say(out)?;
        say_number(self.number, out)
    }
}

// The number of the data, of all data of its sender or of that which gets the acknowledgement.
impl<M: Says> Says for RetryMsg<M> {
    fn say(&self, out: &mut Vec<u8>) -> Result<(), AllocError> {
        match self {
            RetryMsg::Data { number, inner } => {
                inner.say(out)?;
                say_number(*number, out)
            }
            RetryMsg::Ack { number } => {
                out.extend_from_slice(b"ack")?;
                say_number(*number, out)
            }
        }
    }
}

impl Says for KvCmd {
    fn say(&self, out: &mut Vec<u8>) -> Result<(), AllocError> {
        KvText::print_input(self, out)
    }
}

impl Says for TableCmd {
    fn say(&self, out: &mut Vec<u8>) -> Result<(), AllocError> {
        TableText::print_input(self, out)
    }
}

impl<C: Says> Says for PbMsg<C> {
    fn say(&self, out: &mut Vec<u8>) -> Result<(), AllocError> {
        match self {
            PbMsg::Apply(cmd) => {
                out.extend_from_slice(b"apply ")?;
                cmd.say(out)
            }
            PbMsg::Ack => out.extend_from_slice(b"ack"),
        }
    }
}
