use node_device_mem::Areas;
use std::alloc::{AllocError, Global};

/// What a script counts: reads of the input, writes of the output and of the error stream, calls of the device, and its acts, after which all of
/// its calls fail.
#[derive(Clone, Copy, PartialEq, Eq)]
pub(crate) enum Counted {
    Read,
    Out,
    Err,
    Call,
    Stop,
}

/// One of them by its number.
#[derive(Clone, Copy)]
pub(crate) struct Scripted {
    pub(crate) what: Counted,
    pub(crate) number: u64,
}

/// Each number from one to another, of which one fails at a time.
#[derive(Clone, Copy)]
pub(crate) struct Each {
    pub(crate) what: Counted,
    pub(crate) first: u64,
    pub(crate) last: u64,
}

/// What comes to a node: a datagram from a port of this machine, or none in time.
#[derive(Drop)]
pub(crate) struct Coming {
    pub(crate) from: Option<u16>,
    pub(crate) bytes: Vec<u8>,
}

/// How what came of a case is told.
#[derive(Clone, Copy)]
pub(crate) struct Telling {
    pub(crate) is_brief: bool,
    pub(crate) shows: bool,
    pub(crate) draws: bool,
    pub(crate) each: Option<Each>,
}

/// A case.
#[derive(Drop)]
pub(crate) struct Case {
    pub(crate) words: Vec<String>,
    pub(crate) input: Vec<u8>,
    pub(crate) read: usize,
    pub(crate) write: usize,
    pub(crate) fails: Vec<Scripted>,
    pub(crate) wants: Vec<Scripted>,
    pub(crate) areas: Areas,
    pub(crate) comes: Vec<Coming>,
    pub(crate) clock: Vec<u64>,
    pub(crate) telling: Telling,
}

/// How many bytes a call moves at most where a case does not say.
const MOST: usize = 4096;

/// Empty areas.
fn empty_areas(alloc: Global) -> Areas {
    Areas {
        slot0: Vec::new(alloc),
        slot1: Vec::new(alloc),
        selector: Vec::new(alloc),
    }
}

impl Case {
    /// A replay of an empty input, where nothing fails.
    pub(crate) fn new(alloc: Global) -> Result<Self, AllocError> {
        let name = String::from_str(alloc, "vst")?;
        let replay = String::from_str(alloc, "replay")?;
        Ok(Case {
            words: Vec::from_array(alloc, [name, replay])?,
            input: Vec::new(alloc),
            read: MOST,
            write: MOST,
            fails: Vec::new(alloc),
            wants: Vec::new(alloc),
            areas: empty_areas(alloc),
            comes: Vec::new(alloc),
            clock: Vec::new(alloc),
            telling: Telling {
                is_brief: false,
                shows: false,
                draws: false,
                each: None,
            },
        })
    }

    /// Whether it cuts or fails calls.
    pub(crate) fn is_scripted(&self) -> bool {
        self.read != MOST || self.write != MOST || !self.fails.is_empty() || !self.wants.is_empty()
    }

    /// Whether it runs a node.
    pub(crate) fn is_node(&self) -> bool {
        match self.words.get(1) {
            Some(word) => word.as_str() == "node",
            None => false,
        }
    }
}
