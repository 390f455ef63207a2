ghost use Rattle.std.specs.Prelude.{◌≡◌, Some, None};
ghost use Rattle.node_device_mem.specs.Histories.{acts_counted};
ghost use Rattle.node_device_mem.specs.Scripts.{due_at, called};

use crate::history::History;

/// Which calls fail: those of stated numbers, counted from 1, and each once so many acts were done.
#[derive(Drop)]
pub struct Script {
    failing: Vec<u64>,
    last: Option<u64>,
    calls: u64,
}

impl Script {
    /// Fails the calls of these numbers.
    pub fn new(failing: Vec<u64>) -> Self
        ensures { result ≡ record { failing = failing; last = None; calls = 0 } }
    {
        Script {
            failing,
            last: None,
            calls: 0,
        }
    }

    /// Fails each call after so many acts too.
    pub fn stop_after(&mut self, acts: u64)
        ensures { self.new ≡ record self.old { last = Some acts } }
    {
        self.last = Some(acts);
    }

    /// How many calls there were. It stops at the greatest `u64`.
    pub fn calls(&self) -> u64
        ensures { result ≡ self.now.calls }
    {
        self.calls
    }

    /// Whether the call that begins now, after the acts of this record, is to fail.
    pub fn is_due(&mut self, history: &History) -> bool
        ensures due { result ≡ due_at self.old (acts_counted history.now) }
        ensures called { self.new ≡ called self.old }
    {
        self.calls = self.calls.saturating_add(1);
        let is_over = match self.last {
            Some(last) => last <= history.acts(),
            None => false,
        };
        self.failing.contains(&self.calls) || is_over
    }
}
