ghost use Rattle.std.specs.Prelude.{◌≡◌, ◌+◌, ◌<◌, ◌++◌, [], ◌∷◌, take, OnOk, OnErr, OnSome, IfOk, IfSome, IsOk, vec_len, vec_capacity, option_map, fold};
ghost use Rattle.disk.specs.Acts.{Now};
ghost use Rattle.disk.specs.Disk.{Disk};
ghost use Rattle.disk.specs.Images.{started, followed};
ghost use Rattle.node_device.specs.Telling.{TellsOn};
ghost use Rattle.node_device_mem.specs.Devices.{told_by};
ghost use Rattle.node_device_mem.specs.MemoryDisks.{disk_of};
ghost use Rattle.node_device_mem.specs.Histories.{SameClock, act_of, acts_told, acts_counted, counted_on, clock_place, clock_value, next_value};
ghost use Rattle.outside.specs.Counting.{counted};
ghost use Rattle.node_device_mem.specs.MemoryTrails.{trail_of};

use crate::memory_disk::MemoryDisk;
use crate::past::{Past, PastAct};
use crate::trail::MemoryTrail;
use std::alloc::{AllocError, Global};

/// The record of a device over memory, and its clock, whose values follow a script. It stops telling where more clock values come
/// after an act than a `u64` counts.
#[derive(Drop)]
pub struct History {
    past: Vec<Past>,
    clock: Vec<u64>,
    // how many clock values were given before the last act, and how many since
    from: u64,
    nows: u64,
    is_full: bool,
}

// The value of a scripted clock so many values after a place.
fn value_at(clock: &[u64], from: u64, nows: u64) -> u64
    ensures { result ≡ clock_value clock.now (from + nows) }
{
    let place = from.saturating_add(nows);
    let last = clock.len().saturating_sub(1);
    clock.get((place as usize).min(last)).copied().unwrap_or(0)
}

// So many, and one more for each act and each clock value before it.
fn count_on(past: &[Past], nows: u64) -> u64
    ensures { result ≡ fold counted_on nows past.now }
{
    past.iter().fold(nows, |acts, act| {
        acts.saturating_add(act.nows).saturating_add(1)
    })
}

impl History {
    /// An empty record, and a clock by this script. After its end the last value comes again, or 0 where there is none.
    pub fn new(alloc: Global, clock: Vec<u64>) -> Self
        ensures acts { acts_told result ≡ Some [] }
        ensures clock { result.clock.items ≡ clock.items }
    {
        History {
            past: Vec::new(alloc),
            clock,
            from: 0,
            nows: 0,
            is_full: false,
        }
    }

    /// The acts so far, each with the clock values before it.
    pub fn past(&self) -> &[Past]
        ensures { result.now ≡ self.now.past.items }
    {
        &self.past
    }

    /// How many acts there are, clock values among them. It stops at the greatest `u64`.
    pub fn acts(&self) -> u64
        ensures { result ≡ acts_counted self.now }
    {
        count_on(&self.past, self.nows)
    }

    /// The next clock value.
    pub fn now(&mut self) -> u64
        ensures value { result ≡ next_value self.old }
        ensures acts { OnSome (acts_told self.new)
            (acts_told self.new ≡ option_map (λ acts. acts ++ Now result ∷ []) (acts_told self.old)) }
        ensures tells { (disk : Disk) → TellsOn 1 (told_by (acts_told self.old) disk) (told_by (acts_told self.new) disk) }
        ensures place { clock_place self.new ≡ counted (clock_place self.old) }
        ensures clock { self.new.clock.items ≡ self.old.clock.items }
    {
        let value = value_at(&self.clock, self.from, self.nows);
        if self.nows == u64::MAX {
            self.is_full = true;
        } else {
            self.nows += 1;
        }
        value
    }

    /// Makes room for an act.
    pub fn reserve(&mut self) -> Result<(), AllocError>
        ensures acts { acts_told self.new ≡ acts_told self.old }
        ensures room { OnOk result (vec_len self.new.past < vec_capacity self.new.past) }
        ensures clock { SameClock self.old self.new }
    {
        self.past.reserve(1)
    }

    /// Puts an act into the record. Where there is room for it, it takes no memory.
    pub fn note(&mut self, act: PastAct) -> Result<(), AllocError>
        ensures ok { OnOk result (acts_told self.new ≡ option_map (λ acts. acts ++ act_of act ∷ []) (acts_told self.old)) }
        ensures err { OnErr result (acts_told self.new ≡ acts_told self.old) }
        ensures room { vec_len self.old.past < vec_capacity self.old.past → IsOk result }
        ensures clock { SameClock self.old self.new }
    {
        let (from, nows) = (self.from, self.nows);
        self.past.push(Past { from, nows, act })?;
        self.from = from.saturating_add(nows);
        self.nows = 0;
        Ok(())
    }

    /// What so many acts of the record make of these areas, clock values counted too.
    pub fn trail(
        &self,
        alloc: Global,
        first: &MemoryDisk,
        acts: u64,
    ) -> Result<MemoryTrail, AllocError>
        ensures { IfOk result (λ trail. IfSome (acts_told self.now)
            (λ told. trail_of trail ≡ followed (started (disk_of first.now)) (take acts told))) }
    {
        let mut trail = MemoryTrail::new(alloc, first)?;
        trail.follow_all(alloc, &self.past, acts)?;
        Ok(trail)
    }
}
