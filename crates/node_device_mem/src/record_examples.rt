ghost use Rattle.std.specs.Prelude.{◌≡◌, ℕ, ◌-◌, ◌^◌, true, false, [], ◌∷◌, None, Some, length};
ghost use Rattle.std.specs.Global.{Vec};
ghost use Rattle.disk.specs.Acts.{Began, BeginFailed, Now, Quiet, ReceiveFailed, SendFailed, Sent, Took};
ghost use Rattle.disk.specs.Acts.{Cut, CutTo, ReadAt, StoreFailed, Sync, Synced, WriteAt, Wrote};
ghost use Rattle.disk.specs.Areas.{changed};
ghost use Rattle.disk.specs.Disk.{settled, written};
ghost use Rattle.node_device.specs.Examples.{holds, node_at, shows, tells};
ghost use Rattle.node_device_mem.specs.Devices.{AreasFollow, SteadyStays, noted, noted_with, places_of, steady_told};
ghost use Rattle.node_device_mem.specs.Examples.{first_disk_of, is_due_by, of_five, of_record, past_after, quiet_and_synced};
ghost use Rattle.node_device_mem.specs.Examples.{stands_for, stops_at, told_9, wrote_9};
ghost use Rattle.node_device_mem.specs.Histories.{SameClock, act_of, acts_counted, acts_told, clock_place, counted_on, next_value};
ghost use Rattle.node_device_mem.specs.MemoryDevices.{Stays, faults_of};
ghost use Rattle.node_device_mem.specs.Scripts.{called};
ghost use Rattle.node_device_mem.specs.declared.memory.MemoryDevice.{MemoryDevice};
ghost use Rattle.node_device_mem.specs.declared.steady.SteadyDevice.{SteadyDevice};

use crate::PastAct;

/// Which calls a script fails: those of its numbers, counted from 1, and each once so many acts were done.
pub fn worked_scripts()
    ensures third { is_due_by (3 ∷ 5 ∷ []) None 2 0 true }
    ensures fourth { is_due_by (3 ∷ 5 ∷ []) None 3 0 false }
    ensures fifth { is_due_by (3 ∷ 5 ∷ []) None 4 0 true }
    ensures none { is_due_by [] None 0 9 false }
    ensures before_the_stop { is_due_by [] (Some 4) 7 3 false }
    ensures at_the_stop { is_due_by [] (Some 4) 7 4 true }
    ensures after_the_stop { is_due_by [] (Some 4) 7 5 true }
    ensures by_its_number_before_the_stop { is_due_by (8 ∷ []) (Some 4) 7 3 true }
    ensures a_call_is_no_act { is_due_by (9 ∷ []) (Some 9) 9 8 false }
    ensures called { (failing : Vec ℕ) → (called (record { failing = failing; last = None; calls = 2 })).calls ≡ 3 }
    ensures called_at_the_greatest { (failing : Vec ℕ) →
        (called (record { failing = failing; last = None; calls = 2 ^ 64 - 1 })).calls ≡ 2 ^ 64 - 1 }
{}

/// The acts that a record's own stand for.
pub fn worked_acts()
    ensures began { stands_for (λ dir. PastAct.Began (node_at 7000) dir) (λ dir. Began (node_at 7000) dir) }
    ensures begin_failed { stands_for (λ dir. PastAct.BeginFailed (node_at 7000) dir) (λ dir. BeginFailed (node_at 7000) dir) }
    ensures took { stands_for (λ bytes. PastAct.Took 300 (node_at 7001) bytes) (λ bytes. Took 300 (node_at 7001) bytes) }
    ensures quiet { act_of (PastAct.Quiet 300) ≡ Quiet 300 }
    ensures receive_failed { act_of (PastAct.ReceiveFailed 300) ≡ ReceiveFailed 300 }
    ensures sent { stands_for (λ bytes. PastAct.Sent (node_at 7001) bytes) (λ bytes. Sent (node_at 7001) bytes) }
    ensures send_failed { stands_for (λ bytes. PastAct.SendFailed (node_at 7001) bytes) (λ bytes. SendFailed (node_at 7001) bytes) }
    ensures wrote { stands_for (λ bytes. PastAct.Wrote 1 2 bytes) (λ bytes. Wrote 1 2 bytes) }
    ensures cut { act_of (PastAct.Cut 1 2) ≡ Cut 1 2 }
    ensures synced { act_of (PastAct.Synced 1) ≡ Synced 1 }
    ensures read_failed { act_of (PastAct.ReadFailed 1 2 3) ≡ StoreFailed (ReadAt 1 2 3) }
    ensures write_failed { stands_for (λ bytes. PastAct.WriteFailed 1 2 bytes) (λ bytes. StoreFailed (WriteAt 1 2 bytes)) }
    ensures cut_failed { act_of (PastAct.CutFailed 1 2) ≡ StoreFailed (CutTo 1 2) }
    ensures sync_failed { act_of (PastAct.SyncFailed 1) ≡ StoreFailed (Sync 1) }
    ensures sync_failed_as_synced { act_of (PastAct.SyncFailed 1) ≡ Synced 1 → ⊥ }
{}

/// A record of a clock value, a quiet wait, a sync and two clock values more, and counts of acts and of clock values. What is full of clock
/// values is told no more, and a count stops at the greatest.
pub fn worked_records()
    ensures told { of_five (λ history. acts_told history ≡ Some (Now 5 ∷ Quiet 300 ∷ Synced 0 ∷ Now 9 ∷ Now 9 ∷ [])) }
    ensures told_of_the_last_alone { of_five (λ history. acts_told history ≡ Some (Quiet 300 ∷ Synced 0 ∷ Now 9 ∷ Now 9 ∷ []) → ⊥) }
    ensures full { of_record quiet_and_synced 1 2 true (λ history. acts_told history ≡ None) }
    ensures acts { of_five (λ history. acts_counted history ≡ 5) }
    ensures acts_but_clock_values { of_five (λ history. acts_counted history ≡ 2 → ⊥) }
    ensures no_act { of_record [] 0 0 false (λ history. acts_counted history ≡ 0) }
    ensures values { of_five (λ history. clock_place history ≡ 3) }
    ensures most_values { of_record [] (2 ^ 64 - 2) 5 false (λ history. clock_place history ≡ 2 ^ 64 - 1) }
    ensures second_value { of_record [] 0 1 false (λ history. next_value history ≡ 9) }
    ensures last_value_again { of_five (λ history. next_value history ≡ 9) }
    ensures counted_on { counted_on 4 (past_after 1 2 (PastAct.Synced 0)) ≡ 7 }
    ensures counted_on_at_the_greatest { counted_on (2 ^ 64 - 2) (past_after 1 2 (PastAct.Synced 0)) ≡ 2 ^ 64 - 1 }
    ensures counted_from_its_place { counted_on 4 (past_after 1 0 (PastAct.Synced 0)) ≡ 5 }
{}

/// An act noted in what is told, alone or with what it made of the areas; and areas that are, or are not, as their acts left them.
pub fn worked_notes()
    ensures noted { noted (Synced 0) (tells (Now 5 ∷ [])) ≡ tells (Now 5 ∷ Synced 0 ∷ []) }
    ensures noted_first { noted (Synced 0) (tells (Now 5 ∷ [])) ≡ tells (Synced 0 ∷ Now 5 ∷ []) → ⊥ }
    ensures noted_in_none { noted (Synced 0) None ≡ None }
    ensures written { noted_with wrote_9 (λ disk. changed disk 0 (written 0 (9 ∷ []))) (holds (1 ∷ 2 ∷ [])) ≡ told_9 }
    ensures unwritten { noted_with wrote_9 (λ disk. disk) (holds (1 ∷ 2 ∷ [])) ≡ told_9 → ⊥ }
    ensures follow { AreasFollow (first_disk_of (1 ∷ 2 ∷ [])) told_9 }
    ensures follow_from_others { AreasFollow (first_disk_of (1 ∷ 3 ∷ [])) told_9 → ⊥ }
    ensures follow_no_act { AreasFollow (first_disk_of (1 ∷ 2 ∷ [])) (shows (wrote_9 ∷ []) (settled (1 ∷ 2 ∷ []))) → ⊥ }
    ensures follow_untold { AreasFollow (first_disk_of (1 ∷ 2 ∷ [])) None }
{}

/// What a device tells, how far it is in its scripts, its faults, and whether its next call is to fail.
pub fn worked_devices()
    ensures stops_telling { (device : SteadyDevice) → device.history.is_full ≡ true → steady_told device ≡ None }
    ensures tells_still { (device : SteadyDevice) → device.history.is_full ≡ false → steady_told device ≡ None → ⊥ }
    ensures places { of_five (λ history. (device : SteadyDevice) → device.received ≡ 4 → device.history ≡ history
        → places_of device ≡ record { received = 4; clock = 3 }) }
    ensures faults { (device : MemoryDevice) → device.counts ≡ record { begin = 1; receive = 2; store = 3; send = 4 }
        → faults_of device ≡ record { begin = 1; receive = 2; store = 3; send = 4 } }
    ensures due_after_five_acts { of_five (λ history. stops_at 5 history true) }
    ensures not_due_before_six { of_five (λ history. stops_at 6 history false) }
{}

/// What no call changes: the areas at first, the scripts, and where the clock stands as an act is noted.
pub fn worked_stays()
    ensures received { (device : SteadyDevice) → SteadyStays device (record device { received = 3; begun = true; wants = 7 }) }
    ensures other_areas_at_first { (old new : SteadyDevice) → old.first.slot1.bytes.items ≡ [] → new.first.slot1.bytes.items ≡ 0 ∷ []
        → SteadyStays old new → ⊥ }
    ensures an_arrival_less { (old new : SteadyDevice) → length old.arrivals.items ≡ 2 → length new.arrivals.items ≡ 1
        → SteadyStays old new → ⊥ }
    ensures another_clock { (old new : SteadyDevice) → old.history.clock.items ≡ 5 ∷ [] → new.history.clock.items ≡ 9 ∷ []
        → SteadyStays old new → ⊥ }
    ensures called { (device : MemoryDevice) → Stays device (record device { script = called device.script }) }
    ensures other_failures { (old new : MemoryDevice) → old.script.failing.items ≡ 3 ∷ [] → new.script.failing.items ≡ []
        → Stays old new → ⊥ }
    ensures no_stop { (old new : MemoryDevice) → old.script.last ≡ Some 4 → new.script.last ≡ None → Stays old new → ⊥ }
    ensures an_arrival_less_of_it { (old new : MemoryDevice) → length old.steady.arrivals.items ≡ 2 → length new.steady.arrivals.items ≡ 1
        → Stays old new → ⊥ }
    ensures an_act_noted { of_five (λ old. of_record [] 3 0 false (λ new. SameClock old new)) }
    ensures a_value_given { of_five (λ old. of_record [] 3 1 false (λ new. SameClock old new → ⊥)) }
{}
