ghost use Rattle.std.specs.Prelude.{◌≡◌, true, Some, IfOk};
ghost use Rattle.node_device_mem.specs.MemoryDevices.{memory_begun};
ghost use Rattle.node_state.specs.Answers.{store_in};
ghost use Rattle.node_tests.specs.declared.slot_bytes.TheConstants.{WHO};

use crate::devices::{areas, begun};
use crate::silent::Silent;
use crate::slot_bytes::{
    FRESH, NAME, OLD_FIRST, OLD_VOTED, VOTED, VOTED_IN_A_RECORD, WHO, old_first_and,
};
use kv_machine::KvCmd;
use node_body::{Who, Why};
use node_device::Device;
use node_device_mem::{Areas, MemoryDevice};
use node_state::{OpenFault, Opened, Refusal, StateFault, open, save};
use raft_types::{Entries, Kept};
use std::alloc::{AllocError, Global};
use std::test::Fail;
use vst_base::{Entry, Node, What};

// What a call on a node's state came to, as far as these rows differ: the term and the number of entries of the state.
#[derive(Clone, Copy, PartialEq, Eq)]
enum Seen {
    Fresh,
    Held(u64, usize),
    Not(OpenFault),
}

// The state before the vote, and the one after it.
const OLD: Seen = Seen::Held(0, 0);

const NEW: Seen = Seen::Held(1, 0);

// A device that tells nothing, over areas that hold this. Calls of these numbers fail, and all after so many acts.
fn silent(
    alloc: Global,
    areas: Areas,
    failing: &[u64],
    stop: u64,
) -> Result<Silent<MemoryDevice>, AllocError>
    ensures { IfOk result (λ device. memory_begun device.device ≡ true) }
{
    let mut device = begun(alloc, areas, failing)?;
    device.stop_after(stop);
    Ok(Silent { device })
}

// Such a device where nothing fails.
fn steady(
    alloc: Global,
    slot0: &[u8],
    slot1: &[u8],
    selector: &[u8],
) -> Result<Silent<MemoryDevice>, AllocError>
    ensures { IfOk result (λ device. memory_begun device.device ≡ true) }
{
    silent(alloc, areas(alloc, slot0, slot1, selector)?, &[], u64::MAX)
}

// Opens the areas of a device, for node 0 of three.
fn opened<D: Device>(alloc: Global, device: &mut D) -> Result<Opened<KvCmd>, OpenFault>
    requires { D.begun device.old ≡ true }
    ensures begun { D.begun device.new ≡ true }
    ensures who { IfOk result (λ opened. (store_in opened).who ≡ WHO) }
{
    open::<D, KvCmd>(alloc, device, &WHO)
}

fn seen_of(opened: &Result<Opened<KvCmd>, OpenFault>) -> Seen {
    match opened {
        Ok(Opened::Fresh(_)) => Seen::Fresh,
        Ok(Opened::Held(_, kept)) => Seen::Held(kept.term(), kept.log().len()),
        Err(fault) => Seen::Not(*fault),
    }
}

// The state of term 1 in which node 0 of three voted for node 1, with a no-op of that term or without.
fn voted(alloc: Global, with_no_op: bool) -> Result<Kept<KvCmd>, AllocError>
    ensures { IfOk result (λ kept. kept.voted ≡ Some 1) }
{
    let mut log = Vec::new(alloc);
    if with_no_op {
        log.push(Entry::new(1, What::Noop))?;
    }
    Ok(Kept::new(1, Node::new(1, 3), Entries::new(log)))
}

// Saves a state after what was opened.
fn saved<D: Device>(
    alloc: Global,
    device: &mut Silent<D>,
    opened: Result<Opened<KvCmd>, OpenFault>,
    kept: &Kept<KvCmd>,
) -> Option<Result<(), StateFault>>
    requires begun { D.begun device.old.device ≡ true }
    requires who { IfOk opened (λ opened. (store_in opened).who ≡ WHO) }
    requires voted { kept.now.voted ≡ Some 1 }
    ensures { D.begun device.new.device ≡ true }
{
    match opened {
        Ok(Opened::Fresh(mut store)) => { Some(save::<_, KvCmd>(alloc, &mut store, device, kept)) }
        Ok(Opened::Held(mut store, _)) => {
            Some(save::<_, KvCmd>(alloc, &mut store, device, kept))
        }
        Err(_) => None,
    }
}

// What the areas of a device open as, and what it comes to where the vote is saved after that.
fn opened_and_saved<D: Device>(
    alloc: Global,
    device: &mut Silent<D>,
    with_no_op: bool,
) -> Result<(Seen, Option<Result<(), StateFault>>), AllocError>
    requires { D.begun device.old.device ≡ true }
    ensures { D.begun device.new.device ≡ true }
{
    let kept = voted(alloc, with_no_op)?;
    let found = opened(alloc, device);
    let seen = seen_of(&found);
    Ok((seen, saved(alloc, device, found, &kept)))
}

// What the areas of a device read as.
fn reads(device: &Silent<MemoryDevice>, slot0: &[u8], slot1: &[u8], selector: &[u8]) -> bool {
    device.device.area(0) == slot0
        && device.device.area(1) == slot1
        && device.device.area(2) == selector
}

// What the image of a word after so many acts opens as.
fn left(alloc: Global, device: &MemoryDevice, acts: u64, word: u32) -> Result<Seen, AllocError> {
    let mut again = silent(alloc, device.image(acts, word)?, &[], u64::MAX)?;
    Ok(seen_of(&opened(alloc, &mut again)))
}

// Whether the images of the words 0 to 3 after so many acts open as these states.
fn leaves(
    alloc: Global,
    device: &MemoryDevice,
    acts: u64,
    wanted: [Seen; 4],
) -> Result<bool, AllocError> {
    for word in 0..4 {
        if left(alloc, device, acts, word)? != wanted[word as usize] {
            return Ok(false);
        }
    }
    Ok(true)
}

// Slot 0 with so many records of the vote after the first state, and a closed gate.
fn with_records(alloc: Global, records: usize) -> Result<Vec<u8>, AllocError> {
    let mut slot = Vec::from_slice(alloc, &FRESH[..38])?;
    for _record in 0..records {
        slot.extend_from_slice(&VOTED_IN_A_RECORD[38..56])?;
    }
    slot.push(0)?;
    Ok(slot)
}

#[test]
fn empty_areas_are_opened(rt: HostRuntime) -> Result<(), Fail> {
    let mut device = steady(rt.alloc(), b"", b"", b"")?;
    assert!(rt; seen_of(&opened(rt.alloc(), &mut device)) == Seen::Fresh);
    assert!(rt; reads(&device, &FRESH, &FRESH, &[0]) && device.device.acts() == 12);
    Ok(())
}

#[test]
fn empty_areas_are_saved_in_once(rt: HostRuntime) -> Result<(), Fail> {
    let alloc = rt.alloc();
    let mut device = steady(alloc, b"", b"", b"")?;
    assert!(rt; opened_and_saved(alloc, &mut device, false)? == (Seen::Fresh, Some(Ok(()))));
    assert!(rt; reads(&device, &VOTED_IN_A_RECORD, &FRESH, &[0]) && device.device.acts() == 16);
    assert!(rt; opened_and_saved(alloc, &mut device, false)? == (NEW, Some(Ok(()))));
    assert!(rt; device.device.acts() == 19, "what is held is not written");
    Ok(())
}

#[test]
fn a_slot_of_version_1_is_written_anew(rt: HostRuntime) -> Result<(), Fail> {
    let old = old_first_and(rt.alloc(), &[2, 255, 255])?;
    let mut device = steady(rt.alloc(), &old, &OLD_FIRST, &[0])?;
    assert!(rt; seen_of(&opened(rt.alloc(), &mut device)) == OLD);
    assert!(rt; reads(&device, &old, &FRESH, &[1]));
    Ok(())
}

#[test]
fn a_slot_of_version_1_is_saved_anew(rt: HostRuntime) -> Result<(), Fail> {
    let old = old_first_and(rt.alloc(), &[2, 255, 255])?;
    let mut device = steady(rt.alloc(), &old, &OLD_FIRST, &[0])?;
    assert!(rt; opened_and_saved(rt.alloc(), &mut device, false)? == (OLD, Some(Ok(()))));
    assert!(rt; reads(&device, &old, &VOTED_IN_A_RECORD, &[1]));
    Ok(())
}

#[test]
fn a_journal_of_version_1_is_written_anew(rt: HostRuntime) -> Result<(), Fail> {
    let old = old_first_and(rt.alloc(), &VOTED_IN_A_RECORD[38..])?;
    let mut device = steady(rt.alloc(), b"", &old, &[255])?;
    assert!(rt; seen_of(&opened(rt.alloc(), &mut device)) == NEW);
    assert!(rt; reads(&device, &VOTED, &old, &[0]));
    Ok(())
}

// Whether areas are refused for this to a node, and stay as they were.
fn refused_and_left(
    alloc: Global,
    slot0: &[u8],
    selector: &[u8],
    why: Refusal,
) -> Result<bool, AllocError> {
    let mut device = steady(alloc, slot0, b"", selector)?;
    let found = seen_of(&opened(alloc, &mut device));
    Ok(
        found == Seen::Not(OpenFault::Refused(why))
            && reads(&device, slot0, b"", selector)
            && device.device.acts() == 4,
    )
}

#[test]
fn areas_are_refused_and_left(rt: HostRuntime) -> Result<(), Fail> {
    let open = old_first_and(rt.alloc(), &[1])?;
    for (slot0, selector, why) in [
        (open.as_slice(), [0].as_slice(), Refusal::Slot(Why::Journal)),
        (&OLD_VOTED[..21], &[2], Refusal::Slot(Why::Slot)),
        (&FRESH, &[0, 0], Refusal::Selector),
    ] {
        assert!(rt; refused_and_left(rt.alloc(), slot0, selector, why)?);
    }
    Ok(())
}

// The eighth call would be the second read of the slot.
#[test]
fn what_a_closed_gate_hides_is_not_read(rt: HostRuntime) -> Result<(), Fail> {
    let alloc = rt.alloc();
    let mut slot = Vec::from_slice(alloc, &VOTED_IN_A_RECORD)?;
    slot.extend_from_slice(&[255; 5000])?;
    let mut device = silent(alloc, areas(alloc, &slot, b"", &[0])?, &[8], u64::MAX)?;
    assert!(rt; seen_of(&opened(alloc, &mut device)) == NEW);
    Ok(())
}

#[test]
fn another_name_is_refused(rt: HostRuntime) -> Result<(), Fail> {
    let mut configured = NAME;
    configured[15] = 0;
    let who = Who {
        name: configured,
        ..WHO
    };
    let mut device = steady(rt.alloc(), &VOTED, b"", &[4])?;
    let found = open::<_, KvCmd>(rt.alloc(), &mut device, &who);
    let why = Why::Name {
        kept: NAME,
        configured,
    };
    assert!(rt; seen_of(&found) == Seen::Not(OpenFault::Refused(Refusal::Slot(why))));
    Ok(())
}

#[test]
fn a_base_follows_the_last_record(rt: HostRuntime) -> Result<(), Fail> {
    let alloc = rt.alloc();
    let mut device = steady(alloc, &with_records(alloc, 999)?, b"", &[0])?;
    assert!(rt; opened_and_saved(alloc, &mut device, true)? == (NEW, Some(Ok(()))));
    assert!(rt; device.device.area(0).len() == 38 + 1000 * 18 + 9 + 1);
    assert!(rt; device.device.area(1).is_empty());
    let after_a_no_op = Seen::Held(1, 1);
    assert!(rt; opened_and_saved(alloc, &mut device, false)? == (after_a_no_op, Some(Ok(()))));
    assert!(rt; device.device.area(1) == VOTED.as_slice());
    assert!(rt; device.device.area(2) == [1].as_slice());
    Ok(())
}

// Whether a device over these areas leaves these states by word, where it stops after so many acts of its opening and of a save of the
// vote.
fn stopped_leaves(
    alloc: Global,
    areas: Areas,
    stop: u64,
    wanted: [Seen; 4],
) -> Result<bool, AllocError> {
    let mut device = silent(alloc, areas, &[], stop)?;
    let _stopped = opened_and_saved(alloc, &mut device, false)?;
    leaves(alloc, &device.device, stop, wanted)
}

// What a save leaves by word, of which so many acts are left: the last of them is a sync.
fn left_by_save(acts_left: u64) -> [Seen; 4] {
    match acts_left {
        0 => [NEW; 4],
        1 => [OLD, NEW, NEW, OLD],
        _ => [OLD; 4],
    }
}

// Beginning is the first act, an opening of empty areas makes the acts 2 to 12, and a record 13 to 16.
#[test]
fn a_stop_after_each_act_leaves_one_of_two_states(rt: HostRuntime) -> Result<(), Fail> {
    let alloc = rt.alloc();
    for stop in 1..=16u64 {
        let wanted = match stop {
            ..=10 => [Seen::Fresh; 4],
            11 => [Seen::Fresh, OLD, OLD, OLD],
            _ => left_by_save(16 - stop),
        };
        let areas = areas(alloc, b"", b"", b"")?;
        assert!(rt; stopped_leaves(alloc, areas, stop, wanted)?, "{stop}");
    }
    Ok(())
}

// An opening makes the acts 2 to 4, and 5 to 9 where the slot is of version 1; a base makes five.
#[test]
fn a_stop_within_a_base_leaves_one_of_two_states(rt: HostRuntime) -> Result<(), Fail> {
    let alloc = rt.alloc();
    for (slot, acts) in [(&FRESH[..38], 9u64), (&OLD_FIRST[..], 13)] {
        for stop in 1..=acts {
            let areas = areas(alloc, slot, b"", &[6])?;
            let wanted = left_by_save(acts - stop);
            assert!(rt; stopped_leaves(alloc, areas, stop, wanted)?, "{stop}");
        }
    }
    Ok(())
}

// Whether an opening and a save of the vote over empty areas end so where a call fails: the calls up to 13 are those of the opening.
fn failed_by(alloc: Global, call: u64) -> Result<bool, AllocError> {
    let mut device = silent(alloc, areas(alloc, b"", b"", b"")?, &[call], u64::MAX)?;
    let wanted = if call > 13 {
        (Seen::Fresh, Some(Err(StateFault::Store)))
    } else {
        (Seen::Not(OpenFault::Store), None)
    };
    let ended = opened_and_saved(alloc, &mut device, false)?;
    Ok(ended == wanted && device.device.counts().store == 1)
}

#[test]
fn each_call_that_fails_is_told(rt: HostRuntime) -> Result<(), Fail> {
    for call in 2..=17 {
        assert!(rt; failed_by(rt.alloc(), call)?, "{call}");
    }
    Ok(())
}
