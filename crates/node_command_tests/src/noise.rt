use crate::bytes::{FRESH, HEADING};
use crate::run::{Answer, Ran, START, Start, THREE_TURNS, at, run};
use node_device_mem::Arrival;
use rand_core::utils::NextWord;
use rand_pcg::Lcg64Xsh32;
use std::alloc::{AllocError, Global};
use std::test::Fail;

const THOUSAND: Start<'static> = Start {
    turns: "1000",
    ..START
};

// Up to 63 random bytes.
fn random_bytes(alloc: Global, random: &mut Lcg64Xsh32) -> Result<Vec<u8>, AllocError> {
    let mut bytes = Vec::new(alloc);
    for _ in 0..random.next_word() % 64 {
        bytes.push((random.next_word() % 256) as u8)?;
    }
    Ok(bytes)
}

// So many random datagrams from node 1, each second one with a right heading.
fn noise(alloc: Global, count: u16) -> Result<Vec<Arrival>, AllocError> {
    let mut random = Lcg64Xsh32::new(5, 1);
    let mut arrivals = Vec::new(alloc);
    for number in 0..count {
        let mut bytes = Vec::from_slice(alloc, if number % 2 == 0 { b"" } else { HEADING })?;
        bytes.append(&mut random_bytes(alloc, &mut random)?)?;
        arrivals.push(Arrival::Datagram {
            from: at(7001),
            bytes,
        })?;
    }
    Ok(arrivals)
}

// Whether a run answered this, and sent and saved nothing.
fn is_quiet(ran: &Ran, answer: &Answer<'_>) -> bool {
    ran.came_to(answer, &[], [FRESH, FRESH, b"\0"])
}

#[test]
fn a_thousand_random_datagrams_change_nothing(rt: HostRuntime) -> Result<(), Fail> {
    let alloc = rt.alloc();
    let ran = run(alloc, &THOUSAND, noise(alloc, 1000)?)?;
    let answer = Answer {
        out: b"turns 1000\n",
        ..THREE_TURNS
    };
    assert!(rt; is_quiet(&ran, &answer));
    // beginning, an opening of empty areas and its clock value, and two acts a turn
    assert!(rt; ran.device.acts() == 1 + 11 + 1 + 2000);
    Ok(())
}
