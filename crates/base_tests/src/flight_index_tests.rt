use flight_index::{FlightIndex, TurnIndex};
use std::test::Fail;
use vst_base::{MAX_NODES, Node};

// Packet k goes to node k mod 3, and of every fifth no copy is in flight any more.
fn of_two_hundred(rt: &HostRuntime) -> Result<FlightIndex, Fail> {
    let mut index = FlightIndex::new(rt.alloc());
    for k in 0..200u32 {
        let Some(to) = Node::new((k % 3) as u8, MAX_NODES) else {
            return Ok(index);
        };
        index.sent(to)?;
        if k % 5 == 0 {
            index.gone(k);
        }
    }
    Ok(index)
}

#[test]
fn packets_are_found_by_their_place_among_those_in_flight(rt: HostRuntime) -> Result<(), Fail> {
    let index = of_two_hundred(&rt)?;
    assert!(rt; index.in_flight() == 160);
    for (i, k) in [(0, 1), (3, 4), (4, 6), (80, 101), (159, 199)] {
        assert!(rt; index.nth_in_flight(i) == Some(k));
    }
    assert!(rt; index.nth_in_flight(160) == None);
    Ok(())
}

#[test]
fn a_node_that_is_down_is_passed_over(rt: HostRuntime) -> Result<(), Fail> {
    let mut index = of_two_hundred(&rt)?;
    let Some(one) = Node::new(1, MAX_NODES) else {
        return Ok(());
    };
    index.set_up(one, false);
    assert!(rt; index.deliverable() == 106);
    for (i, k) in [(0, 2), (1, 3), (2, 6), (104, 197), (105, 198)] {
        assert!(rt; index.nth_deliverable(i) == Some(k));
    }
    assert!(rt; index.nth_deliverable(106) == None);
    assert!(rt; index.in_flight() == 160);
    index.set_up(one, true);
    assert!(rt; index.deliverable() == 160);
    Ok(())
}

#[test]
fn nothing_is_in_flight_at_first(rt: HostRuntime) -> Result<(), Fail> {
    let index = FlightIndex::new(rt.alloc());
    assert!(rt; index.in_flight() == 0);
    assert!(rt; index.nth_in_flight(0) == None);
    assert!(rt; index.nth_deliverable(0) == None);
    Ok(())
}

// Of two hundred packets each even one goes from node 1 to node 0, and each odd one from node 0 to itself.
#[test]
fn only_the_first_packets_of_their_source_and_destination_are_found(
    rt: HostRuntime,
) -> Result<(), Fail> {
    let mut index = TurnIndex::new(rt.alloc());
    let (Some(zero), Some(one)) = (Node::new(0, MAX_NODES), Node::new(1, MAX_NODES)) else {
        return Ok(());
    };
    for k in 0..200u32 {
        index.sent(if k % 2 == 0 { one } else { zero }, zero)?;
    }
    assert!(rt; index.firsts() == 2);
    for (i, k) in [(0, 0), (1, 1)] {
        assert!(rt; index.nth_first(i) == Some(k));
    }
    assert!(rt; index.nth_first(2) == None);
    Ok(())
}

#[test]
fn the_next_packet_is_found_once_the_first_left(rt: HostRuntime) -> Result<(), Fail> {
    let mut index = TurnIndex::new(rt.alloc());
    let (Some(zero), Some(one)) = (Node::new(0, MAX_NODES), Node::new(1, MAX_NODES)) else {
        return Ok(());
    };
    index.sent(one, zero)?;
    index.sent(one, zero)?;
    assert!(rt; index.nth_first(0) == Some(0));
    index.gone(0);
    assert!(rt; index.firsts() == 1);
    assert!(rt; index.nth_first(0) == Some(1));
    Ok(())
}
