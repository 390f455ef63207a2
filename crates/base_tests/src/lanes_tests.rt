use lanes::Lanes;
use std::test::Fail;
use vst_base::Node;

#[test]
fn each_packet_follows_the_last_of_its_lane(rt: HostRuntime) -> Result<(), Fail> {
    let mut lanes = Lanes::new(rt.alloc());
    for (source, destination) in [(1, 0), (2, 0), (1, 0), (1, 2), (1, 0), (2, 1), (2, 0)] {
        let from = Node::new(source.min(2), 3).unwrap();
        let to = Node::new(destination.min(2), 3).unwrap();
        lanes.push(from, to)?;
    }
    assert!(rt; lanes.len() == 7);
    for (k, before) in [
        (0, None),
        (1, None),
        (2, Some(0)),
        (3, None),
        (4, Some(2)),
        (5, None),
        (6, Some(1)),
        (7, None),
    ] {
        assert!(rt; lanes.previous(k) == before);
    }
    Ok(())
}
