use vst_base::{ClientId, Entry, MAX_TERM, Node, ReqId, What};

// A request's entry of these parts, which node 0 or 1 took.
fn entry(term: u64, client: u64, request: u64, origin: u8, cmd: u8) -> Entry<u8> {
    let (client, request) = (ClientId::new(client), ReqId::new(request));
    let origin = Node::new(origin.clamp(0, 1), 2).unwrap();
    let what = What::Request {
        client,
        request,
        origin,
        cmd,
    };
    Entry::new(term.clamp(1, MAX_TERM), what)
}

#[test]
fn entries_differ_where_a_part_does(rt: HostRuntime) {
    let known = entry(3, 1, 2, 0, 5);
    for (term, client, request, origin, cmd, equal) in [
        (3, 1, 2, 0, 5, true),
        (4, 1, 2, 0, 5, false),
        (3, 2, 2, 0, 5, false),
        (3, 1, 1, 0, 5, false),
        (3, 1, 2, 1, 5, false),
        (3, 1, 2, 0, 6, false),
    ] {
        let other = entry(term, client, request, origin, cmd);
        assert!(rt; (known == other) == equal);
    }
    assert!(rt; Entry::new(3, What::Noop) != known);
    assert!(rt; Entry::<u8>::new(3, What::Noop) == Entry::new(3, What::Noop));
    assert!(rt; Entry::<u8>::new(3, What::Noop) != Entry::new(4, What::Noop));
}
