ghost use Rattle.std.specs.Prelude.{◌≡◌, ◌<◌};

use handler_trait::{Effects, Handlers, MAX_SENDS, Rebootable};
use kv_machine::{KvCmd, KvMachine};
use lock_server::LockServer;
use primary_backup::PrimaryBackup;
use raft_types::{RaftMsg, Vote};
use raft_xform::Raft;
use seqnum_xform::SeqNum;
use std::alloc::{AllocError, Global};
use std::test::Fail;
use vst_base::{Key, LockMsg, Node, PbMsg, SeqMsg, StackId};
use wire_messages::Wire;
use wired::{Cluster, Packet, Saved, SavedBytes, Wired, hear};

// A packet of these bytes, of which one is another.
fn with_byte(alloc: Global, bytes: &[u8], place: usize, byte: u8) -> Result<Packet, AllocError> {
    let mut changed = bytes.to_vec(alloc)?;
    if let Some(found) = changed.get_mut(place) {
        *found = byte;
    }
    Ok(Packet::new(changed))
}

// A packet of a byte less.
fn shorter(alloc: Global, bytes: &[u8]) -> Result<Packet, AllocError> {
    let mut less = bytes.to_vec(alloc)?;
    less.pop();
    Ok(Packet::new(less))
}

// A packet of a byte more.
fn longer(alloc: Global, bytes: &[u8]) -> Result<Packet, AllocError> {
    let mut more = bytes.to_vec(alloc)?;
    more.push(0)?;
    Ok(Packet::new(more))
}

// Bytes that are not those of this packet of a stack of byte `other`, each by one thing: another version, stack, kind, source, receiver
// and name, nothing at all, a byte less and a byte more.
fn no_messages(alloc: Global, bytes: &[u8], other: u8) -> Result<Vec<Packet>, AllocError> {
    let mut packets = Vec::new(alloc);
    for (place, byte) in [(1, 1), (2, other), (3, 1), (4, 2), (5, 1), (21, 1)] {
        packets.push(with_byte(alloc, bytes, place, byte)?)?;
    }
    packets.push(Packet::new(Vec::new(alloc)))?;
    packets.push(shorter(alloc, bytes)?)?;
    packets.push(longer(alloc, bytes)?)?;
    Ok(packets)
}

// Whether a packet that comes from node 1 to node 0 in its first state has it send and tell nothing.
fn does_nothing<H: Handlers>(
    alloc: Global,
    handlers: &H,
    from: Node,
    to: Node,
    packet: &H::Msg,
) -> Result<bool, AllocError>
    requires from { from < (H.meaning handlers.now).nodes }
    requires to { to < (H.meaning handlers.now).nodes }
{
    let mut state = handlers.init(alloc, to)?;
    let mut effects = Effects::with_capacity(alloc, 0, MAX_SENDS)?;
    handlers.message(alloc, to, &mut state, from, packet, &mut effects)?;
    Ok(effects.outputs().is_empty() && effects.sends().is_empty())
}

// Whether none of the packets does.
fn do_nothing<H: Handlers>(
    alloc: Global,
    handlers: &H,
    from: Node,
    to: Node,
    packets: &[H::Msg],
) -> Result<bool, AllocError>
    requires from { from < (H.meaning handlers.now).nodes }
    requires to { to < (H.meaning handlers.now).nodes }
{
    for packet in packets {
        if !does_nothing(alloc, handlers, from, to, packet)? {
            return Ok(false);
        }
    }
    Ok(true)
}

// The packet of a message from one node to another, where it is heard, and bytes that differ from its own by one thing.
fn heard_and_not<M: Wire>(
    alloc: Global,
    cluster: &Cluster,
    from: Node,
    to: Node,
    message: &M,
    other: u8,
) -> Result<Option<Vec<Packet>>, AllocError> {
    let packet = Packet::of_message(alloc, cluster, from, to, message)?;
    match hear::<M>(alloc, cluster, from, to, &packet)? {
        Some(_) => Ok(Some(no_messages(alloc, packet.bytes(), other)?)),
        None => Ok(None),
    }
}

// Whether the message from node 1 to node 0 is heard, and bytes that differ from its own by one thing do nothing.
fn hears_its_own<H: Handlers>(
    alloc: Global,
    handlers: H,
    stack: StackId,
    other: u8,
    message: &H::Msg,
) -> Result<bool, AllocError>
where
    H::Msg: Wire,
{
    let cluster = Cluster {
        stack,
        name: [0; 16],
    };
    let nodes = handlers.nodes();
    let (Some(from), Some(to)) = (Node::new(1, nodes), Node::new(0, nodes)) else {
        return Ok(false);
    };
    let wired = Wired::new(handlers, cluster);
    match heard_and_not(alloc, &cluster, from, to, message, other)? {
        Some(packets) => do_nothing(alloc, &wired, from, to, &packets),
        None => Ok(false),
    }
}

#[test]
fn bytes_that_are_no_message_do_nothing_to_a_lock(rt: HostRuntime) -> Result<(), Fail> {
    let lock = LockServer::new(3);
    assert!(rt; hears_its_own(rt.alloc(), lock, StackId::Lock, 2, &LockMsg::Lock)?);
    Ok(())
}

#[test]
fn bytes_that_are_no_message_do_nothing_to_a_numbered_lock(rt: HostRuntime) -> Result<(), Fail> {
    let ask = SeqMsg {
        number: 0,
        inner: LockMsg::Lock,
    };
    let lock = SeqNum::new(LockServer::new(3));
    assert!(rt; hears_its_own(rt.alloc(), lock, StackId::LockSeq, 1, &ask)?);
    Ok(())
}

// The primary asks the backup to apply a get.
fn get(alloc: Global) -> Result<PbMsg<KvCmd>, Fail> {
    let key = Key::new(alloc, b"a")?.ok_or("a key")?;
    Ok(PbMsg::Apply(KvCmd::Get(key)))
}

// Whether that is heard, and bytes that differ from its own by one thing do nothing.
fn backup_hears_its_own(alloc: Global) -> Result<bool, Fail> {
    let backed = PrimaryBackup::new(KvMachine);
    Ok(hears_its_own(alloc, backed, StackId::KvPb, 4, &get(alloc)?)?)
}

#[test]
fn bytes_that_are_no_message_do_nothing_to_a_backup(rt: HostRuntime) -> Result<(), Fail> {
    assert!(rt; backup_hears_its_own(rt.alloc())?);
    Ok(())
}

// The same with a number.
fn numbered_backup_hears_its_own(alloc: Global) -> Result<bool, Fail> {
    let backed = SeqNum::new(PrimaryBackup::new(KvMachine));
    let message = SeqMsg {
        number: 0,
        inner: get(alloc)?,
    };
    Ok(hears_its_own(alloc, backed, StackId::KvPbSeq, 3, &message)?)
}

#[test]
fn bytes_that_are_no_message_do_nothing_to_a_numbered_backup(rt: HostRuntime) -> Result<(), Fail> {
    assert!(rt; numbered_backup_hears_its_own(rt.alloc())?);
    Ok(())
}

#[test]
fn bytes_that_are_no_message_do_nothing_to_a_node_of_a_cluster(
    rt: HostRuntime,
) -> Result<(), Fail> {
    let vote = RaftMsg::Vote(Vote::new(1, true));
    let cluster = Raft::new(KvMachine, 3);
    assert!(rt; hears_its_own(rt.alloc(), cluster, StackId::KvRaft, 7, &vote)?);
    Ok(())
}

// What a node keeps whose timer fires in its first state.
fn kept_at_first<H: Rebootable>(
    alloc: Global,
    handlers: &H,
    node: Node,
) -> Result<H::Kept, AllocError>
    requires { node < (H.meaning handlers.now).nodes }
{
    let mut state = handlers.init(alloc, node)?;
    let mut effects = Effects::with_capacity(alloc, 0, MAX_SENDS)?;
    handlers.timeout(alloc, node, &mut state, &mut effects)?;
    handlers.keep(alloc, &state)
}

// What a node keeps that starts from this.
fn kept_after<H: Rebootable>(
    alloc: Global,
    handlers: &H,
    node: Node,
    kept: H::Kept,
) -> Result<H::Kept, AllocError>
    requires node { node < (H.meaning handlers.now).nodes }
    requires fits { H.fits handlers.now kept }
{
    let state = handlers.reboot(alloc, node, kept)?;
    handlers.keep(alloc, &state)
}

// A cluster of three nodes of the store, whose states are kept as bytes.
fn three_nodes() -> Saved<Raft<KvMachine>>
    ensures { result.inner.nodes ≡ 3 }
{
    let cluster = Cluster {
        stack: StackId::KvRaft,
        name: [0; 16],
    };
    Saved::new(Raft::new(KvMachine, 3), cluster)
}

// What node 0 of three keeps, which has voted for itself.
fn first_kept(alloc: Global) -> Result<SavedBytes, Fail> {
    let node = Node::new(0, 3).unwrap();
    Ok(kept_at_first(alloc, &three_nodes(), node)?)
}

// What node n of three keeps that starts from these bytes.
fn kept_from(alloc: Global, n: u8, bytes: &[u8]) -> Result<SavedBytes, Fail> {
    let node = Node::new(n, 3).ok_or("a node of three")?;
    let kept = SavedBytes::new(bytes.to_vec(alloc)?);
    Ok(kept_after(alloc, &three_nodes(), node, kept)?)
}

// Node 0, which has voted for itself, stops. It starts again from its bytes, and node 1 as if it had none.
#[test]
fn a_body_of_another_node_is_none_of_its_own(rt: HostRuntime) -> Result<(), Fail> {
    let alloc = rt.alloc();
    let body = first_kept(alloc)?;
    let own = kept_from(alloc, 0, body.bytes())?;
    assert!(rt; own.bytes() == body.bytes());
    let others = kept_from(alloc, 1, body.bytes())?;
    let none = kept_from(alloc, 1, &[])?;
    assert!(rt; others.bytes() == none.bytes());
    Ok(())
}
