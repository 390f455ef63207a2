ghost use Rattle.std.specs.Prelude.{◌<◌, IfOk};
ghost use Rattle.raft_xform.specs.Sound.{IsSoundNode};

use super::requests::asked;
use handler_trait::{Effects, Handlers, MAX_SENDS, Rebootable};
use raft_types::{Entries, Kept, MAX_INDEX, RaftInput, RaftMsg, RaftOut, Vote};
use raft_xform::{Raft, RaftState};
use std::alloc::{AllocError, Global};
use std::test::Fail;
use vst_base::{ClientId, Counter, Entry, MAX_TERM, Node, ReqId};

// Client 7 asks for this to be added.
fn asks(request: u64, cmd: u8) -> RaftInput<u8> {
    RaftInput {
        client: ClientId::new(7),
        request: ReqId::new(request),
        cmd,
    }
}

// What node 0 of three keeps of its log, term by term.
fn log_terms(alloc: Global, state: &RaftState<u8, u8, u8>) -> Result<Vec<u64>, AllocError>
    requires sound { IsSoundNode 3 0 state.now }
{
    let kept = Raft::new(Counter, 3).keep(alloc, state)?;
    let mut terms = Vec::new(alloc);
    for entry in kept.log().iter() {
        terms.push(entry.term())?;
    }
    Ok(terms)
}

// As many entries of the first term as a log has places.
fn full_log(alloc: Global) -> Result<Entries<u8>, AllocError> {
    let mut made = Vec::new(alloc);
    for request in 0..u64::from(MAX_INDEX) {
        made.push(Entry::new(1, asked(7, request, 0)))?;
    }
    Ok(Entries::new(made))
}

// A node of three starts from this, and its timer fires.
fn fires(
    alloc: Global,
    node: Node,
    kept: Kept<u8>,
) -> Result<(RaftState<u8, u8, u8>, Effects<RaftOut<u8>, RaftMsg<u8>>), Fail>
    requires { node < 3 }
    ensures { IfOk result (λ made. IsSoundNode 3 node made.0) }
{
    if kept.voted().is_some() {
        return Err(Fail::from("a node that has not voted"));
    }
    let raft = Raft::new(Counter, 3);
    let mut state = raft.reboot(alloc, node, kept)?;
    let mut effects = Effects::with_capacity(alloc, 1, MAX_SENDS)?;
    raft.timeout(alloc, node, &mut state, &mut effects)?;
    Ok((state, effects))
}

// Node 0 of three starts from this and is elected, with node 2's vote in a term.
fn elected(
    alloc: Global,
    kept: Kept<u8>,
    term: u64,
) -> Result<(RaftState<u8, u8, u8>, Effects<RaftOut<u8>, RaftMsg<u8>>), Fail>
    ensures { IfOk result (λ made. IsSoundNode 3 0 made.0) }
{
    let (me, voter) = (Node::new(0, 3).unwrap(), Node::new(2, 3).unwrap());
    if term == 0 || term > MAX_TERM {
        return Err(Fail::from("a term"));
    }
    let (mut state, _) = fires(alloc, me, kept)?;
    let vote = RaftMsg::Vote(Vote::new(term, true));
    let mut effects = Effects::with_capacity(alloc, 1, MAX_SENDS)?;
    Raft::new(Counter, 3).message(alloc, me, &mut state, voter, &vote, &mut effects)?;
    Ok((state, effects))
}

// The new leader, and what comes of it when it is asked then.
fn elected_and_asked(
    alloc: Global,
    kept: Kept<u8>,
    term: u64,
) -> Result<(RaftState<u8, u8, u8>, Effects<RaftOut<u8>, RaftMsg<u8>>), Fail>
    ensures { IfOk result (λ made. IsSoundNode 3 0 made.0) }
{
    let me = Node::new(0, 3).unwrap();
    let (mut state, _) = elected(alloc, kept, term)?;
    let mut effects = Effects::with_capacity(alloc, 1, MAX_SENDS)?;
    Raft::new(Counter, 3).input(alloc, me, &mut state, &asks(1, 5), &mut effects)?;
    Ok((state, effects))
}

// Whether this goes to node n from the leader of term 2, which knows of no commit: no entries for after the end of a full log, whose
// last one is of term 1.
fn is_heartbeat(sent: &(Node, RaftMsg<u8>), n: u8) -> bool {
    let RaftMsg::Append(append) = &sent.1 else {
        return false;
    };
    sent.0.index() == n
        && (append.term(), append.commit()) == (2, 0)
        && (append.prev_index(), append.prev_term()) == (MAX_INDEX, 1)
        && append.entries().is_empty()
}

// Whether that goes to nodes 1 and 2, and nothing else goes or is told.
fn are_heartbeats(effects: &Effects<RaftOut<u8>, RaftMsg<u8>>) -> bool {
    let [first, second] = effects.sends() else {
        return false;
    };
    effects.outputs().is_empty() && is_heartbeat(first, 1) && is_heartbeat(second, 2)
}

// Whether a log has as many entries as it may, and the last is of the first term.
fn is_full(terms: &[u64]) -> bool {
    (terms.len(), terms.last()) == (MAX_INDEX as usize, Some(&1))
}

#[test]
fn a_new_leader_whose_log_is_full_adds_nothing(rt: HostRuntime) -> Result<(), Fail> {
    let kept = Kept::new(1, None, full_log(rt.alloc())?);
    let (state, effects) = elected(rt.alloc(), kept, 2)?;
    assert!(rt; Raft::new(Counter, 3).leads(&state));
    assert!(rt; is_full(&log_terms(rt.alloc(), &state)?));
    assert!(rt; are_heartbeats(&effects));
    Ok(())
}

#[test]
fn a_leader_whose_log_is_full_says_so(rt: HostRuntime) -> Result<(), Fail> {
    let (client, request) = (ClientId::new(7), ReqId::new(1));
    let kept = Kept::new(1, None, full_log(rt.alloc())?);
    let (state, effects) = elected_and_asked(rt.alloc(), kept, 2)?;
    let (outputs, sends) = effects.into_parts();
    assert!(rt; is_full(&log_terms(rt.alloc(), &state)?));
    assert!(rt; outputs.as_slice() == [RaftOut::Full { client, request }].as_slice());
    assert!(rt; sends.is_empty());
    Ok(())
}
