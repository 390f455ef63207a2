ghost use Rattle.std.specs.Prelude.{◌<◌, IfOk};

use raft_election::{Ballot, is_majority};
use std::test::Fail;
use vst_base::{MAX_TERM, Node};

// Node n of nine.
fn node(n: u8) -> Result<Node, Fail>
    ensures { IfOk result (λ node. node < 16) }
{
    Ok(Node::new(n, 9).ok_or("a node")?)
}

#[test]
fn three_nodes_elect_a_leader(rt: HostRuntime) -> Result<(), Fail> {
    let (candidate, voter) = (node(0)?, node(1)?);
    let mut ballot = Ballot::kept(4, Some(node(2)?));
    assert!(rt; ballot.start(candidate));
    assert!(rt; ballot.term() == 5 && ballot.votes() == 0b001);
    assert!(rt; ballot.voted() == Some(candidate));
    assert!(rt; !is_majority(ballot.votes(), 3));

    let mut other = Ballot::new();
    assert!(rt; other.learn(5));
    assert!(rt; other.on_request(5, candidate, true));
    ballot.on_grant(voter);
    ballot.on_grant(voter);
    assert!(rt; ballot.votes() == 0b011);
    assert!(rt; is_majority(ballot.votes(), 3));
    Ok(())
}

#[test]
fn a_vote_goes_to_one_candidate_of_the_term(rt: HostRuntime) -> Result<(), Fail> {
    for (voted, term, from, up_to_date, granted) in [
        (None, 5, 0, true, true),
        (None, 5, 0, false, false),
        (None, 4, 0, true, false),
        (None, 6, 0, true, false),
        (Some(0), 5, 0, true, true),
        (Some(0), 5, 0, false, false),
        (Some(1), 5, 0, true, false),
    ] {
        let voted = match voted {
            None => None,
            Some(n) => Some(node(n)?),
        };
        let mut ballot = Ballot::kept(5, voted);
        let from = node(from)?;
        assert!(rt; ballot.on_request(term, from, up_to_date) == granted);
        let after = if granted { Some(from) } else { voted };
        assert!(rt; ballot == Ballot::kept(5, after));
    }
    Ok(())
}

#[test]
fn a_term_ends_with_its_vote(rt: HostRuntime) -> Result<(), Fail> {
    let voted = Some(node(3)?);
    for (term, greater) in [(4, false), (5, false), (6, true), (MAX_TERM, true)] {
        let mut ballot = Ballot::kept(5, voted);
        assert!(rt; ballot.learn(term) == greater);
        let after = if greater {
            Ballot::kept(term, None)
        } else {
            Ballot::kept(5, voted)
        };
        assert!(rt; ballot == after);
    }
    Ok(())
}

#[test]
fn the_greatest_term_has_no_next(rt: HostRuntime) -> Result<(), Fail> {
    let me = node(8)?;
    let mut ballot = Ballot::kept(MAX_TERM - 1, None);
    assert!(rt; ballot.start(me));
    assert!(rt; ballot.term() == MAX_TERM && ballot.votes() == 256);
    assert!(rt; !ballot.start(node(0)?));
    assert!(rt; ballot.term() == MAX_TERM && ballot.votes() == 256);
    assert!(rt; ballot.voted() == Some(me));
    Ok(())
}

#[test]
fn more_than_half_is_a_majority(rt: HostRuntime) {
    for (votes, nodes, is) in [
        (0, 0, false),
        (0b1, 1, true),
        (0b1, 2, false),
        (0b11, 2, true),
        (0b101, 3, true),
        (0b1001, 4, false),
        (0b111001, 3, false),
        (u16::MAX, 16, true),
        (u16::MAX, 31, true),
        (u16::MAX, 32, false),
        (u16::MAX, 255, false),
    ] {
        assert!(rt; is_majority(votes, nodes) == is, "{votes} of {nodes}");
    }
}
