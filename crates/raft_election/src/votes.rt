ghost use Rattle.std.specs.Prelude.{◌≡◌, ◌<◌};
ghost use Rattle.vst_base.specs.Elections as elections;
ghost use Rattle.raft_election.specs.Ballots as ballots;

use vst_base::Node;

/// Whether the node of this number is in the set.
pub(crate) fn has_vote(votes: u16, n: u8) -> bool
    ensures { result ≡ ballots.has_vote votes n }
{
    n < 16 && (votes >> n) & 1 == 1
}

/// The set with the node in it.
pub(crate) fn with_vote(votes: u16, node: Node) -> u16
    requires { node < 16 }
    ensures { result ≡ ballots.with_vote node votes }
{
    votes | (1 << node.index())
}

/// Whether the set, node n being its bit of value 2^n, has more than half of so many nodes (the Raft
/// paper, section 5.2). Half is no majority.
pub fn is_majority(votes: u16, nodes: u8) -> bool
    ensures { result ≡ elections.is_majority nodes (ballots.has_vote votes) }
{
    let mut count: u16 = 0;
    for n in 0..nodes {
        if has_vote(votes, n) {
            count += 1;
        }
    }
    2 * count > u16::from(nodes)
}
