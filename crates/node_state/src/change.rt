ghost use Rattle.std.specs.Prelude.{◌≡◌, ◌+◌, ◌*◌, ◌<◌};
ghost use Rattle.node_body.specs.declared.bases.TheConstants.{MAX_RECORD_LEN};

use crate::store::JournalEnd;
use std::marker::Model;
use store_acts::StoreAct;
use vst_base::Node;

/// What a node knows anew once the acts of a save were made: where the journal goes on, the term, the vote in it, how many entries of the
/// state that was held stay, and the terms of those that follow them.
#[derive(Drop)]
pub struct StoreChange {
    end: JournalEnd,
    term: u64,
    voted: Option<Node>,
    keep: usize,
    added: Vec<u64>,
}

impl Model for StoreChange {
    ghost use Rattle.std.specs.Prelude.{◌+◌, ◌*◌, ◌<◌};
    ghost use Rattle.node_body.specs.declared.bases.TheConstants.{MAX_RECORD_LEN};
    ghost use Rattle.node_state.specs.Changes.{ChangeView};

    ghost Value = { ChangeView };

    ghost view = { λ c. record {
      end = c.end;
      term = c.term;
      voted = c.voted;
      keep = c.keep;
      added = c.added.items;
    } };

    ghost invariant = { λ c. c.end.gate + c.end.left * MAX_RECORD_LEN < 18446744073709551616 };
}

impl StoreChange {
    // A change to these.
    pub(crate) fn new(
        end: JournalEnd,
        term: u64,
        voted: Option<Node>,
        keep: usize,
        added: Vec<u64>,
    ) -> Self
        requires room { end.gate + end.left * MAX_RECORD_LEN < 18446744073709551616 }
        ensures { result ≡ record {
          end = end;
          term = term;
          voted = voted;
          keep = keep;
          added = added.items;
        } }
    {
        StoreChange {
            end,
            term,
            voted,
            keep,
            added,
        }
    }

    // Gives up the change for its parts.
    pub(crate) fn into_parts(self) -> (JournalEnd, u64, Option<Node>, usize, Vec<u64>)
        ensures end { result.0 ≡ self.end }
        ensures term { result.1 ≡ self.term }
        ensures voted { result.2 ≡ self.voted }
        ensures keep { result.3 ≡ self.keep }
        ensures added { result.4.items ≡ self.added }
        ensures room { result.0.gate + result.0.left * MAX_RECORD_LEN < 18446744073709551616 }
    {
        (self.end, self.term, self.voted, self.keep, self.added)
    }
}

/// What saves a state: its acts, in their order, and what the node knows anew once all of them were made.
#[derive(Drop)]
pub struct SavePlan {
    pub acts: Vec<StoreAct>,
    pub change: StoreChange,
}
