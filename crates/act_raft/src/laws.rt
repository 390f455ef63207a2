ghost use Rattle.act_raft.specs.RaftLaws.{ActsAreLinearizable, FewerOutputsAreAView, SchedulesAreLinearizable};

use act_network::SavesStates;
use raft_types::Kept;

/// Single acts of a Raft cluster, of any machine, over any way to keep the nodes' states: the run of whole events is one of Raft, and one
/// machine, which takes the requests that this run executes, in their order, explains what clients saw.
pub fn acts_are_linearizable<S, C, O, D: SavesStates<Kept = Kept<C>>>()
    // Where each stop leaves what a crash may leave, and each new state can be saved.
    ensures acts { ActsAreLinearizable S O D.disks D.holds D.can_save }

    // The same where what is asked of saves is asked of runs of whole events alone.
    ensures schedules { SchedulesAreLinearizable S O D.disks D.holds D.can_save }
{}

/// A trace with some outputs left out is a view of it: so what explains it explains the rest.
pub fn fewer_outputs_are_a_view<C, O>()
    ensures { FewerOutputsAreAView C O }
{}
