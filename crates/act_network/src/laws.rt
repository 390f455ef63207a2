ghost use Rattle.act_network.specs.ActLaws.{ActsAreEvents, DownNodesOpen, ImageIsShort, SchedulesAreEvents, StatesAgree, StopsCountByState};
ghost use Rattle.act_network.specs.Words.{WordsMayBeLeft};

use crate::{LeavesByWord, SavesStates};

/// Single acts of handlers that start again, over any way to keep their states: the network that loses and copies packets and stops and
/// starts nodes allows the run of whole events, and the turns that count, listed in the order in which they count, are its trace with just
/// the outputs left out that were not sent.
pub fn acts_are_events<S, I, O, M, D: SavesStates>()
    ensures { ActsAreEvents S I O M D.disks D.holds D.can_save }
{}

/// The same where what is asked of saves is asked of runs of whole events alone.
pub fn schedules_are_events<S, I, O, M, D: SavesStates>()
    ensures { SchedulesAreEvents S I O M D.disks D.holds D.can_save }
{}

/// A schedule that is short enough has an image that is: the run of whole events has no more steps.
pub fn image_is_short<S, I, O, M, D: SavesStates>()
    ensures { ImageIsShort S I O M D.disks }
{}

/// Each node has the state that it has in the run of whole events. So what nodes have applied can be read off the world of single acts.
pub fn states_agree<S, I, O, M, D: SavesStates>()
    ensures { StatesAgree S I O M D.disks D.holds D.can_save }
{}

/// A turn that a stop cuts counts just where the areas open as the state after it: so the node tells by what it knows what an equality of
/// states would tell.
pub fn stops_count_by_state<S, I, O, M, D: SavesStates>()
    ensures { StopsCountByState S I O M D.disks D.holds D.can_save }
{}

/// What a stop left of a node's areas opens as a state as long as the node is down: so a start that is not refused starts the node.
pub fn down_nodes_open<S, I, O, M, D: SavesStates>()
    ensures { DownNodesOpen S I O M D.disks D.holds D.can_save }
{}

/// Where each word leaves of a disk what a crash may leave, at each moment, the network allows each schedule by words of which it refuses
/// no step.
pub fn words_may_be_left<S, I, O, M, D: LeavesByWord>()
    ensures { WordsMayBeLeft S I O M D.disks D.by_word D.is_such }
{}
