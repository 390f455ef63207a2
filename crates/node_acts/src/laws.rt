ghost use Rattle.disk.specs.Between.{may_become_between};
ghost use Rattle.disk.specs.Disk.{may_become};
ghost use Rattle.node_acts.specs.StateLaws.{FoundIsHeld, FreshIsHeld, HeldRests, OpeningLeaves, SaveKeepsState, SyncsLeave};

use node_body::Commands;

/// What holds of a save by a node of the stack of `C`.
pub fn saves_keep_states<C: Commands>()
    // What the node knows of its areas is enough to know what they open as.
    ensures rests { HeldRests C.stack C.format }

    // A crash at any moment leaves the state from before the save or the new one, and after it the new one, as the node knows; also
    // where it may leave lengths between.
    ensures saves { SaveKeepsState C.stack C.format }
{}

/// What holds of an opening by a node of the stack of `C`.
pub fn openings_leave_what_they_find<C: Commands>()
    // In the end the node knows how the areas are, whatever was pending at first.
    ensures fresh { FreshIsHeld C.stack C.format }
    ensures found { FoundIsHeld C.stack C.format }

    // A crash at any moment leaves the state that was found, also while a slot of version 1 is written anew.
    ensures syncs { SyncsLeave may_become }
    ensures leaves { OpeningLeaves may_become C.stack C.format }
{}

/// The same of a crash where one may leave an area with a length between two of those that it had.
pub fn openings_leave_between<C: Commands>()
    ensures syncs { SyncsLeave may_become_between }
    ensures leaves { OpeningLeaves may_become_between C.stack C.format }
{}
