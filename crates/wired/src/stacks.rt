ghost use Rattle.std.specs.Prelude.{◌≤◌};
ghost use Rattle.raft_types.specs.Messages.{IsClusterSize};
ghost use Rattle.vst_base.specs.declared.node.TheConstants.{MAX_NODES};
ghost use Rattle.vst_base.specs.declared.stack.StackId.{StackId};
ghost use Rattle.wire_codec.specs.Datagrams.{longest_message};
ghost use Rattle.wire_codec.specs.Headings.{HasByte};
ghost use Rattle.wired.specs.StackRuns.{RunsAsBytes, RunsOnBytesAlone};
ghost use Rattle.wired.specs.WiredRuns.{IsFormatOf};

use crate::{OnDisk, OnWire};

/// Handlers whose nodes never stop: with packets that are bytes of a stack they refuse what they refuse with messages, and clients
/// see the same, on at most 1,000,000 steps. Their messages are to be those of the stack, and the inputs that clients give are to
/// have bytes, as all tokens of a schedule have.
pub fn runs_as_bytes<H: OnWire>()
    ensures { (h : H) (stack : StackId) → HasByte stack → IsFormatOf stack H.Msg.format → (H.meaning h).nodes ≤ MAX_NODES
        → H.longest ≤ longest_message → RunsAsBytes H.Msg.format stack H.has_bytes (H.meaning h) }
{}

/// Clusters, whose nodes stop and start again: on bytes alone, in packets and in what is kept, each refuses what it refuses with
/// messages and states, and clients see the same, on at most 1,000,000 steps. Its messages are to be those of the stack, and the inputs
/// that clients give are to have bytes, as all tokens of a schedule have.
pub fn clusters_run_the_same_on_bytes_alone<H: OnDisk>()
    ensures { (h : H) (stack : StackId) → HasByte stack → IsFormatOf stack H.Msg.format → IsClusterSize (H.meaning h).nodes
        → H.longest ≤ longest_message
        → RunsOnBytesAlone H.Msg.format stack (H.saving h stack) H.has_bytes (H.meaning h) (H.recovery h) }
{}
