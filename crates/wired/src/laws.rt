ghost use Rattle.std.specs.Prelude.{ℕ, ◌≤◌, List, length};
ghost use Rattle.handler_trait.specs.Handling.{Meaning, Recovery};
ghost use Rattle.vst_base.specs.declared.stack.StackId.{StackId};
ghost use Rattle.wire_codec.specs.Datagrams.{longest_message};
ghost use Rattle.wire_codec.specs.Headings.{HasByte};
ghost use Rattle.wire_fields.specs.Fields.{name};
ghost use Rattle.wired.specs.BytesAlone.{BytesRunTheSame};
ghost use Rattle.wired.specs.Saving.{SavedRunsAreTheSame};
ghost use Rattle.wired.specs.WiredRuns.{HasBytes, IsFormatOf, WiredRunsAreTheSame};

use crate::Saves;
use wire_messages::Wire;

/// On every schedule and every network, handlers whose packets are bytes refuse what the handlers within refuse, and clients see
/// the same, wherever what the handlers within send has bytes. It holds of every record of handlers, however they stop and start
/// again, and of every format of their messages.
pub fn wired_runs_are_the_same<S, K, I, O, M: Wire>()
    ensures { (stack : StackId) (name : List ℕ) (m : Meaning S I O M) (r : Recovery S K)
        → WiredRunsAreTheSame M.format stack name {S = S} {K = K} {I = I} {O = O} m r }
{}

/// The same of handlers that keep bytes, wherever what the handlers within keep has bytes.
pub fn saved_runs_are_the_same<S, I, O, M, H: Saves>()
    ensures { (h : H) (stack : StackId) (name : List ℕ) (m : Meaning S I O M) (r : Recovery S H.Kept)
        → SavedRunsAreTheSame {S = S} {K = H.Kept} {I = I} {O = O} {M = M} (H.saving h stack name) m r }
{}

/// And of handlers that keep bytes and whose packets are bytes.
pub fn bytes_run_the_same<S, I, O, M: Wire, H: Saves>()
    ensures { (h : H) (stack : StackId) (name : List ℕ) (m : Meaning S I O M) (r : Recovery S H.Kept)
        → BytesRunTheSame {S = S} {K = H.Kept} {I = I} {O = O} {M = M} M.format stack name (H.saving h stack name) m r }
{}

/// A message between nodes 0 to 8 has bytes where it fits, is short enough beside the 22 bytes of the heading, and is one of a stack
/// whose nodes send packets.
pub fn fitting_messages_have_bytes<M: Wire>()
    ensures { (stack : StackId) (label : List ℕ) (from to : ℕ) (message : M)
        → IsFormatOf stack M.format → HasByte stack → name.Fits label → from ≤ 8 → to ≤ 8
        → M.format.Fits message → length (M.format.spell message) ≤ longest_message → HasBytes M.format stack label from to message }
{}
