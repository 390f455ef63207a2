ghost use Rattle.std.specs.Prelude.{◌≡◌, ℕ, [], ◌∷◌, Some, None};
ghost use Rattle.net_semantics.specs.BelowPb.{IsExplainedBy, below_pb};
ghost use Rattle.net_semantics.specs.Echo.{adder};
ghost use Rattle.net_semantics.specs.Runs.{IsAllowed, no_recovery, trace};
ghost use Rattle.primary_backup.specs.Backup.{Backed, primary_backup};
ghost use Rattle.primary_backup.specs.Examples.{nodes_with, three_commands};
ghost use Rattle.primary_backup.specs.Followed.{AreFollowing};

use vst_base::{Item, Net, PbMsg, PbOut};

/// The rules, over a machine that answers with the sum of the commands before; and a run of three commands and one at the backup.
pub fn worked()
    ensures first_state { (primary_backup adder).init 0 ≡ record { machine = 0; out = None; waiting = [] } }
    ensures first_goes_out { (primary_backup adder).input 0 (record { machine = 0; out = None; waiting = [] }) 5 ≡ record { state = record { machine = 0; out = Some 5; waiting = [] }; outputs = []; sends = (1, PbMsg.Apply 5) ∷ [] } }
    ensures second_waits { (primary_backup adder).input 0 (record { machine = 0; out = Some 5; waiting = [] }) 7 ≡ record { state = record { machine = 0; out = Some 5; waiting = 7 ∷ [] }; outputs = []; sends = [] } }
    ensures third_waits_behind { (primary_backup adder).input 0 (record { machine = 0; out = Some 5; waiting = 7 ∷ [] }) 9 ≡ record { state = record { machine = 0; out = Some 5; waiting = 7 ∷ 9 ∷ [] }; outputs = []; sends = [] } }
    ensures backup_applies { (primary_backup adder).message 1 (record { machine = 0; out = None; waiting = [] }) 0 (PbMsg.Apply 5) ≡ record { state = record { machine = 5; out = None; waiting = [] }; outputs = []; sends = (0, PbMsg.Ack) ∷ [] } }
    ensures next_goes_out { (primary_backup adder).message 0 (record { machine = 0; out = Some 5; waiting = 7 ∷ 9 ∷ [] }) 1 PbMsg.Ack ≡ record { state = record { machine = 5; out = Some 7; waiting = 9 ∷ [] }; outputs = PbOut.Reply 0 ∷ []; sends = (1, PbMsg.Apply 7) ∷ [] } }
    ensures none_waits { (primary_backup adder).message 0 (record { machine = 5; out = Some 7; waiting = [] }) 1 PbMsg.Ack ≡ record { state = record { machine = 12; out = None; waiting = [] }; outputs = PbOut.Reply 5 ∷ []; sends = [] } }
    ensures nothing_out { (primary_backup adder).message 0 (record { machine = 5; out = None; waiting = [] }) 1 PbMsg.Ack ≡ record { state = record { machine = 5; out = None; waiting = [] }; outputs = []; sends = [] } }
    ensures ack_at_the_backup { (primary_backup adder).message 1 (record { machine = 5; out = Some 7; waiting = [] }) 0 PbMsg.Ack ≡ record { state = record { machine = 5; out = Some 7; waiting = [] }; outputs = []; sends = [] } }
    ensures apply_at_the_primary { (primary_backup adder).message 0 (record { machine = 5; out = None; waiting = [] }) 1 (PbMsg.Apply 7) ≡ record { state = record { machine = 5; out = None; waiting = [] }; outputs = []; sends = [] } }
    ensures redirected { (primary_backup adder).input 1 (record { machine = 5; out = None; waiting = [] }) 7 ≡ record { state = record { machine = 5; out = None; waiting = [] }; outputs = PbOut.Redirect ∷ []; sends = [] } }
    ensures tick { (primary_backup adder).timeout 0 (record { machine = 5; out = Some 7; waiting = [] }) ≡ record { state = record { machine = 5; out = Some 7; waiting = [] }; outputs = []; sends = [] } }
    ensures allowed { IsAllowed Net.Bag (primary_backup adder) (no_recovery {S = Backed ℕ ℕ}) three_commands }
    ensures replies_in_order { trace (primary_backup adder) (no_recovery {S = Backed ℕ ℕ}) three_commands
        ≡ Item.Input 0 5 ∷ Item.Input 0 7 ∷ Item.Input 1 4 ∷ Item.Output 1 PbOut.Redirect ∷ Item.Output 0 (PbOut.Reply 0) ∷ Item.Input 0 9 ∷ Item.Output 0 (PbOut.Reply 5) ∷ [] }
{}

/// What one machine explains, and what it does not.
pub fn worked_traces()
    ensures image { below_pb {C = ℕ} {O = ℕ} (Item.Input 0 5 ∷ Item.Input 1 4 ∷ Item.Output 1 PbOut.Redirect ∷ Item.Input 0 7 ∷ Item.Output 0 (PbOut.Reply 0) ∷ []) ≡ 5 ∷ [] }
    ensures image_of_the_run { below_pb (trace (primary_backup adder) (no_recovery {S = Backed ℕ ℕ}) three_commands) ≡ 5 ∷ 7 ∷ [] }
    ensures nothing { IsExplainedBy adder [] }
    ensures one_reply { IsExplainedBy adder (Item.Input 0 5 ∷ Item.Input 0 7 ∷ Item.Output 0 (PbOut.Reply 0) ∷ []) }
    ensures no_input { ¬ IsExplainedBy adder (Item.Output 0 (PbOut.Reply 0) ∷ []) }
    ensures reply_before_its_input { ¬ IsExplainedBy adder (Item.Output 0 (PbOut.Reply 0) ∷ Item.Input 0 5 ∷ []) }
    ensures wrong_reply { ¬ IsExplainedBy adder (Item.Input 0 5 ∷ Item.Output 0 (PbOut.Reply 1) ∷ []) }
    ensures replies_swapped { ¬ IsExplainedBy adder (Item.Input 0 5 ∷ Item.Input 0 7 ∷ Item.Output 0 (PbOut.Reply 5) ∷ Item.Output 0 (PbOut.Reply 0) ∷ []) }
    ensures redirected_at_the_primary { ¬ IsExplainedBy adder (Item.Input 0 5 ∷ Item.Output 0 PbOut.Redirect ∷ []) }
    ensures not_redirected { ¬ IsExplainedBy adder (Item.Input 1 4 ∷ []) }
    ensures redirected_late { ¬ IsExplainedBy adder (Item.Input 1 4 ∷ Item.Input 0 5 ∷ Item.Output 1 PbOut.Redirect ∷ []) }
    ensures reply_of_the_backup { ¬ IsExplainedBy adder (Item.Input 1 4 ∷ Item.Output 1 (PbOut.Reply 0) ∷ []) }
    ensures redirected_twice { ¬ IsExplainedBy adder (Item.Input 1 4 ∷ Item.Output 1 PbOut.Redirect ∷ Item.Output 1 PbOut.Redirect ∷ []) }
    ensures redirect_of_nothing { ¬ IsExplainedBy adder (Item.Output 1 PbOut.Redirect ∷ []) }

    ensures none_taken { AreFollowing adder [] (nodes_with 0 0) }
    ensures level { AreFollowing adder (Item.Input 0 5 ∷ Item.Input 0 7 ∷ Item.Output 0 (PbOut.Reply 0) ∷ []) (nodes_with 5 5) }
    ensures one_ahead { AreFollowing adder (Item.Input 0 5 ∷ Item.Input 0 7 ∷ Item.Output 0 (PbOut.Reply 0) ∷ []) (nodes_with 5 12) }
    ensures behind { ¬ AreFollowing adder (Item.Input 0 5 ∷ Item.Input 0 7 ∷ Item.Output 0 (PbOut.Reply 0) ∷ []) (nodes_with 5 0) }
    ensures primary_ahead { ¬ AreFollowing adder (Item.Input 0 5 ∷ Item.Input 0 7 ∷ Item.Output 0 (PbOut.Reply 0) ∷ []) (nodes_with 12 12) }
{}
