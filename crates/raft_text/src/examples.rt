ghost use Rattle.std.specs.Prelude.{◌≡◌, None, Some, codes, false, true};
ghost use Rattle.app_text.specs.KvTexts.{input_of, input_text, kv_out, output_of, output_text};
ghost use Rattle.raft_text.specs.RaftTexts.{asked, order_text, raft_input_of, raft_input_text, raft_output_of, raft_output_text, raft_replies};

use kv_machine::{KvCmd, KvOut};
use raft_types::RaftOut;

/// The texts of requests, and what is none.
pub fn worked_inputs()
    ensures get { (raft_input_of input_of (codes "7 1 get a") ≡ Some (asked 7 1 (KvCmd.Get (codes "a")))) × (raft_input_text input_text (asked 7 1 (KvCmd.Get (codes "a"))) ≡ codes "7 1 get a") }
    ensures put { (raft_input_of input_of (codes "0 12 put a x") ≡ Some (asked 0 12 (KvCmd.Put (codes "a") (codes "x")))) × (raft_input_text input_text (asked 0 12 (KvCmd.Put (codes "a") (codes "x"))) ≡ codes "0 12 put a x") }
    ensures del { (raft_input_of input_of (codes "3 0 del a") ≡ Some (asked 3 0 (KvCmd.Del (codes "a")))) × (raft_input_text input_text (asked 3 0 (KvCmd.Del (codes "a"))) ≡ codes "3 0 del a") }
    ensures cas { (raft_input_of input_of (codes "1 2 cas a =y x") ≡ Some (asked 1 2 (KvCmd.Cas (codes "a") (Some (codes "y")) (codes "x")))) × (raft_input_text input_text (asked 1 2 (KvCmd.Cas (codes "a") (Some (codes "y")) (codes "x"))) ≡ codes "1 2 cas a =y x") }
    ensures cad { (raft_input_of input_of (codes "1 2 cad a x") ≡ Some (asked 1 2 (KvCmd.Cad (codes "a") (codes "x")))) × (raft_input_text input_text (asked 1 2 (KvCmd.Cad (codes "a") (codes "x"))) ≡ codes "1 2 cad a x") }
    ensures greatest { (raft_input_of input_of (codes "18446744073709551615 0 get a") ≡ Some (asked 18446744073709551615 0 (KvCmd.Get (codes "a")))) × (raft_input_text input_text (asked 18446744073709551615 0 (KvCmd.Get (codes "a"))) ≡ codes "18446744073709551615 0 get a") }
    ensures too_great { (raft_input_of input_of (codes "18446744073709551616 0 get a") ≡ None) × (raft_input_of input_of (codes "0 18446744073709551616 get a") ≡ None) }
    ensures numbers_missing { (raft_input_of input_of (codes "get a") ≡ None) × (raft_input_of input_of (codes "7 get a") ≡ None) × (raft_input_of input_of (codes " 1 get a") ≡ None) × (raft_input_of input_of (codes "7  get a") ≡ None) }
    ensures no_number { (raft_input_of input_of (codes "07 1 get a") ≡ None) × (raft_input_of input_of (codes "7 01 get a") ≡ None) × (raft_input_of input_of (codes "+7 1 get a") ≡ None) × (raft_input_of input_of (codes "7 -1 get a") ≡ None) }
    ensures spaces_over { (raft_input_of input_of (codes " 7 1 get a") ≡ None) × (raft_input_of input_of (codes "7  1 get a") ≡ None) × (raft_input_of input_of (codes "7 1  get a") ≡ None) × (raft_input_of input_of (codes "7 1 get a ") ≡ None) }
    ensures no_command { (raft_input_of input_of (codes "") ≡ None) × (raft_input_of input_of (codes "7 1") ≡ None) × (raft_input_of input_of (codes "7 1 ") ≡ None) × (raft_input_of input_of (codes "7 1 take a") ≡ None) }
    ensures order { order_text input_text (asked 7 1 (KvCmd.Put (codes "a") (codes "x"))) ≡ codes "order 7 1 put a x" }
{}

/// The texts of answers, and what is none.
pub fn worked_outputs()
    ensures reply { (raft_output_of output_of (codes "reply 7 1 a =x -") ≡ Some (RaftOut.Reply 7 1 (kv_out (codes "a") (Some (codes "x")) None))) × (raft_output_text output_text (RaftOut.Reply 7 1 (kv_out (codes "a") (Some (codes "x")) None)) ≡ codes "reply 7 1 a =x -") }
    ensures notleader { (raft_output_of output_of (codes "notleader 7 1") ≡ Some (RaftOut.NotLeader 7 1)) × (raft_output_text output_text (RaftOut.NotLeader 7 1) ≡ codes "notleader 7 1") }
    ensures full { (raft_output_of output_of (codes "full 7 1") ≡ Some (RaftOut.Full 7 1)) × (raft_output_text output_text (RaftOut.Full 7 1) ≡ codes "full 7 1") }
    ensures greatest { (raft_output_of output_of (codes "full 0 18446744073709551615") ≡ Some (RaftOut.Full 0 18446744073709551615)) × (raft_output_text output_text (RaftOut.Full 0 18446744073709551615) ≡ codes "full 0 18446744073709551615") }
    ensures too_great { (raft_output_of output_of (codes "full 0 18446744073709551616") ≡ None) × (raft_output_of output_of (codes "notleader 18446744073709551616 0") ≡ None) }
    ensures no_output { (raft_output_of output_of (codes "reply 7 1") ≡ None) × (raft_output_of output_of (codes "reply 7 1 ") ≡ None) × (raft_output_of output_of (codes "reply 7 1 a -") ≡ None) }
    ensures output_over { (raft_output_of output_of (codes "notleader 7 1 a - -") ≡ None) × (raft_output_of output_of (codes "full 7 1 ") ≡ None) }
    ensures numbers_missing { (raft_output_of output_of (codes "reply 7 a - -") ≡ None) × (raft_output_of output_of (codes "notleader 7") ≡ None) × (raft_output_of output_of (codes "full ") ≡ None) × (raft_output_of output_of (codes "full") ≡ None) }
    ensures no_number { (raft_output_of output_of (codes "reply 07 1 a - -") ≡ None) × (raft_output_of output_of (codes "notleader 7 01") ≡ None) × (raft_output_of output_of (codes "full 7 +1") ≡ None) }
    ensures spaces_over { (raft_output_of output_of (codes "reply  7 1 a - -") ≡ None) × (raft_output_of output_of (codes " notleader 7 1") ≡ None) × (raft_output_of output_of (codes "full 7  1") ≡ None) }
    ensures unknown_word { (raft_output_of output_of (codes "") ≡ None) × (raft_output_of output_of (codes "7 1 a - -") ≡ None) × (raft_output_of output_of (codes "Reply 7 1 a - -") ≡ None) × (raft_output_of output_of (codes "leader 7 1") ≡ None) × (raft_output_of output_of (codes "fuller 7 1") ≡ None) }
    ensures replies { (raft_replies (RaftOut.Reply 7 1 (kv_out (codes "a") None None)) ≡ true) × (raft_replies {O = KvOut} (RaftOut.NotLeader 7 1) ≡ false) × (raft_replies {O = KvOut} (RaftOut.Full 7 1) ≡ false) }
{}
