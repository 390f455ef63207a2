ghost use Rattle.std.specs.Prelude.{◌≡◌, List, [], ◌∷◌, None, Some, false, true, codes, replicate};
ghost use Rattle.app_text.specs.LockTexts.{input_of, input_text, output_text};
ghost use Rattle.line_reader.specs.Whys.{why_text};
ghost use Rattle.schedule_text.specs.Headers.{header_of, header_text};
ghost use Rattle.schedule_text.specs.Reading.{tells_next, number_of, read_line, step_of};
ghost use Rattle.schedule_text.specs.Printing.{item_text, refusal_line, step_text, steps_text, trace_text};
ghost use Rattle.schedule_text.specs.Schedules.{opening, script, Opened, RefusedAt, EndedAt};
ghost use Rattle.schedule_text.specs.Words.{word_named};

use crate::line_word::LineWord;
use crate::{Header, Line};
use line_reader::Why;
use vst_base::{Item, LockInput, LockOutput, Net, StackId, Step, StepKind};

/// The words and numbers of a line, on examples.
pub fn worked_words()
    ensures zero { number_of (codes "0") ≡ Some 0 }
    ensures leading_zero { number_of (codes "01") ≡ None }
    ensures no_number { number_of (codes "") ≡ None }
    ensures greatest { number_of (codes "4294967295") ≡ Some 4294967295 }
    ensures too_great { number_of (codes "4294967296") ≡ None }
    ensures signed { number_of (codes "+5") ≡ None }
    ensures two_digits { number_of (codes "12") ≡ Some 12 }
    ensures front_of_a_word { (word_named (codes "i") ≡ None) × (word_named (codes "sto") ≡ None) }
    ensures no_word { word_named (codes "inn") ≡ None }
    ensures longer_word { (word_named (codes "ticks") ≡ None) × (word_named (codes "acts") ≡ None) }
    ensures word { word_named (codes "in") ≡ Some (LineWord.Step StepKind.In) }
    ensures words_of_no_step { (word_named (codes "act") ≡ Some LineWord.Act) × (word_named (codes "stop") ≡ Some LineWord.Stop) }
    ensures told_next { tells_next (codes "tick 0\n# more") ≡ true }
    ensures not_to_its_end { tells_next (codes "tick 0") ≡ false }
    ensures a_comment_is_next { tells_next (codes "# more\ntick 0\n") ≡ false }
    ensures an_empty_line_is_next { tells_next (codes "\ntick 0\n") ≡ false }
{}

/// Headers, and how texts open, on examples.
#[tactic(auto, unfolding(crate::specs::Headers::header_of))]
pub fn worked_headers()
    ensures least_nodes { header_of (codes "schedule 1 bag lock 2") ≡ Some (record { net = Net.Bag; stack = StackId.Lock; nodes = 2 }) }
    ensures most_nodes { header_of (codes "schedule 1 bag lock 9") ≡ Some (record { net = Net.Bag; stack = StackId.Lock; nodes = 9 }) }
    ensures one_node { header_of (codes "schedule 1 bag lock 1") ≡ None }
    ensures ten_nodes { header_of (codes "schedule 1 bag lock 10") ≡ None }
    ensures leading_zero { header_of (codes "schedule 1 bag lock 02") ≡ None }
    ensures space_after { header_of (codes "schedule 1 bag lock 2 ") ≡ None }
    ensures no_nodes { (header_of (codes "schedule 1 bag lock ") ≡ None) × (header_of (codes "schedule 1 bag lock") ≡ None) }
    ensures other_version { header_of (codes "schedule 2 bag lock 2") ≡ None }
    ensures least_numbered { header_of (codes "schedule 1 dup lock/seq 2") ≡ Some (record { net = Net.Dup; stack = StackId.LockSeq; nodes = 2 }) }
    ensures most_numbered { header_of (codes "schedule 1 dup lock/seq 9") ≡ Some (record { net = Net.Dup; stack = StackId.LockSeq; nodes = 9 }) }
    ensures beyond_numbered { (header_of (codes "schedule 1 dup lock/seq 1") ≡ None) × (header_of (codes "schedule 1 dup lock/seq 10") ≡ None) }
    ensures two_spaces { header_of (codes "schedule 1 dup lock/seq  2") ≡ None }
    ensures other_pairing { (header_of (codes "schedule 1 dup lock 2") ≡ None) × (header_of (codes "schedule 1 bag lock/seq 2") ≡ None) }
    ensures two_nodes { header_of (codes "schedule 1 bag kv/pb 2") ≡ Some (record { net = Net.Bag; stack = StackId.KvPb; nodes = 2 }) }
    ensures numbered_two_nodes { header_of (codes "schedule 1 dup kv/pb/seq 2") ≡ Some (record { net = Net.Dup; stack = StackId.KvPbSeq; nodes = 2 }) }
    ensures not_two_nodes { (header_of (codes "schedule 1 bag kv/pb 1") ≡ None) × (header_of (codes "schedule 1 dup kv/pb/seq 3") ≡ None) }
    ensures machine_alone { header_of (codes "schedule 1 one kv 1") ≡ Some (record { net = Net.One; stack = StackId.Kv; nodes = 1 }) }
    ensures machine_on_a_bag { (header_of (codes "schedule 1 bag kv 1") ≡ None) × (header_of (codes "schedule 1 one kv 2") ≡ None) }
    ensures least_cluster { header_of (codes "schedule 1 fail kv/raft 1") ≡ Some (record { net = Net.Fail; stack = StackId.KvRaft; nodes = 1 }) }
    ensures cluster { header_of (codes "schedule 1 fail kv/raft 3") ≡ Some (record { net = Net.Fail; stack = StackId.KvRaft; nodes = 3 }) }
    ensures most_cluster { header_of (codes "schedule 1 fail kv/raft 9") ≡ Some (record { net = Net.Fail; stack = StackId.KvRaft; nodes = 9 }) }
    ensures beyond_cluster { (header_of (codes "schedule 1 fail kv/raft 0") ≡ None) × (header_of (codes "schedule 1 fail kv/raft 10") ≡ None) }
    ensures cluster_leading_zero { header_of (codes "schedule 1 fail kv/raft 03") ≡ None }
    ensures cluster_elsewhere { (header_of (codes "schedule 1 dup kv/raft 3") ≡ None) × (header_of (codes "schedule 1 bag kv/raft 3") ≡ None) }
    ensures table_alone { header_of (codes "schedule 1 one table 1") ≡ Some (record { net = Net.One; stack = StackId.Table; nodes = 1 }) }
    ensures table_backed { header_of (codes "schedule 1 dup table/pb/seq 2") ≡ Some (record { net = Net.Dup; stack = StackId.TablePbSeq; nodes = 2 }) }
    ensures table_cluster { header_of (codes "schedule 1 fail table/raft 9") ≡ Some (record { net = Net.Fail; stack = StackId.TableRaft; nodes = 9 }) }
    ensures table_elsewhere { (header_of (codes "schedule 1 bag table/pb/seq 2") ≡ None) × (header_of (codes "schedule 1 bag table/pb 2") ≡ None) }
    ensures other_stacks_failing { (header_of (codes "schedule 1 fail kv/pb 2") ≡ None) × (header_of (codes "schedule 1 fail kv 1") ≡ None) }
    ensures least_mirror { header_of (codes "schedule 1 ord mirror 2") ≡ Some (record { net = Net.Ord; stack = StackId.Mirror; nodes = 2 }) }
    ensures most_mirror { header_of (codes "schedule 1 ord mirror 9") ≡ Some (record { net = Net.Ord; stack = StackId.Mirror; nodes = 9 }) }
    ensures beyond_mirror { (header_of (codes "schedule 1 ord mirror 1") ≡ None) × (header_of (codes "schedule 1 ord mirror 10") ≡ None) }
    ensures least_fifo { header_of (codes "schedule 1 dup mirror/fifo 2")
        ≡ Some (record { net = Net.Dup; stack = StackId.MirrorFifo; nodes = 2 }) }
    ensures most_fifo { header_of (codes "schedule 1 dup mirror/fifo 9")
        ≡ Some (record { net = Net.Dup; stack = StackId.MirrorFifo; nodes = 9 }) }
    ensures beyond_fifo { (header_of (codes "schedule 1 dup mirror/fifo 1") ≡ None)
        × (header_of (codes "schedule 1 dup mirror/fifo 10") ≡ None) }
    ensures mirror_elsewhere { (header_of (codes "schedule 1 bag mirror 2") ≡ None) × (header_of (codes "schedule 1 dup mirror 2") ≡ None)
        × (header_of (codes "schedule 1 ord mirror/fifo 2") ≡ None) }
    ensures least_retried { header_of (codes "schedule 1 loss lock/seq/retry 2")
        ≡ Some (record { net = Net.Loss; stack = StackId.LockSeqRetry; nodes = 2 }) }
    ensures most_retried { header_of (codes "schedule 1 loss lock/seq/retry 9")
        ≡ Some (record { net = Net.Loss; stack = StackId.LockSeqRetry; nodes = 9 }) }
    ensures beyond_retried { (header_of (codes "schedule 1 loss lock/seq/retry 1") ≡ None)
        × (header_of (codes "schedule 1 loss lock/seq/retry 10") ≡ None) }
    ensures retried_two_nodes { header_of (codes "schedule 1 loss kv/pb/seq/retry 2")
        ≡ Some (record { net = Net.Loss; stack = StackId.KvPbSeqRetry; nodes = 2 }) }
    ensures retried_not_two_nodes { (header_of (codes "schedule 1 loss kv/pb/seq/retry 1") ≡ None)
        × (header_of (codes "schedule 1 loss kv/pb/seq/retry 3") ≡ None) }
    ensures retried_elsewhere { (header_of (codes "schedule 1 dup lock/seq/retry 2") ≡ None)
        × (header_of (codes "schedule 1 fail kv/pb/seq/retry 2") ≡ None) }
    ensures least_reading { header_of (codes "schedule 1 fail kv/raft/read 1")
        ≡ Some (record { net = Net.Fail; stack = StackId.KvRaftRead; nodes = 1 }) }
    ensures most_reading { header_of (codes "schedule 1 fail table/raft/read 9")
        ≡ Some (record { net = Net.Fail; stack = StackId.TableRaftRead; nodes = 9 }) }
    ensures beyond_reading { (header_of (codes "schedule 1 fail kv/raft/read 0") ≡ None)
        × (header_of (codes "schedule 1 fail kv/raft/read 10") ≡ None) }
    ensures reading_elsewhere { (header_of (codes "schedule 1 dup kv/raft/read 3") ≡ None)
        × (header_of (codes "schedule 1 fail kv/read 3") ≡ None) }
    ensures other_stacks_losing { (header_of (codes "schedule 1 loss lock/seq 2") ≡ None) × (header_of (codes "schedule 1 loss lock/retry 2") ≡ None) }
    ensures other_stacks_in_order { header_of (codes "schedule 1 ord lock 2") ≡ None }
    ensures network_without_a_stack { header_of (codes "schedule 1 acts kv/raft 1") ≡ None }
    ensures text { header_text (record { net = Net.Bag; stack = StackId.Lock; nodes = 2 }) ≡ codes "schedule 1 bag lock 2" }
    ensures numbered_text { header_text (record { net = Net.Dup; stack = StackId.LockSeq; nodes = 9 }) ≡ codes "schedule 1 dup lock/seq 9" }
    ensures cluster_text { header_text (record { net = Net.Fail; stack = StackId.KvRaft; nodes = 9 }) ≡ codes "schedule 1 fail kv/raft 9" }
    ensures mirror_text { header_text (record { net = Net.Ord; stack = StackId.Mirror; nodes = 4 }) ≡ codes "schedule 1 ord mirror 4" }
    ensures fifo_text { header_text (record { net = Net.Dup; stack = StackId.MirrorFifo; nodes = 4 })
        ≡ codes "schedule 1 dup mirror/fifo 4" }
    ensures retried_text { header_text (record { net = Net.Loss; stack = StackId.KvPbSeqRetry; nodes = 2 })
        ≡ codes "schedule 1 loss kv/pb/seq/retry 2" }
    ensures reading_text { header_text (record { net = Net.Fail; stack = StackId.TableRaftRead; nodes = 3 })
        ≡ codes "schedule 1 fail table/raft/read 3" }
    ensures opens_empty { opening 2000000 1 [] ≡ EndedAt 1 }
    ensures opens_without_header { opening 2000000 1 (codes "# none" ∷ []) ≡ EndedAt 2 }
    ensures opens_after_comment { opening 2000000 1 (codes "# a lock" ∷ codes "schedule 1 bag lock 2" ∷ codes "tick 0" ∷ []) ≡ Opened (record { net = Net.Bag; stack = StackId.Lock; nodes = 2 }) 3 (codes "tick 0" ∷ []) }
    ensures opens_with_step { opening 2000000 1 ([] ∷ codes "tick 0" ∷ []) ≡ RefusedAt 2 Why.Header }
{}

/// The lines after a header, on examples.
pub fn worked_steps()
    ensures input { read_line 2000000 input_of 2 0 (codes "in 1 lock") ≡ Line.IsStep (Step.In 1 LockInput.Lock) }
    ensures delivery { read_line 2000000 input_of 2 0 (codes "deliver 7") ≡ Line.IsStep (Step.Deliver 7) }
    ensures tick { read_line 2000000 input_of 2 0 (codes "tick 0") ≡ Line.IsStep (Step.Tick 0) }
    ensures copy { read_line 2000000 input_of 2 0 (codes "dup 0") ≡ Line.IsStep (Step.Dup 0) }
    ensures loss { read_line 2000000 input_of 2 0 (codes "lose 12") ≡ Line.IsStep (Step.Lose 12) }
    ensures crash { read_line 2000000 input_of 2 0 (codes "crash 3") ≡ Line.IsStep (Step.Crash 3) }
    ensures reboot { read_line 2000000 input_of 2 0 (codes "reboot 3") ≡ Line.IsStep (Step.Reboot 3) }
    ensures comment { read_line 2000000 input_of 2 0 (codes "#") ≡ Line.Skipped }
    ensures empty { read_line 2000000 input_of 2 0 (codes "") ≡ Line.Skipped }
    ensures too_few_words { (read_line 2000000 input_of 2 0 (codes "deliver") ≡ Line.Refused Why.UnknownWord) × (read_line 2000000 input_of 2 0 (codes "in 1") ≡ Line.Refused Why.UnknownWord) }
    ensures unknown_words { (read_line 2000000 input_of 2 0 (codes "foo 1") ≡ Line.Refused Why.UnknownWord) × (read_line 2000000 input_of 2 0 (codes "i 1 lock") ≡ Line.Refused Why.UnknownWord) × (read_line 2000000 input_of 2 0 (codes "ticks 0") ≡ Line.Refused Why.UnknownWord) }
    ensures leading_zero { (read_line 2000000 input_of 2 0 (codes "deliver 01") ≡ Line.Refused Why.Number) × (step_of input_of (codes "deliver 01") ≡ None) }
    ensures two_spaces { read_line 2000000 input_of 2 0 (codes "in  1 lock") ≡ Line.Refused Why.Number }
    ensures space_after { read_line 2000000 input_of 2 0 (codes "tick 5 ") ≡ Line.Refused Why.Number }
    ensures no_input { (read_line 2000000 input_of 2 0 (codes "in 1 grab") ≡ Line.Refused Why.Text) × (step_of input_of (codes "in 1 grab") ≡ None) }
    ensures acts { (read_line 2000000 input_of 2 0 (codes "act 0") ≡ Line.Refused Why.NotThisNet) × (step_of input_of (codes "act 0") ≡ None) }
    ensures stops { (read_line 2000000 input_of 2 0 (codes "stop 0 1") ≡ Line.Refused Why.NotThisNet) × (read_line 2000000 input_of 2 0 (codes "stop 4294967295 0") ≡ Line.Refused Why.NotThisNet) × (step_of input_of (codes "stop 0 1") ≡ None) }
    ensures act_without_a_number { (read_line 2000000 input_of 2 0 (codes "act") ≡ Line.Refused Why.UnknownWord) × (read_line 2000000 input_of 2 0 (codes "act x") ≡ Line.Refused Why.Number) × (read_line 2000000 input_of 2 0 (codes "act ") ≡ Line.Refused Why.Number) × (read_line 2000000 input_of 2 0 (codes "act 0 1") ≡ Line.Refused Why.Number) × (read_line 2000000 input_of 2 0 (codes "act 4294967296") ≡ Line.Refused Why.Number) }
    ensures stop_without_its_spaces { (read_line 2000000 input_of 2 0 (codes "stop") ≡ Line.Refused Why.UnknownWord) × (read_line 2000000 input_of 2 0 (codes "stop 0") ≡ Line.Refused Why.UnknownWord) × (read_line 2000000 input_of 2 0 (codes "stop x") ≡ Line.Refused Why.UnknownWord) }
    ensures stop_without_its_numbers { (read_line 2000000 input_of 2 0 (codes "stop x 1") ≡ Line.Refused Why.Number) × (read_line 2000000 input_of 2 0 (codes "stop 0 x") ≡ Line.Refused Why.Number) × (read_line 2000000 input_of 2 0 (codes "stop 0 ") ≡ Line.Refused Why.Number) × (read_line 2000000 input_of 2 0 (codes "stop 0 1 2") ≡ Line.Refused Why.Number) × (read_line 2000000 input_of 2 0 (codes "stop  0 1") ≡ Line.Refused Why.Number) }
    ensures several { script 2000000 input_of 2 0 (codes "in 1 lock" ∷ codes "# then" ∷ codes "deliver 0" ∷ []) ≡ record { steps = (2, Step.In 1 LockInput.Lock) ∷ (4, Step.Deliver 0) ∷ []; fault = None } }
    ensures up_to_a_fault { script 2000000 input_of 2 0 (codes "tick 0" ∷ codes "" ∷ codes "tick" ∷ codes "tick 0" ∷ []) ≡ record { steps = (2, Step.Tick 0) ∷ []; fault = Some (4, Why.UnknownWord) } }
    ensures up_to_an_act { script 2000000 input_of 2 0 (codes "tick 0" ∷ codes "act 0" ∷ codes "tick 0" ∷ []) ≡ record { steps = (2, Step.Tick 0) ∷ []; fault = Some (3, Why.NotThisNet) } }
{}

/// Which of several refusals a line after a header gets, and the borders of the limits, on examples.
pub fn worked_limits()
    ensures word_before_number { read_line 2000000 input_of 2 0 (codes "foo 01") ≡ Line.Refused Why.UnknownWord }
    ensures number_before_text { read_line 2000000 input_of 2 0 (codes "in 01 grab") ≡ Line.Refused Why.Number }
    ensures word_before_events { read_line 2000000 input_of 2 1000000 (codes "foo 1") ≡ Line.Refused Why.UnknownWord }
    ensures number_before_events { read_line 2000000 input_of 2 1000000 (codes "in 01 grab") ≡ Line.Refused Why.Number }
    ensures act_word_before_events { (read_line 2000000 input_of 2 1000000 (codes "act") ≡ Line.Refused Why.UnknownWord) × (read_line 2000000 input_of 2 1000000 (codes "stop 0") ≡ Line.Refused Why.UnknownWord) }
    ensures act_number_before_events { (read_line 2000000 input_of 2 1000000 (codes "act x") ≡ Line.Refused Why.Number) × (read_line 2000000 input_of 2 1000000 (codes "stop 0 x") ≡ Line.Refused Why.Number) }
    ensures events_before_text { read_line 2000000 input_of 2 1000000 (codes "in 1 grab") ≡ Line.Refused Why.TooManyEvents }
    ensures events_before_network { (read_line 2000000 input_of 2 1000000 (codes "act 0") ≡ Line.Refused Why.TooManyEvents) × (read_line 2000000 input_of 2 1000000 (codes "stop 0 1") ≡ Line.Refused Why.TooManyEvents) × (read_line 2000000 input_of 2 999999 (codes "act 0") ≡ Line.Refused Why.NotThisNet) }
    ensures event_too_many { read_line 2000000 input_of 2 1000000 (codes "tick 0") ≡ Line.Refused Why.TooManyEvents }
    ensures last_event { read_line 2000000 input_of 2 999999 (codes "tick 0") ≡ Line.IsStep (Step.Tick 0) }
    ensures skipped_after_events { read_line 2000000 input_of 2 1000000 (codes "#") ≡ Line.Skipped }
    ensures last_line { read_line 2000000 input_of 2000000 0 (codes "tick 0") ≡ Line.IsStep (Step.Tick 0) }
    ensures line_too_many { (read_line 2000000 input_of 2000001 0 (codes "tick 0") ≡ Line.Refused Why.TooManyEvents) × (read_line 2000000 input_of 2000001 0 (codes "#") ≡ Line.Refused Why.TooManyEvents) }
    ensures line_before_word { read_line 2000000 input_of 2000001 0 (codes "foo 1") ≡ Line.Refused Why.TooManyEvents }
    ensures longest { read_line 2000000 input_of 2 0 (replicate 4096 35) ≡ Line.Skipped }
    ensures too_long { read_line 2000000 input_of 2 0 (replicate 4097 35) ≡ Line.Refused Why.LineTooLong }
    ensures length_before_lines { read_line 2000000 input_of 2000001 0 (replicate 4097 35) ≡ Line.Refused Why.LineTooLong }
{}

/// How steps, items of a trace and refusals are spelled, on examples.
pub fn worked_printing()
    ensures input { step_text input_text (Step.In 1 LockInput.Lock) ≡ codes "in 1 lock" }
    ensures delivery { step_text input_text (Step.Deliver 4294967295) ≡ codes "deliver 4294967295" }
    ensures tick { step_text input_text (Step.Tick 0) ≡ codes "tick 0" }
    ensures copy { step_text input_text (Step.Dup 7) ≡ codes "dup 7" }
    ensures loss { step_text input_text (Step.Lose 12) ≡ codes "lose 12" }
    ensures crash { step_text input_text (Step.Crash 3) ≡ codes "crash 3" }
    ensures reboot { step_text input_text (Step.Reboot 3) ≡ codes "reboot 3" }
    ensures steps { steps_text input_text (Step.In 1 LockInput.Lock ∷ Step.Deliver 10 ∷ []) ≡ codes "in 1 lock\ndeliver 10\n" }
    ensures taken { item_text input_text output_text (Item.Input 2 LockInput.Unlock) ≡ codes "in 2 unlock" }
    ensures given { item_text input_text output_text (Item.Output 1 LockOutput.Locked) ≡ codes "out 1 locked" }
    ensures trace { trace_text input_text output_text (Item.Input 1 LockInput.Lock ∷ Item.Output 1 LockOutput.Locked ∷ []) ≡ codes "in 1 lock\nout 1 locked\n" }
    ensures refusal { refusal_line 4 Why.NoCopy ≡ codes "line 4: no copy\n" }
    ensures late_refusal { refusal_line 2000001 Why.TooManyEvents ≡ codes "line 2000001: too many events\n" }
    ensures of_lines { (why_text Why.LineTooLong ≡ codes "line too long") × (why_text Why.TooManyEvents ≡ codes "too many events") × (why_text Why.Header ≡ codes "header") }
    ensures of_words { (why_text Why.UnknownWord ≡ codes "unknown word") × (why_text Why.Number ≡ codes "number") × (why_text Why.Text ≡ codes "text") }
    ensures of_steps { (why_text Why.NotThisNet ≡ codes "not this network") × (why_text Why.NoSuchNode ≡ codes "no such node") × (why_text Why.NoInputHere ≡ codes "no input here") }
    ensures of_nodes { (why_text Why.NodeDown ≡ codes "node down") × (why_text Why.NodeUp ≡ codes "node up") × (why_text Why.NoCopy ≡ codes "no copy") }
{}
