ghost use Rattle.std.specs.Prelude.{◌≡◌, [], ◌∷◌, None, Some, codes, false, true};
ghost use Rattle.command_line.specs.CommandSet.{CanBeMade, CanBeRun, IfMakes, asked_of, command_of, made_schedule, node_of, node_words};
ghost use Rattle.command_line.specs.CommandSet.{number_of, number_of_bits, packet_stack_words, takes_words};

use crate::{Asked, Command};
use vst_base::StackId;

/// What words ask for, on examples.
#[tactic(auto, unfolding(crate::proofs::OnLiterals::words_on_literals))]
pub fn worked()
    // The words that ask for a replay: nothing but an end of options may follow, and the program's name is not read.
    ensures replay { command_of (codes "vst" ∷ codes "replay" ∷ []) ≡ Some Command.Replay }
    ensures end_of_options { command_of (codes "vst" ∷ codes "replay" ∷ codes "--" ∷ []) ≡ Some Command.Replay }
    ensures any_name { command_of (codes "" ∷ codes "replay" ∷ []) ≡ Some Command.Replay }
    ensures taken { takes_words (codes "vst" ∷ codes "replay" ∷ []) ≡ true }

    // No command.
    ensures no_words { asked_of [] ≡ None }
    ensures no_command { asked_of (codes "vst" ∷ []) ≡ None }
    ensures not_taken { takes_words (codes "vst" ∷ []) ≡ false }

    // No name of a command.
    ensures unknown { asked_of (codes "vst" ∷ codes "frob" ∷ []) ≡ None }
    ensures empty_word { asked_of (codes "vst" ∷ codes "" ∷ []) ≡ None }
    ensures cut_short { asked_of (codes "vst" ∷ codes "repla" ∷ []) ≡ None }
    ensures too_long { asked_of (codes "vst" ∷ codes "replays" ∷ []) ≡ None }
    ensures upper_case { asked_of (codes "vst" ∷ codes "Replay" ∷ []) ≡ None }
    ensures past_the_end_of_options { asked_of (codes "vst" ∷ codes "--" ∷ codes "replay" ∷ []) ≡ None }

    // More than replay takes.
    ensures a_word_too_many { asked_of (codes "vst" ∷ codes "replay" ∷ codes "x" ∷ []) ≡ None }
    ensures an_empty_word_too_many { asked_of (codes "vst" ∷ codes "replay" ∷ codes "" ∷ []) ≡ None }
    ensures unknown_option { asked_of (codes "vst" ∷ codes "replay" ∷ codes "--x" ∷ []) ≡ None }
    ensures unknown_flag { asked_of (codes "vst" ∷ codes "replay" ∷ codes "-x" ∷ []) ≡ None }
    ensures twice { asked_of (codes "vst" ∷ codes "replay" ∷ codes "replay" ∷ []) ≡ None }
    ensures a_word_after_the_end_of_options { asked_of (codes "vst" ∷ codes "replay" ∷ codes "--" ∷ codes "x" ∷ []) ≡ None }

    // The words that ask for a check of a stack, in each spelling that clap takes.
    ensures check_lock { command_of (codes "vst" ∷ codes "check" ∷ codes "--stack" ∷ codes "lock" ∷ []) ≡ Some (Command.Check StackId.Lock) }
    ensures check_lock_seq { command_of (codes "vst" ∷ codes "check" ∷ codes "--stack" ∷ codes "lock/seq" ∷ []) ≡ Some (Command.Check StackId.LockSeq) }
    ensures check_kv_pb { command_of (codes "vst" ∷ codes "check" ∷ codes "--stack" ∷ codes "kv/pb" ∷ []) ≡ Some (Command.Check StackId.KvPb) }
    ensures check_kv_pb_seq { command_of (codes "vst" ∷ codes "check" ∷ codes "--stack" ∷ codes "kv/pb/seq" ∷ []) ≡ Some (Command.Check StackId.KvPbSeq) }
    ensures check_kv_raft { command_of (codes "vst" ∷ codes "check" ∷ codes "--stack" ∷ codes "kv/raft" ∷ []) ≡ Some (Command.Check StackId.KvRaft) }
    ensures check_kv { command_of (codes "vst" ∷ codes "check" ∷ codes "--stack" ∷ codes "kv" ∷ []) ≡ Some (Command.Check StackId.Kv) }
    ensures check_table { command_of (codes "vst" ∷ codes "check" ∷ codes "--stack" ∷ codes "table" ∷ []) ≡ Some (Command.Check StackId.Table) }
    ensures check_table_pb_seq { command_of (codes "vst" ∷ codes "check" ∷ codes "--stack" ∷ codes "table/pb/seq" ∷ []) ≡ Some (Command.Check StackId.TablePbSeq) }
    ensures check_table_raft { command_of (codes "vst" ∷ codes "check" ∷ codes "--stack" ∷ codes "table/raft" ∷ []) ≡ Some (Command.Check StackId.TableRaft) }
    ensures check_mirror { command_of (codes "vst" ∷ codes "check" ∷ codes "--stack" ∷ codes "mirror" ∷ [])
        ≡ Some (Command.Check StackId.Mirror) }
    ensures check_mirror_fifo { command_of (codes "vst" ∷ codes "check" ∷ codes "--stack" ∷ codes "mirror/fifo" ∷ [])
        ≡ Some (Command.Check StackId.MirrorFifo) }
    ensures check_lock_seq_retry { command_of (codes "vst" ∷ codes "check" ∷ codes "--stack" ∷ codes "lock/seq/retry" ∷ [])
        ≡ Some (Command.Check StackId.LockSeqRetry) }
    ensures check_kv_pb_seq_retry { command_of (codes "vst" ∷ codes "check" ∷ codes "--stack" ∷ codes "kv/pb/seq/retry" ∷ [])
        ≡ Some (Command.Check StackId.KvPbSeqRetry) }
    ensures check_kv_raft_read { command_of (codes "vst" ∷ codes "check" ∷ codes "--stack" ∷ codes "kv/raft/read" ∷ [])
        ≡ Some (Command.Check StackId.KvRaftRead) }
    ensures check_table_raft_read { command_of (codes "vst" ∷ codes "check" ∷ codes "--stack" ∷ codes "table/raft/read" ∷ [])
        ≡ Some (Command.Check StackId.TableRaftRead) }
    ensures attached { command_of (codes "vst" ∷ codes "check" ∷ codes "--stack=lock" ∷ []) ≡ Some (Command.Check StackId.Lock) }
    ensures check_end_of_options { command_of (codes "vst" ∷ codes "check" ∷ codes "--stack" ∷ codes "lock" ∷ codes "--" ∷ []) ≡ Some (Command.Check StackId.Lock) }
    ensures check_taken { takes_words (codes "vst" ∷ codes "check" ∷ codes "--stack" ∷ codes "lock" ∷ []) ≡ true }

    // No stack, no value of one, or more than one.
    ensures no_stack { asked_of (codes "vst" ∷ codes "check" ∷ []) ≡ None }
    ensures no_value { asked_of (codes "vst" ∷ codes "check" ∷ codes "--stack" ∷ []) ≡ None }
    ensures no_attached_value { asked_of (codes "vst" ∷ codes "check" ∷ codes "--stack=" ∷ []) ≡ None }
    ensures no_value_before_the_end { asked_of (codes "vst" ∷ codes "check" ∷ codes "--stack" ∷ codes "--" ∷ codes "lock" ∷ []) ≡ None }
    ensures second_value { asked_of (codes "vst" ∷ codes "check" ∷ codes "--stack" ∷ codes "lock" ∷ codes "lock" ∷ []) ≡ None }
    ensures second_stack { asked_of (codes "vst" ∷ codes "check" ∷ codes "--stack" ∷ codes "lock" ∷ codes "--stack" ∷ codes "lock" ∷ []) ≡ None }
    ensures bare_stack { asked_of (codes "vst" ∷ codes "check" ∷ codes "lock" ∷ []) ≡ None }
    ensures no_stack_not_taken { takes_words (codes "vst" ∷ codes "check" ∷ []) ≡ false }

    // No stack of these words.
    ensures unknown_stack { asked_of (codes "vst" ∷ codes "check" ∷ codes "--stack" ∷ codes "frob" ∷ []) ≡ None }
    ensures empty_stack { asked_of (codes "vst" ∷ codes "check" ∷ codes "--stack" ∷ codes "" ∷ []) ≡ None }
    ensures stack_cut_short { asked_of (codes "vst" ∷ codes "check" ∷ codes "--stack" ∷ codes "lock/" ∷ []) ≡ None }
    ensures stack_too_long { asked_of (codes "vst" ∷ codes "check" ∷ codes "--stack" ∷ codes "kv/" ∷ []) ≡ None }
    ensures stack_upper_case { asked_of (codes "vst" ∷ codes "check" ∷ codes "--stack" ∷ codes "Lock" ∷ []) ≡ None }
    ensures unknown_stack_not_taken { takes_words (codes "vst" ∷ codes "check" ∷ codes "--stack" ∷ codes "frob" ∷ []) ≡ false }

    // A node without its options.
    ensures node { asked_of (codes "vst" ∷ codes "node" ∷ []) ≡ None }

    // Options that there are not, and options in another place.
    ensures one_hyphen { asked_of (codes "vst" ∷ codes "check" ∷ codes "-stack" ∷ codes "lock" ∷ []) ≡ None }
    ensures short_form { asked_of (codes "vst" ∷ codes "check" ∷ codes "-s" ∷ codes "lock" ∷ []) ≡ None }
    ensures option_upper_case { asked_of (codes "vst" ∷ codes "check" ∷ codes "--Stack" ∷ codes "lock" ∷ []) ≡ None }
    ensures option_cut_short { asked_of (codes "vst" ∷ codes "check" ∷ codes "--stac" ∷ codes "lock" ∷ []) ≡ None }
    ensures replay_with_stack { asked_of (codes "vst" ∷ codes "replay" ∷ codes "--stack" ∷ codes "lock" ∷ []) ≡ None }
    ensures stack_before_check { asked_of (codes "vst" ∷ codes "--stack" ∷ codes "lock" ∷ codes "check" ∷ []) ≡ None }
    ensures two_commands { asked_of (codes "vst" ∷ codes "check" ∷ codes "--stack" ∷ codes "lock" ∷ codes "replay" ∷ []) ≡ None }

    // Calls for help or the version.
    ensures check_help_option { asked_of (codes "vst" ∷ codes "check" ∷ codes "--help" ∷ []) ≡ None }
    ensures help_for_a_stack { asked_of (codes "vst" ∷ codes "check" ∷ codes "--stack" ∷ codes "lock" ∷ codes "--help" ∷ []) ≡ None }
    ensures stack_of_help { asked_of (codes "vst" ∷ codes "check" ∷ codes "--stack" ∷ codes "--help" ∷ []) ≡ None }
    ensures help_option { asked_of (codes "vst" ∷ codes "--help" ∷ []) ≡ None }
    ensures help_flag { asked_of (codes "vst" ∷ codes "-h" ∷ []) ≡ None }
    ensures help { asked_of (codes "vst" ∷ codes "help" ∷ []) ≡ None }
    ensures help_with_replay { asked_of (codes "vst" ∷ codes "help" ∷ codes "replay" ∷ []) ≡ None }
    ensures replay_help_option { asked_of (codes "vst" ∷ codes "replay" ∷ codes "--help" ∷ []) ≡ None }
    ensures replay_help_flag { asked_of (codes "vst" ∷ codes "replay" ∷ codes "-h" ∷ []) ≡ None }
    ensures version { asked_of (codes "vst" ∷ codes "--version" ∷ []) ≡ None }
{}

/// The words that ask for a made schedule, on examples.
#[tactic(auto, unfolding(crate::proofs::OnLiterals::words_on_literals))]
pub fn worked_schedules()
    // The stacks of which schedules can be made.
    ensures stacks { packet_stack_words ≡ codes "lock" ∷ codes "lock/seq" ∷ codes "kv/pb" ∷ codes "kv/pb/seq" ∷ codes "kv/raft"
        ∷ codes "table/pb/seq" ∷ codes "table/raft" ∷ codes "mirror" ∷ codes "mirror/fifo" ∷ codes "lock/seq/retry" ∷ codes "kv/pb/seq/retry"
        ∷ codes "kv/raft/read" ∷ codes "table/raft/read" ∷ [] }

    // In any order, and in each spelling that clap takes.
    ensures apart { command_of (codes "vst" ∷ codes "make" ∷ codes "--stack" ∷ codes "lock" ∷ codes "--seed" ∷ codes "5" ∷ codes "--steps" ∷ codes "3" ∷ [])
        ≡ Some (Command.Make (made_schedule StackId.Lock 5 3)) }
    ensures other_order { command_of (codes "vst" ∷ codes "make" ∷ codes "--steps" ∷ codes "5" ∷ codes "--summary" ∷ codes "--seed" ∷ codes "9" ∷ codes "--stack" ∷ codes "table/raft" ∷ [])
        ≡ Some (Command.Summarize (made_schedule StackId.TableRaft 9 5)) }
    ensures attached { command_of (codes "vst" ∷ codes "make" ∷ codes "--stack=kv/pb" ∷ codes "--seed=3" ∷ codes "--steps=10" ∷ [])
        ≡ Some (Command.Make (made_schedule StackId.KvPb 3 10)) }
    ensures plus_and_zeros { command_of (codes "vst" ∷ codes "make" ∷ codes "--stack=lock" ∷ codes "--seed=+5" ∷ codes "--steps=007" ∷ [])
        ≡ Some (Command.Make (made_schedule StackId.Lock 5 7)) }
    ensures least { command_of (codes "vst" ∷ codes "make" ∷ codes "--stack=lock/seq" ∷ codes "--seed=-0" ∷ codes "--steps=0" ∷ codes "--" ∷ [])
        ≡ Some (Command.Make (made_schedule StackId.LockSeq 0 0)) }
    ensures greatest { command_of (codes "vst" ∷ codes "make" ∷ codes "--stack=kv/raft" ∷ codes "--seed=4294967295" ∷ codes "--steps=1000000" ∷ codes "--summary" ∷ [])
        ≡ Some (Command.Summarize (made_schedule StackId.KvRaft 4294967295 1000000)) }
    ensures in_order { command_of (codes "vst" ∷ codes "make" ∷ codes "--stack=mirror/fifo" ∷ codes "--seed=1" ∷ codes "--steps=20" ∷ [])
        ≡ Some (Command.Make (made_schedule StackId.MirrorFifo 1 20)) }
    ensures sent_again { command_of (codes "vst" ∷ codes "make" ∷ codes "--stack=kv/pb/seq/retry" ∷ codes "--seed=1" ∷ codes "--steps=20" ∷ codes "--summary" ∷ [])
        ≡ Some (Command.Summarize (made_schedule StackId.KvPbSeqRetry 1 20)) }

    // An option that is missing, or has no value.
    ensures no_options { takes_words (codes "vst" ∷ codes "make" ∷ []) ≡ false }
    ensures no_stack { takes_words (codes "vst" ∷ codes "make" ∷ codes "--seed=1" ∷ codes "--steps=1" ∷ []) ≡ false }
    ensures no_seed { takes_words (codes "vst" ∷ codes "make" ∷ codes "--stack=lock" ∷ codes "--steps=1" ∷ []) ≡ false }
    ensures no_steps { takes_words (codes "vst" ∷ codes "make" ∷ codes "--stack=lock" ∷ codes "--seed=1" ∷ []) ≡ false }
    ensures no_value { asked_of (codes "vst" ∷ codes "make" ∷ codes "--stack=lock" ∷ codes "--seed=1" ∷ codes "--steps" ∷ []) ≡ None }
    ensures empty_value { asked_of (codes "vst" ∷ codes "make" ∷ codes "--stack=lock" ∷ codes "--seed=" ∷ codes "--steps=1" ∷ []) ≡ None }

    // No such stack.
    ensures machine_alone { asked_of (codes "vst" ∷ codes "make" ∷ codes "--stack=kv" ∷ codes "--seed=1" ∷ codes "--steps=1" ∷ [])
        ≡ None }
    ensures table_alone { asked_of (codes "vst" ∷ codes "make" ∷ codes "--stack=table" ∷ codes "--seed=1" ∷ codes "--steps=1" ∷ [])
        ≡ None }
    ensures unknown_stack { asked_of (codes "vst" ∷ codes "make" ∷ codes "--stack=table/pb" ∷ codes "--seed=1" ∷ codes "--steps=1" ∷ [])
        ≡ None }

    // No such number.
    ensures seed_too_great { asked_of (codes "vst" ∷ codes "make" ∷ codes "--stack=lock" ∷ codes "--seed=4294967296" ∷ codes "--steps=1" ∷ [])
        ≡ None }
    ensures too_many_steps { asked_of (codes "vst" ∷ codes "make" ∷ codes "--stack=lock" ∷ codes "--seed=1" ∷ codes "--steps=1000001" ∷ [])
        ≡ None }
    ensures negative { asked_of (codes "vst" ∷ codes "make" ∷ codes "--stack=lock" ∷ codes "--seed=-1" ∷ codes "--steps=1" ∷ []) ≡ None }
    ensures no_number { asked_of (codes "vst" ∷ codes "make" ∷ codes "--stack=lock" ∷ codes "--seed=1" ∷ codes "--steps=1e3" ∷ [])
        ≡ None }
    ensures minus_as_a_word { asked_of (codes "vst" ∷ codes "make" ∷ codes "--stack=lock" ∷ codes "--seed" ∷ codes "-0" ∷ codes "--steps=1" ∷ [])
        ≡ None }

    // Too much.
    ensures second_seed { asked_of (codes "vst" ∷ codes "make" ∷ codes "--stack=lock" ∷ codes "--seed=1" ∷ codes "--seed=1" ∷ codes "--steps=1" ∷ [])
        ≡ None }
    ensures second_summary { asked_of (codes "vst" ∷ codes "make" ∷ codes "--stack=lock" ∷ codes "--seed=1" ∷ codes "--steps=1" ∷ codes "--summary" ∷ codes "--summary" ∷ [])
        ≡ None }
    ensures summary_with_a_value { asked_of (codes "vst" ∷ codes "make" ∷ codes "--stack=lock" ∷ codes "--seed=1" ∷ codes "--steps=1" ∷ codes "--summary=true" ∷ [])
        ≡ None }
    ensures one_word_too_many { asked_of (codes "vst" ∷ codes "make" ∷ codes "--stack=lock" ∷ codes "--seed=1" ∷ codes "--steps=1" ∷ codes "x" ∷ [])
        ≡ None }

    // What a number is, and which schedules can be made.
    ensures numbers { (number_of (codes "+05") ≡ Some 5) × (number_of (codes "-0") ≡ None) × (number_of [] ≡ None)
        × (number_of (codes "4294967295") ≡ Some 4294967295) × (number_of (codes "4294967296") ≡ None) }
    ensures can_be { IfMakes (Command.Make (made_schedule StackId.Lock 4294967295 1000000)) CanBeMade }
    ensures without_packets { ¬ CanBeMade (made_schedule StackId.Table 0 0) }
    ensures with_too_many_steps { ¬ CanBeMade (made_schedule StackId.Lock 0 1000001) }
{}

/// The words that ask for a node, on examples.
#[tactic(auto, unfolding(crate::proofs::OnLiterals::words_on_literals))]
pub fn worked_nodes()
    // In any order, and in each spelling that clap takes.
    ensures apart { asked_of (codes "vst" ∷ codes "node" ∷ codes "--me" ∷ codes "0" ∷ codes "--turns" ∷ codes "5"
        ∷ codes "--state" ∷ codes "here" ∷ []) ≡ Some (Asked.Node (node_words 0 5 (codes "here"))) }
    ensures attached { asked_of (codes "vst" ∷ codes "node" ∷ codes "--state=here" ∷ codes "--turns=5" ∷ codes "--me=0" ∷ [])
        ≡ Some (Asked.Node (node_words 0 5 (codes "here"))) }
    ensures end_of_options { asked_of (codes "vst" ∷ codes "node" ∷ codes "--turns" ∷ codes "5" ∷ codes "--me=0"
        ∷ codes "--state" ∷ codes "here" ∷ codes "--" ∷ []) ≡ Some (Asked.Node (node_words 0 5 (codes "here"))) }
    ensures least { asked_of (codes "vst" ∷ codes "node" ∷ codes "--me=0" ∷ codes "--turns=1" ∷ codes "--state=here" ∷ [])
        ≡ Some (Asked.Node (node_words 0 1 (codes "here"))) }
    ensures greatest { asked_of (codes "vst" ∷ codes "node" ∷ codes "--me=8" ∷ codes "--turns=1000000000" ∷ codes "--state=here" ∷ [])
        ≡ Some (Asked.Node (node_words 8 1000000000 (codes "here"))) }
    ensures plus_and_zeros { asked_of (codes "vst" ∷ codes "node" ∷ codes "--me=+5" ∷ codes "--turns=007" ∷ codes "--state=here" ∷ [])
        ≡ Some (Asked.Node (node_words 5 7 (codes "here"))) }
    ensures minus { asked_of (codes "vst" ∷ codes "node" ∷ codes "--me=-0" ∷ codes "--turns=5" ∷ codes "--state=here" ∷ [])
        ≡ Some (Asked.Node (node_words 0 5 (codes "here"))) }

    // A directory is any text, but one that begins with a hyphen has to be attached; a hyphen alone is no option.
    ensures spaces { asked_of (codes "vst" ∷ codes "node" ∷ codes "--me=0" ∷ codes "--turns=5" ∷ codes "--state" ∷ codes "/var/a b/" ∷ [])
        ≡ Some (Asked.Node (node_words 0 5 (codes "/var/a b/"))) }
    ensures equals_sign { asked_of (codes "vst" ∷ codes "node" ∷ codes "--me=0" ∷ codes "--turns=5" ∷ codes "--state=a=b" ∷ [])
        ≡ Some (Asked.Node (node_words 0 5 (codes "a=b"))) }
    ensures empty { asked_of (codes "vst" ∷ codes "node" ∷ codes "--me=0" ∷ codes "--turns=5" ∷ codes "--state" ∷ codes "" ∷ [])
        ≡ Some (Asked.Node (node_words 0 5 (codes ""))) }
    ensures empty_attached { asked_of (codes "vst" ∷ codes "node" ∷ codes "--me=0" ∷ codes "--turns=5" ∷ codes "--state=" ∷ [])
        ≡ Some (Asked.Node (node_words 0 5 (codes ""))) }
    ensures hyphen_attached { asked_of (codes "vst" ∷ codes "node" ∷ codes "--me=0" ∷ codes "--turns=5" ∷ codes "--state=-x" ∷ [])
        ≡ Some (Asked.Node (node_words 0 5 (codes "-x"))) }
    ensures hyphen_alone { asked_of (codes "vst" ∷ codes "node" ∷ codes "--me=0" ∷ codes "--turns=5" ∷ codes "--state" ∷ codes "-" ∷ [])
        ≡ Some (Asked.Node (node_words 0 5 (codes "-"))) }
    ensures hyphen_as_a_word { asked_of (codes "vst" ∷ codes "node" ∷ codes "--me=0" ∷ codes "--turns=5" ∷ codes "--state"
        ∷ codes "-x" ∷ []) ≡ None }
    ensures no_state_before_the_end { asked_of (codes "vst" ∷ codes "node" ∷ codes "--me=0" ∷ codes "--turns=5" ∷ codes "--state"
        ∷ codes "--" ∷ []) ≡ None }

    // An option that is missing, or has no value.
    ensures no_options { takes_words (codes "vst" ∷ codes "node" ∷ []) ≡ false }
    ensures no_me { takes_words (codes "vst" ∷ codes "node" ∷ codes "--turns=5" ∷ codes "--state=here" ∷ []) ≡ false }
    ensures no_turns { takes_words (codes "vst" ∷ codes "node" ∷ codes "--me=0" ∷ codes "--state=here" ∷ []) ≡ false }
    ensures no_state { takes_words (codes "vst" ∷ codes "node" ∷ codes "--me=0" ∷ codes "--turns=5" ∷ []) ≡ false }
    ensures no_value { asked_of (codes "vst" ∷ codes "node" ∷ codes "--me=0" ∷ codes "--turns=5" ∷ codes "--state" ∷ []) ≡ None }
    ensures no_me_attached { asked_of (codes "vst" ∷ codes "node" ∷ codes "--me=" ∷ codes "--turns=5" ∷ codes "--state=here" ∷ []) ≡ None }

    // No such node, and no such number of turns.
    ensures tenth_node { asked_of (codes "vst" ∷ codes "node" ∷ codes "--me=9" ∷ codes "--turns=5" ∷ codes "--state=here" ∷ []) ≡ None }
    ensures past_a_byte { asked_of (codes "vst" ∷ codes "node" ∷ codes "--me=256" ∷ codes "--turns=5" ∷ codes "--state=here" ∷ []) ≡ None }
    ensures minus_one { asked_of (codes "vst" ∷ codes "node" ∷ codes "--me=-1" ∷ codes "--turns=5" ∷ codes "--state=here" ∷ []) ≡ None }
    ensures minus_as_a_word { asked_of (codes "vst" ∷ codes "node" ∷ codes "--me" ∷ codes "-0" ∷ codes "--turns=5"
        ∷ codes "--state=here" ∷ []) ≡ None }
    ensures no_number { asked_of (codes "vst" ∷ codes "node" ∷ codes "--me=a" ∷ codes "--turns=5" ∷ codes "--state=here" ∷ []) ≡ None }
    ensures no_turn { asked_of (codes "vst" ∷ codes "node" ∷ codes "--me=0" ∷ codes "--turns=0" ∷ codes "--state=here" ∷ []) ≡ None }
    ensures minus_no_turn { asked_of (codes "vst" ∷ codes "node" ∷ codes "--me=0" ∷ codes "--turns=-0" ∷ codes "--state=here" ∷ [])
        ≡ None }
    ensures too_many_turns { asked_of (codes "vst" ∷ codes "node" ∷ codes "--me=0" ∷ codes "--turns=1000000001"
        ∷ codes "--state=here" ∷ []) ≡ None }

    // Too much, and options that there are not.
    ensures second_me { asked_of (codes "vst" ∷ codes "node" ∷ codes "--me=0" ∷ codes "--me=0" ∷ codes "--turns=5"
        ∷ codes "--state=here" ∷ []) ≡ None }
    ensures second_turns { asked_of (codes "vst" ∷ codes "node" ∷ codes "--me=0" ∷ codes "--turns=5" ∷ codes "--turns=5"
        ∷ codes "--state=here" ∷ []) ≡ None }
    ensures second_state { asked_of (codes "vst" ∷ codes "node" ∷ codes "--me=0" ∷ codes "--turns=5" ∷ codes "--state=here"
        ∷ codes "--state=here" ∷ []) ≡ None }
    ensures stack { asked_of (codes "vst" ∷ codes "node" ∷ codes "--me=0" ∷ codes "--turns=5" ∷ codes "--state=here"
        ∷ codes "--stack=lock" ∷ []) ≡ None }
    ensures one_word_too_many { asked_of (codes "vst" ∷ codes "node" ∷ codes "--me=0" ∷ codes "--turns=5" ∷ codes "--state=here"
        ∷ codes "x" ∷ []) ≡ None }
    ensures bare_me { asked_of (codes "vst" ∷ codes "node" ∷ codes "0" ∷ codes "--turns=5" ∷ codes "--state=here" ∷ []) ≡ None }
    ensures short_form { asked_of (codes "vst" ∷ codes "node" ∷ codes "-m" ∷ codes "0" ∷ codes "--turns=5" ∷ codes "--state=here" ∷ [])
        ≡ None }
    ensures state_of_help { asked_of (codes "vst" ∷ codes "node" ∷ codes "--me=0" ∷ codes "--turns=5" ∷ codes "--state"
        ∷ codes "--help" ∷ []) ≡ None }

    // A node is no command over texts, nor the other way round.
    ensures no_command { command_of (codes "vst" ∷ codes "node" ∷ codes "--me=0" ∷ codes "--turns=5" ∷ codes "--state=here" ∷ []) ≡ None }
    ensures node { node_of (codes "vst" ∷ codes "node" ∷ codes "--me=0" ∷ codes "--turns=5" ∷ codes "--state=here" ∷ [])
        ≡ Some (node_words 0 5 (codes "here")) }
    ensures texts { asked_of (codes "vst" ∷ codes "replay" ∷ []) ≡ Some (Asked.Texts Command.Replay) }
    ensures no_node { node_of (codes "vst" ∷ codes "replay" ∷ []) ≡ None }

    // What a byte is, and which nodes can be run.
    ensures bytes { (number_of_bits 8 (codes "255") ≡ Some 255) × (number_of_bits 8 (codes "256") ≡ None) }
    ensures can_be { CanBeRun (node_words 8 1000000000 []) × CanBeRun (node_words 0 1 []) }
    ensures past_the_nodes { ¬ CanBeRun (node_words 9 1 []) }
    ensures without_turns { ¬ CanBeRun (node_words 0 0 []) }
    ensures with_too_many_turns { ¬ CanBeRun (node_words 0 1000000001 []) }
{}
