ghost use Rattle.std.specs.Prelude.{◌≡◌, ℕ, List, [], ◌∷◌, None, Some, codes, map, string_bytes};
ghost use Rattle.std.specs.declared.string.String.{String};
ghost use Rattle.command_line.specs.AskedNodes.{NodeWordsView};
ghost use Rattle.command_line.specs.declared.asked.Asked.TheVariants.{Node, Texts};
ghost use Rattle.command_line.specs.declared.command.Command.{Command};
ghost use Rattle.command_line.specs.declared.command.Command.TheVariants as command;
ghost use Rattle.commands.specs.NodeExamples.{complained, idle as left_alone, words};
ghost use Rattle.commands.specs.NodeSeen.{NodeRun};
ghost use Rattle.commands.specs.NodeStatuses.{IsNodeStatus};
ghost use Rattle.commands.specs.Lines.{memory_line, read_failed_line};
ghost use Rattle.commands.specs.Examples.{backwards, out_failed, quiet_run, read_failed};
ghost use Rattle.commands.specs.Statuses.{IsTextStatus};
ghost use Rattle.top_call.specs.Examples.{NodeAnswers, ReplayAnswers, beside, used};
ghost use Rattle.top_call.specs.Headline.{Headline};
ghost use Rattle.top_call.specs.Outcomes.{AnswersAsked, IsStatus};
ghost use Rattle.top_call.specs.Requests.{By, asked};
ghost use Rattle.schedule_text.specs.ExampleTexts.{handover, handover_claim, idle, unsent};

use schedule_replay::replays_are_explained;
use vst_base::StackId;

/// What words ask for, and what is said by that.
#[tactic(auto, unfolding(schedule_text::specs::Headers::header_of))]
pub fn worked_requests()
    ensures replay { (ws : List (String (Unit {0}))) → map string_bytes ws ≡ codes "vst" ∷ codes "replay" ∷ [] → asked ws ≡ Some (Texts command.Replay) }
    ensures nothing { (ws : List (String (Unit {0}))) → map string_bytes ws ≡ codes "vst" ∷ codes "frob" ∷ [] → asked ws ≡ None }
    ensures by_a_command { By (Some (Texts command.Replay)) (λ c. c ≡ Some command.Replay) (λ w. ⊥) }
    ensures by_no_command { By None (λ c. c ≡ None) (λ w. ⊥) }
    ensures by_a_node { By (Some (Node words)) (λ c. ⊥) (λ w. w ≡ words) }
    ensures a_node_as_a_command { By (Some (Node words)) (λ c. Unit {0}) (λ w. ⊥) → ⊥ }
    ensures a_command_as_a_node { By (Some (Texts command.Replay)) (λ c. ⊥) (λ w. Unit {0}) → ⊥ }
    ensures none_as_a_node { By None (λ c. ⊥) (λ w. Unit {0}) → ⊥ }
    ensures no_status { IsStatus 10 → ⊥ }
{}

/// What a run of a command over texts answers: never a status that is a node's alone, nor that of words. Words that ask for nothing are
/// never done.
#[tactic(auto, unfolding(schedule_text::specs::Headers::header_of))]
pub fn worked_texts()
    ensures status { (c : Command) (ws : List (List ℕ)) (r : NodeRun) (n : ℕ) → AnswersAsked (Some (Texts c)) ws r n → IsTextStatus n }
    ensures no_words { IsTextStatus 2 → ⊥ }
    ensures no_listening { IsTextStatus 6 → ⊥ }
    ensures no_store { IsTextStatus 7 → ⊥ }
    ensures no_areas { IsTextStatus 9 → ⊥ }
    ensures another_status { ReplayAnswers (beside (quiet_run idle [] [] [])) 5 → ⊥ }
    ensures done_without_an_image { ReplayAnswers (beside (quiet_run idle [] (codes "below\n") [])) 0 → ⊥ }
    ensures done_of_no_words { (ws : List (List ℕ)) (r : NodeRun) → AnswersAsked None ws r 0 → ⊥ }
    ensures denied_replay { (ws : List (List ℕ)) (r : NodeRun) → AnswersAsked (Some (Texts command.Replay)) ws r 1 → ⊥ }
    ensures refused_as_a_configuration { ReplayAnswers (complained 0 (codes "config: me\n") left_alone) 3 → ⊥ }
    ensures read_that_did_not_fail { ReplayAnswers (beside (quiet_run (codes "\n") (codes "\n") [] read_failed_line)) 4 → ⊥ }
    ensures write { ReplayAnswers (beside (out_failed (quiet_run idle [] (codes "bel") []))) 5 }
    ensures memory { ReplayAnswers (beside (quiet_run idle [] (codes "bel") memory_line)) 8 }
    ensures memory_for_a_failed_write { ReplayAnswers (beside (out_failed (quiet_run idle [] (codes "bel") memory_line))) 8 → ⊥ }
    ensures a_count_that_fell { ReplayAnswers (beside (backwards (out_failed (quiet_run [] [] [] [])))) 8 → ⊥ }
{}

/// What a run of a node answers, which never ends as a check does, nor as refused words.
pub fn worked_nodes()
    ensures status { (w : NodeWordsView) (ws : List (List ℕ)) (r : NodeRun) (n : ℕ) → AnswersAsked (Some (Node w)) ws r n → IsNodeStatus n }
    ensures no_denial { IsNodeStatus 1 → ⊥ }
    ensures no_words { IsNodeStatus 2 → ⊥ }
    ensures wanted { NodeAnswers (complained 0 (codes "memory\n") left_alone) 8 }
    ensures used_after_a_failed_read { (n : ℕ) → NodeAnswers (used (read_failed (quiet_run [] [] [] []))) n → ⊥ }
    ensures done_as_a_replay { NodeAnswers (beside (quiet_run idle [] (codes "below\n") [])) 0 → ⊥ }
    ensures refused_as_a_line { NodeAnswers (complained 0 (codes "line 1: header\n") left_alone) 3 → ⊥ }
    ensures read_and_the_device_used { NodeAnswers (used (read_failed (quiet_run [] [] [] read_failed_line))) 4 → ⊥ }
    ensures write_that_did_not_fail { NodeAnswers (complained 0 [] left_alone) 5 → ⊥ }
    ensures listening_in_silence { NodeAnswers (complained 0 [] left_alone) 6 → ⊥ }
    ensures store_in_silence { NodeAnswers (complained 0 [] left_alone) 7 → ⊥ }
    ensures memory_in_silence { NodeAnswers (complained 0 [] left_alone) 8 → ⊥ }
    ensures areas_in_silence { NodeAnswers (complained 0 [] left_alone) 9 → ⊥ }
{}

/// The headline of two inputs, and texts that are none of theirs.
#[tactic(auto, unfolding(schedule_text::specs::Headers::header_of))]
pub fn worked_headlines()
    ensures handed_over { Headline handover handover_claim }
    ensures another_trace { Headline idle (codes "in 1 lock\nbelow\nschedule 1 bag lock 2\n") → ⊥ }
    ensures without_an_image { Headline idle [] → ⊥ }
    ensures a_refused_step { (text : List ℕ) → Headline unsent text → ⊥ }
    ensures no_header { (text : List ℕ) → Headline [] text → ⊥ }
{
    replays_are_explained();
}
