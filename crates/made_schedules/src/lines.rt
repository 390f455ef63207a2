ghost use Rattle.std.specs.Prelude.{◌≡◌, ℕ, ◌≤◌, None};
ghost use Rattle.handler_trait.specs.Handling.{Meaning, Recovery};
ghost use Rattle.line_reader.specs.Lines.{lines_of};
ghost use Rattle.schedule_make.specs.Inputs.{asked_by_client, kv_input, lock_input, mirror_input, table_input};
ghost use Rattle.schedule_make.specs.Made.{Inputs, made};
ghost use Rattle.schedule_text.specs.Printing.{steps_text};
ghost use Rattle.schedule_text.specs.Schedules.{script};
ghost use Rattle.schedule_text.specs.Spellable.{numbered_steps};
ghost use Rattle.schedule_text.specs.declared.reading.TheConstants.{MAX_LINES};
ghost use Rattle.vst_base.specs.declared.net.Net.{Net};
ghost use Rattle.vst_base.specs.declared.node.TheConstants.{MAX_NODES};
ghost use Rattle.vst_base.specs.declared.step.TheConstants.{MAX_STEPS};
ghost use Rattle.made_schedules.specs.MadeLines.{HaveLines};
ghost use Rattle.made_schedules.specs.Sends.{SendsFew};
ghost use Rattle.made_schedules.specs.Texts.{HaveShortTexts};

use app_text::{AppText, KvText, LockText, MirrorText, TableText};
use raft_text::RaftText;
use schedule_make::made_schedules_are_allowed;
use schedule_text::steps_read_back;

/// Each step of a made schedule has a line, and after a header on the first line these lines are read as the steps: where events send few
/// packets and the inputs that are made have short texts, whatever the network, what nodes keep and the number that the schedule is made
/// from. `S` are states, `K` what nodes keep, `O` and `M` outputs and messages.
pub fn made_steps_have_lines<A: AppText, S: Drop, K: Drop, O: Drop, M: Drop>()
    ensures lines { (net : Net) (m : Meaning S A.Input O M) (r : Recovery S K) (inputs : Inputs A.Input)
        → m.nodes ≤ MAX_NODES → SendsFew m → HaveShortTexts A.is_input A.input_text inputs
        → HaveLines A.is_input A.input_text net m r inputs }
    ensures read_back { (net : Net) (m : Meaning S A.Input O M) (r : Recovery S K) (inputs : Inputs A.Input) (seed steps : ℕ)
        → m.nodes ≤ MAX_NODES → SendsFew m → HaveShortTexts A.is_input A.input_text inputs → steps ≤ MAX_STEPS
        → script MAX_LINES A.input_of 2 0 (lines_of (steps_text A.input_text (made net m r inputs seed steps)))
        ≡ record { steps = numbered_steps 2 (made net m r inputs seed steps); fault = None } }
{
    steps_read_back::<A>();
    made_schedules_are_allowed::<S, K, A::Input, O, M>();
}

/// The inputs that made schedules have do have texts, and short ones: those of the lock, the mirror and both machines, and of clusters of
/// both machines.
pub fn made_inputs_have_texts()
    ensures lock { HaveShortTexts ⟦<LockText as AppText>⟧.is_input ⟦<LockText as AppText>⟧.input_text lock_input }
    ensures mirror { HaveShortTexts ⟦<MirrorText as AppText>⟧.is_input ⟦<MirrorText as AppText>⟧.input_text mirror_input }
    ensures kv { HaveShortTexts ⟦<KvText as AppText>⟧.is_input ⟦<KvText as AppText>⟧.input_text kv_input }
    ensures table { HaveShortTexts ⟦<TableText as AppText>⟧.is_input ⟦<TableText as AppText>⟧.input_text table_input }
    ensures kv_raft { HaveShortTexts ⟦<RaftText<KvText> as AppText>⟧.is_input ⟦<RaftText<KvText> as AppText>⟧.input_text
        (asked_by_client kv_input) }
    ensures table_raft { HaveShortTexts ⟦<RaftText<TableText> as AppText>⟧.is_input ⟦<RaftText<TableText> as AppText>⟧.input_text
        (asked_by_client table_input) }
{}
