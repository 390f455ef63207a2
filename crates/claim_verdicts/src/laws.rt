ghost use Rattle.std.specs.Prelude.{◌≡◌, ◌↔◌};
ghost use Rattle.linearizability.specs.Linearizable.{IsLinearizable};
ghost use Rattle.vst_base.specs.Machines.{MachineMeaning};
ghost use Rattle.claim_verdicts.specs.Clusters.{ClusterClaim, cluster_verdict};
ghost use Rattle.handler_trait.specs.Handling.{Meaning};
ghost use Rattle.vst_base.specs.declared.net.Net.{Net as SpecNet};
ghost use Rattle.claim_verdicts.specs.Backups.{BackupClaim, backup_verdict};
ghost use Rattle.claim_verdicts.specs.Laws.{AreSpelled, AreSpelledReplies, IsExplained, IsShown};
ghost use Rattle.claim_verdicts.specs.Schedules.{ScheduleClaim, schedule_verdict};

use crate::Verdict;
use app_text::AppText;
use handler_trait::Handlers;
use vst_base::Machine;

/// The verdict on a claim on a cluster is yes exactly where what clients saw is linearizable by the order. It holds of every
/// machine over the types of `M`, and not of the meaning of `M` alone, and of every claim whose commands and outputs have texts, where the
/// machine's own outputs have texts too.
pub fn yes_is_linearizable<M: Machine, A: AppText<Input = M::Cmd, Output = M::Out>>()
    ensures { (m : MachineMeaning M.State M.Cmd M.Out) (c : ClusterClaim M.Cmd M.Out) → AreSpelled A.is_input A.is_output m c
        → (cluster_verdict A.input_text A.output_text m c ≡ Verdict.Yes) ↔ IsLinearizable m c.image c.trace }
{}

/// The verdict on a claim whose image is a schedule is yes exactly where the network allows the schedule, and what clients then see
/// of these handlers reads as the trace. It holds of every record of handlers over the types of `H`.
pub fn yes_is_what_clients_see<H: Handlers, A: AppText<Input = H::Input, Output = H::Output>>()
    ensures { (net : SpecNet) (m : Meaning H.State H.Input H.Output H.Msg) (c : ScheduleClaim H.Input H.Output)
        → (schedule_verdict A.input_text A.output_text net m c ≡ Verdict.Yes) ↔ IsShown A.input_text A.output_text net m c }
{}

/// The verdict on a claim on a primary and its backup is yes exactly where one machine explains what clients saw, and the image
/// reads as what it took. It holds of every machine over the types of `M`, and of every claim whose outputs have texts, where the
/// machine's own outputs have texts too.
pub fn yes_is_one_machine<M: Machine, A: AppText<Input = M::Cmd, Output = M::Out>>()
    ensures { (m : MachineMeaning M.State M.Cmd M.Out) (c : BackupClaim M.Cmd M.Out) → AreSpelledReplies A.is_output m c
        → (backup_verdict A.input_text A.output_text m c ≡ Verdict.Yes) ↔ IsExplained A.input_text m c }
{}
