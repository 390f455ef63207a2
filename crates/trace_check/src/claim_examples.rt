ghost use Rattle.std.specs.Prelude.{None, codes, replicate};
ghost use Rattle.app_text.specs.KvTexts.{kv_out};
ghost use Rattle.kv_machine.specs.declared.cmd.KvCmd.TheVariants as cmd;
ghost use Rattle.trace_check.specs.Spelled.{HasInputText, HasOutputText};
ghost use Rattle.stacks.specs.Checks.{IsNotPermitted, IsPermitted};
ghost use Rattle.stacks.specs.Table.{kv_texts};
ghost use Rattle.vst_base.specs.declared.stack.StackId.TheVariants as stack;
ghost use Rattle.schedule_text.specs.ExampleTexts.{handover_claim, mistaken_put_claim};

use crate::laws::permitted_claims_are_explained;

/// Texts that are claims which are explained, and such as are not; and values that have a text, and such as have none.
#[tactic(auto, unfolding(schedule_text::specs::Headers::header_of))]
pub fn worked_claims()
    ensures longest_key { HasInputText kv_texts (cmd.Get (replicate 64 97)) }
    ensures key_too_long { HasInputText kv_texts (cmd.Get (replicate 65 97)) → ⊥ }
    ensures space_in_a_key { HasInputText kv_texts (cmd.Get (codes "a b")) → ⊥ }
    ensures output { HasOutputText kv_texts (kv_out (codes "a") None None) }
    ensures no_key { HasOutputText kv_texts (kv_out (codes "") None None) → ⊥ }
    ensures in_order { IsPermitted stack.KvRaft (codes "in 0 7 1 put a x\nout 0 reply 7 1 a =x -\nbelow\norder 7 1 put a x\n") }
    ensures not_in_the_order { IsPermitted stack.KvRaft (codes "in 0 7 1 put a x\nout 0 reply 7 1 a =x -\nbelow\n") → ⊥ }
    ensures no_image { IsPermitted stack.KvRaft (codes "in 0 7 1 put a x\n") → ⊥ }
    ensures locked { IsPermitted stack.Lock handover_claim }
    ensures locked_too_early { IsPermitted stack.Lock (codes "in 1 lock\nout 1 locked\nbelow\nschedule 1 bag lock 2\nin 1 lock\ndeliver 0\n") → ⊥ }
    ensures refused_step { IsNotPermitted stack.LockSeq (codes "in 1 lock\nbelow\nschedule 1 bag lock 2\nin 1 lock\ndeliver 1\n") }
    ensures replied { IsPermitted stack.KvPb (codes "in 0 put a x\nout 0 a =x -\nin 1 get a\nout 1 redirect\nbelow\nschedule 1 one kv 1\nin 0 put a x\n") }
    ensures another_reply { IsPermitted stack.KvPb mistaken_put_claim → ⊥ }
    ensures read_misses_the_write { IsNotPermitted stack.Kv (codes "in 0 put a x\nout 0 a =x -\nin 0 get a\nout 0 a - -\nbelow\nschedule 1 one kv 1\nin 0 put a x\nin 0 get a\n") }
{
    permitted_claims_are_explained();
}
