ghost use Rattle.std.specs.Prelude.{codes, replicate};
ghost use Rattle.handler_trait.specs.Echo.{echo};
ghost use Rattle.kv_machine.specs.declared.cmd.KvCmd.{KvCmd};
ghost use Rattle.made_schedules.specs.Examples.{knocks};
ghost use Rattle.made_schedules.specs.Sends.{SendsFew};
ghost use Rattle.made_schedules.specs.Texts.{HaveShortTexts};

use app_text::{AppText, KvText};

/// Handlers whose events send few packets, and handlers that send one too many.
pub fn worked_sends()
    ensures echo { SendsFew (echo 3) }
    ensures nine { SendsFew (knocks 9) }
    ensures ten { SendsFew (knocks 10) → ⊥ }
{}

/// Texts that are short and one that is too long, and an input without a text.
pub fn worked_texts()
    ensures longest { HaveShortTexts (λ n. Unit {0}) (λ n. replicate n 97) (λ x i. 4000) }
    ensures too_long { HaveShortTexts (λ n. Unit {0}) (λ n. replicate n 97) (λ x i. 4001) → ⊥ }
    ensures no_text { HaveShortTexts ⟦<KvText as AppText>⟧.is_input ⟦<KvText as AppText>⟧.input_text (λ x i. KvCmd.Get (codes "a b")) → ⊥ }
{}
