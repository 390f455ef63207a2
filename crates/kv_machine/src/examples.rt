ghost use Rattle.std.specs.Prelude.{◌≡◌, true, false, [], ◌∷◌, None, Some};
ghost use Rattle.kv_machine.specs.Examples.{a, b, x, y, z, told};
ghost use Rattle.kv_machine.specs.Kv.{is_read, kv};
ghost use Rattle.vst_base.specs.Machines.{fold};

use crate::KvCmd;

/// Runs of commands from the first state on, with what they answer: the key, its value after and its
/// value before; and which commands only read.
#[tactic(auto, using(key_map::proofs::Lookups::lookups))]
pub fn worked()
    ensures get_of_absent { fold kv (KvCmd.Get a ∷ []) ≡ told a None None ∷ [] }
    ensures put_then_get { fold kv (KvCmd.Put a x ∷ KvCmd.Get a ∷ []) ≡ told a (Some x) None ∷ told a (Some x) (Some x) ∷ [] }
    ensures put_again { fold kv (KvCmd.Put a x ∷ KvCmd.Put a y ∷ []) ≡ told a (Some x) None ∷ told a (Some y) (Some x) ∷ [] }
    ensures get_changes_nothing { fold kv (KvCmd.Put a x ∷ KvCmd.Get a ∷ KvCmd.Get a ∷ []) ≡ told a (Some x) None ∷ told a (Some x) (Some x) ∷ told a (Some x) (Some x) ∷ [] }
    ensures del_of_present { fold kv (KvCmd.Put a x ∷ KvCmd.Del a ∷ KvCmd.Get a ∷ []) ≡ told a (Some x) None ∷ told a None (Some x) ∷ told a None None ∷ [] }
    ensures del_of_absent { fold kv (KvCmd.Del a ∷ []) ≡ told a None None ∷ [] }
    ensures cas_on_absent { fold kv (KvCmd.Cas a None x ∷ KvCmd.Get a ∷ []) ≡ told a (Some x) None ∷ told a (Some x) (Some x) ∷ [] }
    ensures cas_expects_a_value { fold kv (KvCmd.Cas a (Some y) x ∷ KvCmd.Get a ∷ []) ≡ told a None None ∷ told a None None ∷ [] }
    ensures cas_expects_none { fold kv (KvCmd.Put a x ∷ KvCmd.Cas a None y ∷ KvCmd.Get a ∷ []) ≡ told a (Some x) None ∷ told a (Some x) (Some x) ∷ told a (Some x) (Some x) ∷ [] }
    ensures cas_expects_another { fold kv (KvCmd.Put a x ∷ KvCmd.Cas a (Some y) z ∷ KvCmd.Get a ∷ []) ≡ told a (Some x) None ∷ told a (Some x) (Some x) ∷ told a (Some x) (Some x) ∷ [] }
    ensures cas_succeeds { fold kv (KvCmd.Put a x ∷ KvCmd.Cas a (Some x) y ∷ KvCmd.Get a ∷ []) ≡ told a (Some x) None ∷ told a (Some y) (Some x) ∷ told a (Some y) (Some y) ∷ [] }
    ensures cad_succeeds { fold kv (KvCmd.Put a x ∷ KvCmd.Cad a x ∷ KvCmd.Get a ∷ []) ≡ told a (Some x) None ∷ told a None (Some x) ∷ told a None None ∷ [] }
    ensures cad_of_another { fold kv (KvCmd.Put a x ∷ KvCmd.Cad a y ∷ KvCmd.Get a ∷ []) ≡ told a (Some x) None ∷ told a (Some x) (Some x) ∷ told a (Some x) (Some x) ∷ [] }
    ensures cad_of_absent { fold kv (KvCmd.Cad a x ∷ []) ≡ told a None None ∷ [] }
    ensures keys_stand_apart { fold kv (KvCmd.Put a x ∷ KvCmd.Put b y ∷ KvCmd.Del a ∷ KvCmd.Get b ∷ []) ≡ told a (Some x) None ∷ told b (Some y) None ∷ told a None (Some x) ∷ told b (Some y) (Some y) ∷ [] }
    ensures each_in_turn { fold kv (KvCmd.Cas a None x ∷ KvCmd.Cas a (Some y) z ∷ KvCmd.Cad a x ∷ KvCmd.Del a ∷ []) ≡ told a (Some x) None ∷ told a (Some x) (Some x) ∷ told a None (Some x) ∷ told a None None ∷ [] }

    ensures get_reads { is_read (KvCmd.Get a) ≡ true }
    ensures put_does_not_read { is_read (KvCmd.Put a x) ≡ false }
    ensures del_does_not_read { is_read (KvCmd.Del a) ≡ false }
    ensures cas_does_not_read { is_read (KvCmd.Cas a (Some x) x) ≡ false }
    ensures cad_does_not_read { is_read (KvCmd.Cad a x) ≡ false }
{}
