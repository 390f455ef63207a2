ghost use Rattle.std.specs.Prelude.{◌≡◌, None, Some, codes};
ghost use Rattle.app_text.specs.LockTexts.{input_of, input_text, output_of, output_text};

use vst_base::{LockInput, LockOutput};

/// The texts of the lock server, on examples.
pub fn worked()
    ensures lock { (input_of (codes "lock") ≡ Some LockInput.Lock) × (input_text LockInput.Lock ≡ codes "lock") }
    ensures unlock { (input_of (codes "unlock") ≡ Some LockInput.Unlock) × (input_text LockInput.Unlock ≡ codes "unlock") }
    ensures locked { (output_of (codes "locked") ≡ Some LockOutput.Locked) × (output_text LockOutput.Locked ≡ codes "locked") }
    ensures no_input { (input_of (codes "") ≡ None) × (input_of (codes "Lock") ≡ None) × (input_of (codes "lock ") ≡ None) × (input_of (codes "locked") ≡ None) }
    ensures no_output { (output_of (codes "") ≡ None) × (output_of (codes "lock") ≡ None) × (output_of (codes "lockedx") ≡ None) }
{}
