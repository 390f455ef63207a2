//! Transformers as values: each with the network below it and the one above, what it makes of handlers, and its law. One over another
//! is one again. It knows handlers by their meaning alone, and has no code.
#![tactic(auto)]

mod laws;

pub use laws::{
    carried_mirrors_say_a_prefix, numbering_carries, ordering_carries, retransmission_carries,
    retried_backup_is_one_machine, retried_lock_excludes, two_carry,
};
