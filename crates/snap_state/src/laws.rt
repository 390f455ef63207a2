ghost use Rattle.std.specs.Prelude.{ℕ};
ghost use Rattle.std.specs.FinMap.{len};
ghost use Rattle.wire_fields.specs.Formats.{IsFormat};
ghost use Rattle.snap_state.specs.States.{sessions, store};
ghost use Rattle.snap_state.specs.Tables.{at_most};

use wire_messages::Wire;

/// The stores of the key-value machine have one spelling each, and so have the sessions of clients, over outputs that have one. None is
/// read of more pairs than may be.
#[tactic(auto, using(crate::specs::StateLaws::store_is_format, crate::specs::StateLaws::sessions_is_format, crate::specs::TableLaws::at_most_is_format))]
pub fn states_have_one_spelling<O: Wire>()
    ensures stores { IsFormat store }
    ensures few_pairs { (most : ℕ) → IsFormat (at_most len most store) }
    ensures sessions { IsFormat (sessions O.format) }
    ensures few_sessions { (most : ℕ) → IsFormat (at_most len most (sessions O.format)) }
{}
