ghost use Rattle.node_lives.specs.LifeLaws.{LivesGoOn, LivesStoreFirst};

use node_body::Commands;
use wire_messages::Wire;

/// A node that is killed at any moment, as often as may be, and starts again from what a crash leaves of its areas: its memory is its
/// state, what it says follows from the event that it decided last, and its areas open as what it keeps after that event, or, where nothing
/// of it went out, as before it. An opening that was cut short changes none of this.
pub fn lives_store_first<S, C: Commands, O: Wire>()
    // Its lives have deeds, which store first, and its areas are as these say.
    ensures stores_first { LivesStoreFirst S C.stack C.format O.format }

    // Later lives only add to them.
    ensures go_on { LivesGoOn S C.stack C.format O.format }
{}
