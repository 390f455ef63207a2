ghost use Rattle.std.specs.Prelude.{◌≡◌};

use std::marker::Model;
use vst_base::Node;

/// The state of a node that knows its number.
#[derive(Drop)]
pub struct SeatState<S> {
    pub(crate) me: Node,
    pub(crate) inner: S,
}

impl<S> Model for SeatState<S> {
    ghost use Rattle.wired.specs.Saving.{Seated, seated_code};

    ghost Value = { Seated S };

    ghost coded = { seated_code S.code };

    ghost view = { λ s. record { me = s.me; inner = s.inner } };
}

impl<S> SeatState<S> {
    /// The state of the handlers within.
    pub fn inner(&self) -> &S
        ensures { result.now ≡ self.now.inner }
    {
        &self.inner
    }
}
