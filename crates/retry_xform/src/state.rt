ghost use Rattle.std.specs.Prelude.{◌≡◌};

use crate::KeptPackets;
use std::marker::Model;

/// What a node remembers: the state of the handlers within, the number of the next packet, and the packets that were not
/// acknowledged.
#[derive(Drop)]
pub struct RetryState<S, M> {
    pub(crate) inner: S,
    pub(crate) next: u64,
    pub(crate) kept: KeptPackets<M>,
}

impl<S, M> Model for RetryState<S, M> {
    ghost use Rattle.retry_xform.specs.Keeping.{Retrying, retrying_code};

    ghost Value = { Retrying S M };

    ghost coded = { retrying_code S.code M.code };

    ghost view = { λ s. record { inner = s.inner; next = s.next; kept = s.kept } };
}

impl<S, M> RetryState<S, M> {
    /// The packets that were not acknowledged.
    pub fn kept(&self) -> &KeptPackets<M>
        ensures { result.now ≡ self.now.kept }
    {
        &self.kept
    }
}
