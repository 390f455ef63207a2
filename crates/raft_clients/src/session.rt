ghost use Rattle.std.specs.Prelude.{◌≡◌, nat_lt};

use vst_base::ReqId;

/// A client's last request that was executed, and the machine's output of it.
#[derive(Debug, Drop, PartialEq, Eq)]
pub struct Session<O> {
    pub request: ReqId,
    pub output: O,
}

impl<O> Session<O> {
    // Whether a request of this number is new to the client: over its last one.
    pub(crate) fn is_passed_by(&self, request: ReqId) -> bool
        ensures { result ≡ nat_lt self.now.request request }
    {
        self.request < request
    }
}
