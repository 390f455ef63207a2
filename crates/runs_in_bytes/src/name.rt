ghost use Rattle.std.specs.Prelude.{◌≡◌};
ghost use Rattle.wired.specs.Wiring.{no_name};

use wire_fields::NAME_LEN;

// The name of the cluster of each run: sixteen bytes 0.
pub(crate) fn no_name() -> [u8; NAME_LEN]
    ensures { result ≡ no_name }
{
    [0; NAME_LEN]
}
