ghost use Rattle.std.specs.Prelude.{◌≡◌};
ghost use Rattle.std.specs.Char.{is_ascii_uppercase};
ghost use Rattle.std.specs.List.{list_any};
ghost use Rattle.node_config.specs.Names.{name_of};

use hex::FromHex;
use wire_fields::NAME_LEN;

// Whether one of the bytes is a letter in upper case.
fn has_uppercase(text: &[u8]) -> bool
    ensures { result ≡ list_any is_ascii_uppercase text.now }
{
    text.iter().any(|byte| byte.is_ascii_uppercase())
}

/// The name of a cluster that 32 lower-case hexadecimal digits spell, two for each byte.
#[tactic(auto, unfolding(crate::specs::Names::name_of))]
pub fn name_of(text: &str) -> Option<[u8; NAME_LEN]>
    ensures { result ≡ name_of text.now }
{
    if has_uppercase(text.as_bytes()) {
        return None;
    }
    <[u8; NAME_LEN] as FromHex>::from_hex(text).ok()
}
