ghost use Rattle.std.specs.Prelude.{◌≡◌, option_map};
ghost use Rattle.node_config.specs.Addresses.{address_of, number_before, port_of};

use line_reader::cut_at;
use outside::Address;
use schedule_text::number_up_to;

// The number, at most 255, before the first of these bytes, and what stands after that.
#[tactic(auto, unfolding(crate::specs::Addresses::number_before))]
fn number_before(text: &[u8], end: u8) -> Option<(u8, &[u8])>
    ensures { option_map (λ p. (p.0, p.1.now)) result ≡ number_before end text.now }
{
    let (digits, rest) = cut_at(text, end)?;
    let number = number_up_to(digits, 255)?;
    Some((number as u8, rest))
}

// The port that digits spell: 1 to 65,535.
#[tactic(auto, unfolding(crate::specs::Addresses::port_of))]
fn port_of(text: &[u8]) -> Option<u16>
    ensures { result ≡ port_of text.now }
{
    match number_up_to(text, 65_535)? {
        0 => None,
        port => Some(port as u16),
    }
}

/// The address that a text spells: four numbers up to 255 with dots between them, a colon, and a port from 1 to 65,535.
#[tactic(auto, unfolding(crate::specs::Addresses::address_of))]
pub fn address_of(text: &[u8]) -> Option<Address>
    ensures { result ≡ address_of text.now }
{
    let (first, rest) = number_before(text, b'.')?;
    let (second, rest) = number_before(rest, b'.')?;
    let (third, rest) = number_before(rest, b'.')?;
    let (fourth, rest) = number_before(rest, b':')?;
    Some(Address {
        ip: [first, second, third, fourth],
        port: port_of(rest)?,
    })
}
