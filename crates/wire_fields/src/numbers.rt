ghost use Rattle.std.specs.Prelude.{◌≡◌, ◌≤◌, IfSome, option_map};
ghost use Rattle.wire_fields.specs.Fields.{number};

use byteorder::{ByteOrder, NetworkEndian};

// A number of one byte in this range, and what stands after it.
#[tactic(auto, using(crate::proofs::Fronts::number_short, crate::proofs::Fronts::number_below, crate::proofs::Fronts::number_above))]
pub fn front_u8(bytes: &[u8], low: u8, high: u8) -> Option<(u8, &[u8])>
    ensures value { (number 1 low high).read bytes.now ≡ option_map (λ p. (p.0, p.1.now)) result }
    ensures in_range { IfSome result (λ p. (low ≤ p.0) × (p.0 ≤ high)) }
{
    if bytes.len() < 1 {
        return None;
    }
    let x = bytes[0];
    if x < low || high < x {
        return None;
    }
    Some((x, &bytes[1..]))
}

// A number of two bytes in this range, and what stands after it.
#[tactic(auto, using(crate::proofs::Fronts::number_short, crate::proofs::Fronts::number_below, crate::proofs::Fronts::number_above))]
pub fn front_u16(bytes: &[u8], low: u16, high: u16) -> Option<(u16, &[u8])>
    ensures value { (number 2 low high).read bytes.now ≡ option_map (λ p. (p.0, p.1.now)) result }
    ensures in_range { IfSome result (λ p. (low ≤ p.0) × (p.0 ≤ high)) }
{
    if bytes.len() < 2 {
        return None;
    }
    let x = NetworkEndian::read_u16(bytes);
    if x < low || high < x {
        return None;
    }
    Some((x, &bytes[2..]))
}

// A number of four bytes in this range, and what stands after it.
#[tactic(auto, using(crate::proofs::Fronts::number_short, crate::proofs::Fronts::number_below, crate::proofs::Fronts::number_above))]
pub fn front_u32(bytes: &[u8], low: u32, high: u32) -> Option<(u32, &[u8])>
    ensures value { (number 4 low high).read bytes.now ≡ option_map (λ p. (p.0, p.1.now)) result }
    ensures in_range { IfSome result (λ p. (low ≤ p.0) × (p.0 ≤ high)) }
{
    if bytes.len() < 4 {
        return None;
    }
    let x = NetworkEndian::read_u32(bytes);
    if x < low || high < x {
        return None;
    }
    Some((x, &bytes[4..]))
}

// A number of eight bytes in this range, and what stands after it.
#[tactic(auto, using(crate::proofs::Fronts::number_short, crate::proofs::Fronts::number_below, crate::proofs::Fronts::number_above))]
pub fn front_u64(bytes: &[u8], low: u64, high: u64) -> Option<(u64, &[u8])>
    ensures value { (number 8 low high).read bytes.now ≡ option_map (λ p. (p.0, p.1.now)) result }
    ensures in_range { IfSome result (λ p. (low ≤ p.0) × (p.0 ≤ high)) }
{
    if bytes.len() < 8 {
        return None;
    }
    let x = NetworkEndian::read_u64(bytes);
    if x < low || high < x {
        return None;
    }
    Some((x, &bytes[8..]))
}
