ghost use Rattle.std.specs.Prelude.{◌≡◌, option_map};
ghost use Rattle.wire_fields.specs.Fields.{name, raw};

/// How many bytes the name of a cluster has.
pub const NAME_LEN: usize = 16;

// The name of a cluster, and what stands after it.
#[tactic(auto, using(crate::proofs::Fronts::raw_there, crate::proofs::Fronts::raw_short))]
pub fn front_name(bytes: &[u8]) -> Option<([u8; NAME_LEN], &[u8])>
    ensures { name.read bytes.now ≡ option_map (λ p. (p.0, p.1.now)) result }
{
    if bytes.len() < NAME_LEN {
        return None;
    }
    let mut name = [0; NAME_LEN];
    name.copy_from_slice(&bytes[..NAME_LEN]);
    Some((name, &bytes[NAME_LEN..]))
}

// So many bytes, and what stands after them.
#[tactic(auto, using(crate::proofs::Fronts::raw_there, crate::proofs::Fronts::raw_short))]
pub fn front_bytes(bytes: &[u8], count: usize) -> Option<(&[u8], &[u8])>
    ensures { (raw count).read bytes.now ≡ option_map (λ p. (p.0.now, p.1.now)) result }
{
    if bytes.len() < count {
        return None;
    }
    Some((&bytes[..count], &bytes[count..]))
}
