ghost use Rattle.std.specs.Prelude.{◌≡◌, ◌<◌, ◌^◌, ℕ, true, false, [], ◌∷◌, None, Some, codes};
ghost use Rattle.wire_fields.specs.Fields.{flag, key, name, number, optional, raw, value};
ghost use Rattle.wire_fields.specs.Formats.{Format, IsFormat, keyed, listed, mapped, pair, tested};

/// Fields are spelled, and read with what stands after them.
#[tactic(auto, unfolding(crate::specs::Bytes::number_bytes, crate::specs::Bytes::number_in, crate::specs::Bytes::has_bytes, crate::specs::Bytes::read_number))]
pub fn worked()
    ensures the_highest_byte_first { (number 4 0 1000000).spell 66051 ≡ 0 ∷ 1 ∷ 2 ∷ 3 ∷ [] }
    ensures read_with_the_rest { (number 2 0 1000).read (1 ∷ 2 ∷ 9 ∷ []) ≡ Some (258, 9 ∷ []) }
    ensures too_great { (number 2 0 257).read (1 ∷ 2 ∷ []) ≡ None }
    ensures too_small { (number 2 259 1000).read (1 ∷ 2 ∷ []) ≡ None }
    ensures cut_short { (number 2 0 1000).read (1 ∷ []) ≡ None }
    ensures a_key { key.spell (codes "ab") ≡ 2 ∷ codes "ab" }
    ensures a_key_is_read { key.read (1 ∷ codes "ab") ≡ Some (codes "a", codes "b") }
    ensures no_empty_key { key.read (0 ∷ codes "ab") ≡ None }
    ensures no_longer_key_than_its_bytes { key.read (3 ∷ codes "ab") ≡ None }
    ensures no_space_in_a_key { key.read (2 ∷ codes "a ") ≡ None }
    ensures a_value { value.spell (codes "x") ≡ 0 ∷ 1 ∷ codes "x" }
    ensures no_value_there { (optional value).spell None ≡ 0 ∷ [] }
    ensures a_value_there { (optional value).read (1 ∷ 0 ∷ 1 ∷ codes "x-") ≡ Some (Some (codes "x"), codes "-") }
    ensures bytes_as_they_are { (raw 2).read (1 ∷ 2 ∷ 9 ∷ []) ≡ Some (1 ∷ 2 ∷ [], 9 ∷ []) }
    ensures bytes_cut_short { (raw 2).read (1 ∷ []) ≡ None }
    ensures a_yes { flag.read (1 ∷ []) ≡ Some (true, []) }
    ensures no_second_yes { flag.read (2 ∷ []) ≡ None }
    ensures no_second_mark { (optional value).read (2 ∷ 0 ∷ 1 ∷ codes "x") ≡ None }
{}
