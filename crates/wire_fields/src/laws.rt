ghost use Rattle.std.specs.Prelude.{◌≡◌, ◌<◌, ◌^◌, ℕ, Bool};
ghost use Rattle.wire_fields.specs.Fields.{flag, key, name, number, optional, value};
ghost use Rattle.wire_fields.specs.Formats.{Format, IsFormat, keyed, listed, mapped, pair, tested};

/// Each field has one spelling, and reads back from it.
pub fn fields_have_one_spelling()
    ensures numbers { (n low high : ℕ) → high < 256 ^ n → IsFormat (number n low high) }
    ensures keys { IsFormat key }
    ensures values { IsFormat value }
    ensures flags { IsFormat flag }
    ensures names { IsFormat name }
    ensures optional_keys { IsFormat (optional key) }
    ensures optional_values { IsFormat (optional value) }
{}
