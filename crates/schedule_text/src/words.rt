ghost use Rattle.std.specs.Prelude.{◌≡◌, ◌≤◌, IfSome};
ghost use Rattle.std.specs.Option.{SomeIff};
ghost use Rattle.std.specs.List.{list_all};
ghost use Rattle.schedule_text.specs.Words.{is_digit, is_numeral, is_text, number_up_to, value_from, word_named, word_of};

use crate::line_word::LineWord;
use vst_base::StepKind;

/// The byte between the words of a line.
pub const SPACE: u8 = b' ';

/// The greatest number that a schedule names, of a node or a packet.
pub const MAX_NUMBER: u64 = 4_294_967_295;

fn is_digit(byte: u8) -> bool
    ensures { result ≡ is_digit byte }
{
    byte >= b'0' && byte <= b'9'
}

fn are_digits(bytes: &[u8]) -> bool
    ensures { result ≡ list_all is_digit bytes.now }
{
    bytes.iter().all(|b| is_digit(*b))
}

// Whether bytes are digits without a leading zero.
fn is_numeral(bytes: &[u8]) -> bool
    ensures { result ≡ is_numeral bytes.now }
{
    match bytes {
        [] => false,
        [only] => is_digit(*only),
        [first, rest @ ..] => *first >= b'1' && is_digit(*first) && are_digits(rest),
    }
}

// The number that digits spell, if it is at most this one.
fn value_of(digits: &[u8], most: u64) -> Option<u64>
    ensures { SomeIff result (value_from 0 digits.now ≤ most) (value_from 0 digits.now) }
{
    let mut value = 0u64;
    for digit in digits {
        let digit = u64::from(digit.saturating_sub(b'0'));
        value = value.checked_mul(10)?.checked_add(digit)?;
        if value > most {
            return None;
        }
    }
    Some(value)
}

/// The number that bytes spell: digits without a sign or a leading zero, at most this one.
pub fn number_up_to(bytes: &[u8], most: u64) -> Option<u64>
    ensures value { result ≡ number_up_to most bytes.now }
    ensures in_range { IfSome result (λ n. n ≤ most) }
{
    if is_numeral(bytes) {
        value_of(bytes, most)
    } else {
        None
    }
}

/// The number that bytes spell: digits without a sign or a leading zero, at most 4,294,967,295.
pub fn number_of(bytes: &[u8]) -> Option<u32>
    ensures { result ≡ number_up_to 4294967295 bytes.now }
{
    match number_up_to(bytes, MAX_NUMBER) {
        Some(n) => Some(n as u32),
        None => None,
    }
}

/// The word of a kind of step.
pub fn word_of(kind: StepKind) -> &'static [u8]
    ensures { result.now ≡ word_of kind }
{
    match kind {
        StepKind::In => b"in",
        StepKind::Deliver => b"deliver",
        StepKind::Tick => b"tick",
        StepKind::Dup => b"dup",
        StepKind::Lose => b"lose",
        StepKind::Crash => b"crash",
        StepKind::Reboot => b"reboot",
    }
}

// What this word names, if it is one of the nine that step lines begin with.
pub(crate) fn word_named(word: &[u8]) -> Option<LineWord>
    ensures { result ≡ word_named word.now }
{
    match word {
        b"in" => Some(LineWord::Step(StepKind::In)),
        b"deliver" => Some(LineWord::Step(StepKind::Deliver)),
        b"tick" => Some(LineWord::Step(StepKind::Tick)),
        b"dup" => Some(LineWord::Step(StepKind::Dup)),
        b"lose" => Some(LineWord::Step(StepKind::Lose)),
        b"crash" => Some(LineWord::Step(StepKind::Crash)),
        b"reboot" => Some(LineWord::Step(StepKind::Reboot)),
        b"act" => Some(LineWord::Act),
        b"stop" => Some(LineWord::Stop),
        _ => None,
    }
}
