ghost use Rattle.std.specs.Prelude.{◌≡◌, ◌≤◌, [], ◌∷◌, IfSome, IsTrue, MatchOption};
ghost use Rattle.std.specs.Option.{option_copied};
ghost use Rattle.vst_base.specs.Tokens.{is_key, is_token, is_value};
ghost use Rattle.wire_fields.specs.Fields.{Reads, flag, key, name, number, raw, token_of_length, value};

use crate::name::{NAME_LEN, front_bytes, front_name};
use crate::numbers::{front_u8, front_u16, front_u32, front_u64};
use std::marker::Model;
use vst_base::{MAX_KEY, MAX_VALUE, Token};

/// Bytes that are read from their front. Contracts see those that are left. After a `None` what is left is not
/// said. Its methods are inlined always, so what is left stands in registers all through a message.
#[derive(Debug, Drop)]
pub struct Input<'a> {
    rest: &'a [u8],
}

impl<'a> Model for Input<'a> {
    ghost use Rattle.std.specs.Prelude.{ℕ, List};

    ghost Value = { List ℕ };

    ghost view = { λ i. i.rest.now };
}

impl<'a> Input<'a> {
    /// All of these bytes.
    #[inline(always)]
    pub fn new(bytes: &'a [u8]) -> Self
        ensures { result ≡ bytes.now }
    {
        Input { rest: bytes }
    }

    /// The bytes that are left.
    #[inline(always)]
    pub fn rest(&self) -> &'a [u8]
        ensures { result.now ≡ self.now }
    {
        self.rest
    }

    /// The next byte. `None` comes exactly where none is left.
    #[inline(always)]
    pub fn byte(&mut self) -> Option<u8>
        ensures { MatchOption result (self.old ≡ []) (λ b. self.old ≡ b ∷ self.new) }
    {
        match self.rest {
            [byte, rest @ ..] => {
                self.rest = rest;
                Some(*byte)
            }
            [] => None,
        }
    }

    /// A number of one byte, from `low` to `high`. `None` comes exactly where no byte is left or the number is out
    /// of range.
    #[inline(always)]
    pub fn u8(&mut self, low: u8, high: u8) -> Option<u8>
        ensures value { Reads (number 1 low high) self.old self.new result }
        ensures in_range { IfSome result (λ x. (low ≤ x) × (x ≤ high)) }
    {
        let (x, rest) = front_u8(self.rest, low, high)?;
        self.rest = rest;
        Some(x)
    }

    /// A number of two bytes, from `low` to `high`. `None` comes exactly where fewer bytes are left or the number is out
    /// of range.
    #[inline(always)]
    pub fn u16(&mut self, low: u16, high: u16) -> Option<u16>
        ensures value { Reads (number 2 low high) self.old self.new result }
        ensures in_range { IfSome result (λ x. (low ≤ x) × (x ≤ high)) }
    {
        let (x, rest) = front_u16(self.rest, low, high)?;
        self.rest = rest;
        Some(x)
    }

    /// A number of four bytes, from `low` to `high`. `None` comes exactly where fewer bytes are left or the number is out
    /// of range.
    #[inline(always)]
    pub fn u32(&mut self, low: u32, high: u32) -> Option<u32>
        ensures value { Reads (number 4 low high) self.old self.new result }
        ensures in_range { IfSome result (λ x. (low ≤ x) × (x ≤ high)) }
    {
        let (x, rest) = front_u32(self.rest, low, high)?;
        self.rest = rest;
        Some(x)
    }

    /// A number of eight bytes, from `low` to `high`. `None` comes exactly where fewer bytes are left or the number is out
    /// of range.
    #[inline(always)]
    pub fn u64(&mut self, low: u64, high: u64) -> Option<u64>
        ensures value { Reads (number 8 low high) self.old self.new result }
        ensures in_range { IfSome result (λ x. (low ≤ x) × (x ≤ high)) }
    {
        let (x, rest) = front_u64(self.rest, low, high)?;
        self.rest = rest;
        Some(x)
    }

    /// The name of a cluster. `None` comes exactly where fewer bytes are left.
    #[inline(always)]
    pub fn name(&mut self) -> Option<[u8; NAME_LEN]>
        ensures { Reads name self.old self.new result }
    {
        let (name, rest) = front_name(self.rest)?;
        self.rest = rest;
        Some(name)
    }

    /// So many bytes, whatever they are. `None` comes exactly where fewer are left.
    #[inline(always)]
    pub fn bytes(&mut self, count: usize) -> Option<&'a [u8]>
        ensures { Reads (raw count) self.old self.new (option_copied result) }
    {
        let (bytes, rest) = front_bytes(self.rest, count)?;
        self.rest = rest;
        Some(bytes)
    }

    /// No or yes, in one byte. `None` comes exactly where the next byte is neither 0 nor 1.
    #[inline(always)]
    pub fn flag(&mut self) -> Option<bool>
        ensures { Reads flag self.old self.new result }
    {
        match self.rest {
            [0, rest @ ..] => {
                self.rest = rest;
                Some(false)
            }
            [1, rest @ ..] => {
                self.rest = rest;
                Some(true)
            }
            _ => None,
        }
    }

    // The next bytes, so many, where they are a token.
    #[inline(always)]
    fn token<const MOST: usize>(&mut self, len: usize) -> Option<&'a [u8]>
        ensures token { Reads (token_of_length MOST len) self.old self.new (option_copied result) }
        ensures is_token { IfSome result (λ token. IsTrue (is_token MOST token.now)) }
    {
        let bytes = self.rest;
        if bytes.len() < len || !Token::<MOST>::is_token(&bytes[..len]) {
            return None;
        }
        self.rest = &bytes[len..];
        Some(&bytes[..len])
    }

    /// A key after its length in one byte. `None` comes exactly where they are not whole or not a key.
    #[inline(always)]
    pub fn key(&mut self) -> Option<&'a [u8]>
        ensures token { Reads key self.old self.new (option_copied result) }
        ensures is_key { IfSome result (λ token. IsTrue (is_key token.now)) }
    {
        let len = self.u8(1, MAX_KEY as u8)?;
        self.token::<MAX_KEY>(len as usize)
    }

    /// A value after its length in two bytes. `None` comes exactly where they are not whole or not a value.
    #[inline(always)]
    pub fn value(&mut self) -> Option<&'a [u8]>
        ensures token { Reads value self.old self.new (option_copied result) }
        ensures is_value { IfSome result (λ token. IsTrue (is_value token.now)) }
    {
        let len = self.u16(1, MAX_VALUE as u16)?;
        self.token::<MAX_VALUE>(len as usize)
    }
}
