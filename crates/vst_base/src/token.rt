ghost use Rattle.std.specs.Prelude.{◌≡◌, ◌≤◌, ℕ, List, length, false, IsTrue, IsOk, IfOk};
ghost use Rattle.std.specs.Char.{is_ascii_graphic};
ghost use Rattle.std.specs.Cmp.{partial_equiv_from_equiv};
ghost use Rattle.std.specs.Cmp.Lexicographic.{nat_list_eq_equiv};
ghost use Rattle.std.specs.Cmp.Rules.{hashing};
ghost use Rattle.std.specs.Hash as fed;
ghost use Rattle.std.specs.List.{list_all};
ghost use Rattle.std.specs.Str.{bytes_eq};
ghost use Rattle.std.proofs.Common.{rules};
ghost use Rattle.vst_base.specs.Tokens.{is_token, token_of};
ghost use Rattle.vst_base.specs.declared.token.TheConstants.{SHORT_TOKEN};

use smallvec::SmallVec;
use std::alloc::{AllocError, Global};
use std::hash::{Hash, Hasher};
use std::marker::Model;

/// The greatest number of bytes of a token that stands in the value itself.
pub const SHORT_TOKEN: usize = 16;

/// A word of visible ASCII, of 1 to `MOST` bytes. A short one takes no memory. Contracts see the bytes.
#[derive(Debug, Drop)]
pub struct Token<const MOST: usize> {
    bytes: SmallVec<u8, SHORT_TOKEN>,
}

/// The greatest number of bytes of a key.
pub const MAX_KEY: usize = 64;

/// The greatest number of bytes of a value.
pub const MAX_VALUE: usize = 1024;

/// A key, or another name that a client chooses.
pub type Key = Token<MAX_KEY>;

/// What is stored under a key.
pub type Value = Token<MAX_VALUE>;

impl<const MOST: usize> Model for Token<MOST> {
    ghost Value = { List ℕ };

    ghost view = { λ t. t.bytes.items };

    ghost invariant = { λ t. IsTrue (is_token MOST t.bytes.items) };
}

// Whether each byte can stand in a token.
fn are_visible(bytes: &[u8]) -> bool
    ensures { result ≡ list_all is_ascii_graphic bytes.now }
{
    bytes.iter().all(|b| b.is_ascii_graphic())
}

impl<const MOST: usize> Token<MOST> {
    /// Whether the bytes are a token.
    pub fn is_token(bytes: &[u8]) -> bool
        ensures { result ≡ is_token MOST bytes.now }
    {
        (1..=MOST).contains(&bytes.len()) && are_visible(bytes)
    }

    /// The token of these bytes, and `None` where they are no token, which takes no memory.
    pub fn new(alloc: Global, bytes: &[u8]) -> Result<Option<Self>, AllocError>
        ensures token { IfOk result (λ token. token ≡ token_of MOST bytes.now) }
        ensures refused { is_token MOST bytes.now ≡ false → IsOk result }
    {
        if !Self::is_token(bytes) {
            return Ok(None);
        }
        Ok(Some(Self::from_token(alloc, bytes)?))
    }

    /// The token of bytes that are one.
    pub fn from_token(alloc: Global, bytes: &[u8]) -> Result<Self, AllocError>
        requires { IsTrue (is_token MOST bytes.now) }
        ensures token { IfOk result (λ token. token ≡ bytes.now) }
        ensures short { length bytes.now ≤ SHORT_TOKEN → IsOk result }
    {
        Ok(Token {
            bytes: SmallVec::from_slice(alloc, bytes)?,
        })
    }

    /// Its bytes.
    pub fn as_bytes(&self) -> &[u8]
        ensures bytes { result.now ≡ self.now }
        ensures is_token { IsTrue (is_token MOST self.now) }
    {
        self.bytes.as_slice()
    }

    /// An equal token.
    pub fn copy(&self, alloc: Global) -> Result<Self, AllocError>
        ensures equal { IfOk result (λ copy. copy ≡ self.now) }
        ensures short { length self.now ≤ SHORT_TOKEN → IsOk result }
    {
        Self::from_token(alloc, self.as_bytes())
    }
}

impl<const MOST: usize> PartialEq for Token<MOST> {
    ghost eq = { bytes_eq };

    ghost laws = { partial_equiv_from_equiv nat_list_eq_equiv };

    fn eq(&self, other: &Self) -> bool {
        self.as_bytes() == other.as_bytes()
    }
}

impl<const MOST: usize> Eq for Token<MOST> {
    ghost laws = { nat_list_eq_equiv };
}

impl<const MOST: usize> Hash for Token<MOST> {
    ghost hash_input = { fed.str };

    ghost respects_eq = { Prim.search (hashing, rules) };

    fn hash<H: Hasher>(&self, state: &mut H) {
        state.write(self.as_bytes());
        state.write_u8(0xff);
    }
}
