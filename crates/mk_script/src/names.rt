//! Names of types, scripts and registers.
ghost use Rattle.std.specs.{Prelude.{◌≡◌, ◌≤◌, take, length}, Str.bytes_eq};
ghost use Rattle.mk_script.specs.Operands.{name_of};
ghost use Rattle.mk_script.specs.Operands as spec;

use std::marker::Model;

/// A name: 1 to 16 letters, digits or `_` of ASCII, the first of them a letter.
#[derive(Drop)]
pub struct Name {
    /// Zeros after the name's own.
    bytes: [u8; 16],
    length: usize,
}

impl Model for Name {
    ghost use Rattle.std.specs.Prelude.{◌≡◌, ℕ, ◌-◌, List, take, drop, replicate, ◌≤◌};

    ghost Value = { List ℕ };

    ghost view = { λ n. take n.length n.bytes };

    ghost invariant = { λ n. (n.length ≤ 16) × (drop n.length n.bytes ≡ replicate (16 - n.length) 0) };
}

fn is_name_byte(byte: u8) -> bool
    ensures { result ≡ spec.is_name_byte byte }
{
    byte.is_ascii_alphanumeric() || byte == b'_'
}

/// Whether a name may begin so, and is not too long.
#[inline(always)]
fn begins_name(word: &[u8]) -> bool
    ensures { result ≡ spec.begins_name word.now }
{
    let [first, ..] = word else {
        return false;
    };
    word.len() <= 16 && first.is_ascii_alphabetic()
}

impl Name {
    /// The name that the word is.
    pub fn from_word(word: &[u8]) -> Option<Name>
        ensures { result ≡ name_of word.now }
    {
        if !begins_name(word) {
            return None;
        }
        let mut bytes = [0; 16];
        bytes[0] = word[0];
        for place in 1..word.len() {
            if !is_name_byte(word[place]) {
                return None;
            }
            bytes[place] = word[place];
        }
        Some(Name {
            bytes,
            length: word.len(),
        })
    }

    /// Its bytes, and zeros after them.
    #[inline(always)]
    pub(crate) fn padded(&self) -> &[u8; 16]
        ensures { take (length self.now) result.now ≡ self.now }
    {
        &self.bytes
    }

    /// How many bytes it has.
    #[inline(always)]
    pub(crate) fn len(&self) -> usize
        ensures length { result ≡ length self.now }
        ensures short { result ≤ 16 }
    {
        self.length
    }

    /// Its bytes.
    #[inline(always)]
    pub fn as_bytes(&self) -> &[u8]
        ensures { result.now ≡ self.now }
    {
        &self.bytes[..self.length]
    }

    /// Whether it is the other name. It isn't inlined, so that all bytes are compared at once.
    #[inline(never)]
    pub fn is(&self, other: &Name) -> bool
        ensures { result ≡ bytes_eq self.now other.now }
    {
        self.length == other.length && self.bytes == other.bytes
    }
}
