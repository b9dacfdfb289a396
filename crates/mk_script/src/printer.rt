//! A text that grows piece by piece.
ghost use Rattle.std.specs.Prelude.{◌≡◌, ◌++◌, ◌+◌, ◌≤◌, [], ◌∷◌, IfOk, OnOk, take, length};
ghost use Rattle.std.specs.Fmt.{decimal};
ghost use Rattle.mk_script.specs.Canonical.{at_text, numbers_before, spaced_words};
ghost use lib.Chars.{codes};

use crate::{At, Name};
use itoa::Buffer;
use mk_never::NoMemory;
use std::alloc::Global;
use std::marker::Model;

/// Up to here a piece has room after the bytes in use. With the space before it, it has at most 32.
const LAST_START: usize = 480;

/// A text that grows at its end. Its last bytes stand in a block, so that the vector is reached once for many lines.
#[derive(Drop)]
pub struct Printer {
    text: Vec<u8>,
    block: [u8; 512],
    /// How many bytes of the block belong to the text.
    used: usize,
}

impl Model for Printer {
    ghost use Rattle.std.specs.Prelude.{ℕ, List, take, ◌++◌, ◌≤◌};

    ghost Value = { List ℕ };

    ghost view = { λ p. p.text.items ++ take p.used p.block };

    ghost invariant = { λ p. p.used ≤ 512 };
}

impl Printer {
    /// No text.
    pub fn new(alloc: Global) -> Printer
        ensures { result ≡ [] }
    {
        Printer {
            text: Vec::new(alloc),
            block: [0; 512],
            used: 0,
        }
    }

    /// Appends the first so many of these bytes. All are put, since a copy of a constant length is the fastest, and the
    /// next piece is written over those that don't count.
    #[inline(always)]
    pub fn piece(&mut self, bytes: &[u8], count: usize) -> Result<(), NoMemory>
        requires { (count ≤ length bytes.now) × (length bytes.now ≤ 31) }
        ensures { OnOk result (self.new ≡ self.old ++ take count bytes.now) }
    {
        let used = with_room(&mut self.text, &self.block, self.used)?;
        put(&mut self.block, used, bytes);
        self.used = used + count;
        Ok(())
    }

    /// Appends the first so many of these bytes as a word after another.
    #[inline(always)]
    pub fn word(&mut self, bytes: &[u8], count: usize) -> Result<(), NoMemory>
        requires { (count ≤ length bytes.now) × (length bytes.now ≤ 31) }
        ensures { OnOk result (self.new ≡ self.old ++ (codes " " ++ take count bytes.now)) }
    {
        let used = with_room(&mut self.text, &self.block, self.used)?;
        self.block[used] = b' ';
        put(&mut self.block, used + 1, bytes);
        self.used = used + 1 + count;
        Ok(())
    }

    /// Appends a number's digits.
    fn digits(&mut self, number: u64) -> Result<(), NoMemory>
        ensures { OnOk result (self.new ≡ self.old ++ decimal number) }
    {
        let mut buffer = Buffer::new();
        let digits = buffer.format(number).as_bytes();
        self.piece(digits, digits.len())
    }

    /// Appends a place of a type.
    pub fn at(&mut self, at: &At) -> Result<(), NoMemory>
        ensures { OnOk result (self.new ≡ self.old ++ at_text at.now) }
    {
        self.piece(at.name.padded(), at.name.len())?;
        if at.offset == 0 {
            return Ok(());
        }
        self.piece(b"+", 1)?;
        self.digits(at.offset)
    }

    /// Appends a name after another word.
    #[inline(always)]
    pub fn name(&mut self, name: &Name) -> Result<(), NoMemory>
        ensures { OnOk result (self.new ≡ self.old ++ spaced_words (name.now ∷ [])) }
    {
        self.word(name.padded(), name.len())
    }

    /// Appends a number after another word.
    #[inline(always)]
    pub fn number(&mut self, number: u64) -> Result<(), NoMemory>
        ensures { OnOk result (self.new ≡ self.old ++ spaced_words (decimal number ∷ [])) }
    {
        if number < 10 {
            return self.word(&[b'0' + number as u8], 1);
        }
        self.piece(b" ", 1)?;
        self.digits(number)
    }

    /// Appends a place of a type after another word.
    pub fn place(&mut self, at: &At) -> Result<(), NoMemory>
        ensures { OnOk result (self.new ≡ self.old ++ spaced_words (at_text at.now ∷ [])) }
    {
        self.piece(b" ", 1)?;
        self.at(at)
    }

    /// Appends the field of this many neighbouring numbers, if there are any.
    pub fn numbers(&mut self, count: u64) -> Result<(), NoMemory>
        ensures { OnOk result (self.new ≡ self.old ++ spaced_words (numbers_before count [])) }
    {
        match count {
            0 => Ok(()),
            1 => self.word(b"n", 1),
            _ => {
                self.word(b"n*", 2)?;
                self.digits(count)
            }
        }
    }

    /// The text.
    pub fn into_text(self) -> Result<Vec<u8>, NoMemory>
        ensures { IfOk result (λ text. text.items ≡ self) }
    {
        let Printer {
            mut text,
            block,
            used,
            ..
        } = self;
        text.extend_from_slice(&block[..used])?;
        Ok(text)
    }
}

/// Puts the bytes in their place.
#[inline(always)]
fn put(block: &mut [u8; 512], place: usize, bytes: &[u8])
    requires { place + length bytes.now ≤ 512 }
    ensures { take (place + length bytes.now) block.new ≡ take place block.old ++ bytes.now }
{
    block[place..place + bytes.len()].copy_from_slice(bytes);
}

/// Moves the bytes of the block to the text if a piece may have no room after them, and gives how many stay.
#[inline(always)]
fn with_room(text: &mut Vec<u8>, block: &[u8; 512], used: usize) -> Result<usize, NoMemory>
    requires { used ≤ 512 }
    ensures text { IfOk result (λ kept. text.new.items ++ take kept block.now ≡ text.old.items ++ take used block.now) }
    ensures room { IfOk result (λ kept. kept + 32 ≤ 512) }
{
    if used <= LAST_START {
        return Ok(used);
    }
    move_to(text, &block[..used])?;
    Ok(0)
}

/// Appends the bytes, which are many.
#[cold]
#[inline(never)]
fn move_to(text: &mut Vec<u8>, bytes: &[u8]) -> Result<(), NoMemory>
    ensures { OnOk result (text.new.items ≡ text.old.items ++ bytes.now) }
{
    text.extend_from_slice(bytes)?;
    Ok(())
}
