//! What callers put into an object that they share, a stack or a queue, and what they took out of it.

use std::alloc::{AllocError, Global};

/// A job that puts a number in or takes one out, and what becomes of it.
#[derive(Clone, Copy, PartialEq, Eq)]
pub enum Move {
    Put(u64),
    /// There is no room for the number.
    Full(u64),
    Taken(u64),
    /// There is nothing to take out.
    Empty,
}

/// The move that a word stands for: `+7` puts 7 in, `+7!` has no room for it, `-7` takes it out, `-` finds nothing.
fn move_of(word: &str) -> Option<Move> {
    if let Some(digits) = word.strip_prefix('+') {
        return match digits.strip_suffix('!') {
            Some(digits) => Some(Move::Full(digits.parse().ok()?)),
            None => Some(Move::Put(digits.parse().ok()?)),
        };
    }
    match word.strip_prefix('-')? {
        "" => Some(Move::Empty),
        digits => Some(Move::Taken(digits.parse().ok()?)),
    }
}

/// The moves of one caller alone that a row says, after its name.
pub fn moves_of(alloc: Global, row: &str) -> Option<Vec<Move>> {
    let (_name, words) = row.split_once(" | ")?;
    let mut moves = Vec::new(alloc);
    for word in words.split(' ') {
        moves.push(move_of(word)?).ok()?;
    }
    Some(moves)
}

/// The numbers that a caller put in, and those that it took out, each in order.
#[derive(Drop)]
pub struct Moved {
    pub put: Vec<u64>,
    pub taken: Vec<u64>,
}

/// What these moves put in and took out.
pub fn parted(alloc: Global, moves: &[Move]) -> Result<Moved, AllocError> {
    let mut put = Vec::new(alloc);
    let mut taken = Vec::new(alloc);
    for it in moves {
        match *it {
            Move::Put(number) => put.push(number)?,
            Move::Taken(number) => taken.push(number)?,
            Move::Full(_) | Move::Empty => {}
        }
    }
    Ok(Moved { put, taken })
}
