//! What a word says in its place on a line.
ghost use Rattle.std.specs.{Prelude.{◌≡◌, false, MatchOption, position}, List.list_any};
ghost use Rattle.mk_script.specs.Operands.{is_plus, IsCutAtPlus};
ghost use Rattle.mk_script.specs.Operands as spec;

use crate::faults::{LineFault, TextKind};
use crate::items::At;
use crate::names::Name;
use crate::numbers::parse_number;

/// The number that stands in a number's place.
pub fn number(word: &[u8]) -> Result<u64, LineFault>
    ensures { result ≡ spec.number word.now }
{
    parse_number(word).ok_or(LineFault::Text(TextKind::Number))
}

/// The name that stands in a name's place.
pub fn name(word: &[u8]) -> Result<Name, LineFault>
    ensures { result ≡ spec.name word.now }
{
    Name::from_word(word).ok_or(LineFault::Text(TextKind::Name))
}

/// Where a pointer points: `T` or `T+K`.
pub fn at(word: &[u8]) -> Result<At, LineFault>
    ensures { result ≡ spec.at word.now }
{
    let Some((ty, offset)) = split_at_plus(word) else {
        let name = name(word)?;
        return Ok(At { name, offset: 0 });
    };
    let name = name(ty)?;
    let offset = number(offset)?;
    Ok(At { name, offset })
}

/// What stands before the first `+`, and what after it.
fn split_at_plus(word: &[u8]) -> Option<(&[u8], &[u8])>
    ensures { MatchOption result (list_any is_plus word.now ≡ false)
        (λ parts. IsCutAtPlus word.now parts.0.now parts.1.now) }
{
    let plus = place_of_plus(word)?;
    Some((&word[..plus], &word[plus + 1..]))
}

fn place_of_plus(word: &[u8]) -> Option<usize>
    ensures { result ≡ position is_plus word.now }
{
    word.iter().position(|byte| *byte == b'+')
}
