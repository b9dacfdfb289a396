//! The fields of a type's line.
ghost use Rattle.std.specs.Prelude.{◌≡◌, ◌↔◌, ◌++◌, ◌-◌, ◌^◌, min, [], ◌∷◌, length, replicate, option_map};
ghost use Rattle.std.specs.{Prelude.{option_and_then, false, IsNone, IfSome, IfOk, OnOk}, Result.result_ok};
ghost use Rattle.mk_script.specs.Operands.{number_of_word, field_of, are_fields, fields_of};
ghost use Rattle.mk_script.specs.{Fields.words_of_field, Grammar.texts_of};
ghost use Rattle.mk_script.specs.Operands as spec;

use crate::items::{At, TypeWord, TypeWords};
use crate::numbers::parse_number;
use crate::operands::at;
use std::alloc::{AllocError, Global};

/// The words that a field stands for: this many numbers, or a pointer.
#[derive(Drop)]
pub enum Field {
    Numbers(u64),
    Pointer(At),
}

impl Field {
    /// What the word says where a field stands: `n`, `n*K` or `p:AT`.
    pub fn of(word: &[u8]) -> Option<Field>
        ensures { option_map words_of_field result ≡ field_of word.now }
    {
        match word {
            [b'n'] => Some(Field::Numbers(1)),
            [b'n', b'*', digits @ ..] => numbers(digits),
            [b'p', b':', place @ ..] => pointer(place),
            _ => None,
        }
    }

    fn word_count(&self) -> u64
        ensures { result ≡ length (words_of_field self.now) }
    {
        match self {
            Field::Numbers(count) => *count,
            Field::Pointer(_) => 1,
        }
    }

    fn push_words(self, words: &mut Vec<TypeWord>) -> Result<(), AllocError>
        ensures { OnOk result (words.new.items ≡ words.old.items ++ words_of_field self) }
    {
        match self {
            Field::Numbers(count) => push_numbers(words, count),
            Field::Pointer(at) => Ok(words.push(TypeWord::Pointer(at))?),
        }
    }
}

fn numbers(digits: &[u8]) -> Option<Field>
    ensures { option_map words_of_field result ≡ option_and_then spec.numbers (number_of_word digits.now) }
{
    let count = parse_number(digits)?;
    if count == 0 {
        return None;
    }
    Some(Field::Numbers(count))
}

fn pointer(place: &[u8]) -> Option<Field>
    ensures { option_map words_of_field result
        ≡ option_map (λ a. TypeWord.Pointer a ∷ []) (result_ok (spec.at place.now)) }
{
    Some(Field::Pointer(at(place).ok()?))
}

fn push_numbers(words: &mut Vec<TypeWord>, count: u64) -> Result<(), AllocError>
    ensures { OnOk result (words.new.items ≡ words.old.items ++ replicate count TypeWord.Number) }
{
    for _ in 0..count {
        words.push(TypeWord::Number)?;
    }
    Ok(())
}

/// How many words the fields stand for, or 2^64 - 1 where they are more; nothing where one of them
/// isn't of a field's form.
pub fn word_count(fields: &[&[u8]]) -> Option<u64>
    ensures formless { IsNone result ↔ (are_fields (texts_of fields.now) ≡ false) }
    ensures count { IfSome result (λ count. count ≡ min (length (fields_of (texts_of fields.now))) (2 ^ 64 - 1)) }
{
    let mut count: u64 = 0;
    for word in fields {
        let field = Field::of(word)?;
        count = count.saturating_add(field.word_count());
    }
    Some(count)
}

/// The words of the fields, one by one. Whoever calls it checks their number first.
pub fn type_words(alloc: Global, fields: &[&[u8]]) -> Result<TypeWords, AllocError>
    ensures { IfOk result (λ words. words ≡ fields_of (texts_of fields.now)) }
{
    let mut words = Vec::new(alloc);
    for word in fields {
        if let Some(field) = Field::of(word) {
            field.push_words(&mut words)?;
        }
    }
    Ok(TypeWords::from_vec(words))
}
