//! The words of events.
ghost use Rattle.std.specs.Prelude.{◌≡◌, ◌∷◌, [], map, ok_or};
ghost use Rattle.mk_script.specs.Grammar.{texts_of};
ghost use Rattle.mk_replay.specs.Forms as spec;
ghost use Rattle.mk_replay.specs.Forms.{form_of_number, form_of_numbers, word_of_number};

use crate::steps::NOTHING_TO_ENTER;
use mk_core::{Seat, Step, Tally, Word};
use mk_script::{TextKind, parse_number};

const PLAIN_FORMS: [(&[u8], Step); 25] = [
    (b"enter", Step::Enter(NOTHING_TO_ENTER)),
    (b"leave", Step::Leave),
    (b"reg", Step::Reg),
    (b"probe", Step::Probe),
    (b"read", Step::Read),
    (b"write", Step::Write),
    (b"cas", Step::Cas),
    (b"getg", Step::Getg),
    (b"setg", Step::Setg),
    (b"take", Step::Take(None)),
    (b"give", Step::Give),
    (b"grant", Step::Grant),
    (b"full", Step::Full),
    (b"begin", Step::Begin),
    (b"close", Step::Close),
    (b"release", Step::Release),
    (b"end", Step::End),
    (b"want", Step::Want),
    (b"dirty", Step::Dirty),
    (b"attend", Step::Attend),
    (b"quit", Step::Quit),
    (b"mload", Step::Mload),
    (b"mmark", Step::Mmark),
    (b"mblack", Step::Mblack),
    (b"over", Step::Over),
];

/// A form of one number.
#[derive(Clone, Copy)]
enum FormOfNumber {
    Hold,
    Open,
    Clear,
    Wipe,
    Undirty,
    Unblack,
}

const FORMS_OF_NUMBER: [(&[u8], FormOfNumber); 6] = [
    (b"hold", FormOfNumber::Hold),
    (b"open", FormOfNumber::Open),
    (b"clear", FormOfNumber::Clear),
    (b"wipe", FormOfNumber::Wipe),
    (b"undirty", FormOfNumber::Undirty),
    (b"unblack", FormOfNumber::Unblack),
];

/// A form of two numbers.
#[derive(Clone, Copy)]
enum FormOfNumbers {
    Head,
    Used,
    Quar,
    Mark,
    Black,
    Claim,
}

const FORMS_OF_NUMBERS: [(&[u8], FormOfNumbers); 6] = [
    (b"head", FormOfNumbers::Head),
    (b"used", FormOfNumbers::Used),
    (b"quar", FormOfNumbers::Quar),
    (b"mark", FormOfNumbers::Mark),
    (b"black", FormOfNumbers::Black),
    (b"claim", FormOfNumbers::Claim),
];

const TALLIES: [(&[u8], Tally); 5] = [
    (b"held", Tally::Held),
    (b"fresh", Tally::Fresh),
    (b"cycles", Tally::Cycles),
    (b"released", Tally::Released),
    (b"full", Tally::Full),
];

const PLAIN_WORDS: [(&[u8], Word); 6] = [
    (b"phase", Word::Phase),
    (b"held", Word::Held),
    (b"fresh", Word::Fresh),
    (b"cycles", Word::Cycles),
    (b"released", Word::Released),
    (b"full", Word::Full),
];

/// A word of the table with a number after its name.
#[derive(Clone, Copy)]
enum WordOfNumber {
    Gate,
    Global,
    Head,
    Used,
    Quar,
    Mark,
    Black,
    Dirty,
    Heap,
}

const WORDS_OF_NUMBER: [(&[u8], WordOfNumber); 9] = [
    (b"gate", WordOfNumber::Gate),
    (b"global", WordOfNumber::Global),
    (b"head", WordOfNumber::Head),
    (b"used", WordOfNumber::Used),
    (b"quar", WordOfNumber::Quar),
    (b"mark", WordOfNumber::Mark),
    (b"black", WordOfNumber::Black),
    (b"dirty", WordOfNumber::Dirty),
    (b"heap", WordOfNumber::Heap),
];

/// The form of an event, by its words.
pub(crate) fn form(words: &[&[u8]]) -> Result<Step, TextKind>
    ensures { result ≡ spec.form_of (texts_of words.now) }
{
    match words {
        [] => Err(TextKind::Word),
        [name] => listed(&PLAIN_FORMS, name),
        [name, operand] => one_operand(name, operand),
        [name, first, second] => two_operands(name, first, second),
        [name, operands @ ..] => look(name, operands),
    }
}

/// A seat, by its word.
pub(crate) fn seat(word: &[u8]) -> Result<Seat, TextKind>
    ensures { result ≡ spec.seat_of word.now }
{
    match word {
        [b'c', digits @ ..] => Ok(Seat::Caller(number(digits)?)),
        [b'm', digits @ ..] => Ok(Seat::Marker(number(digits)?)),
        [b'h'] => Ok(Seat::Host),
        _ => Err(TextKind::Word),
    }
}

fn number(word: &[u8]) -> Result<u64, TextKind>
    ensures { result ≡ spec.number word.now }
{
    parse_number(word).ok_or(TextKind::Number)
}

/// The value that the word is listed with.
fn listed<T: Copy>(table: &[(&[u8], T)], word: &[u8]) -> Result<T, TextKind>
    ensures { result
        ≡ ok_or (spec.value_among (map (λ entry. (entry.0.now, entry.1)) table.now) word.now) TextKind.Word }
{
    for (name, value) in table {
        if word == *name {
            return Ok(*value);
        }
    }
    Err(TextKind::Word)
}

/// An event of one word after its name.
fn one_operand(name: &[u8], operand: &[u8]) -> Result<Step, TextKind>
    ensures { result ≡ spec.one_operand name.now operand.now }
{
    match listed(&FORMS_OF_NUMBER, name) {
        Ok(form) => Ok(form.of(number(operand)?)),
        Err(_) => look(name, &[operand]),
    }
}

impl FormOfNumber {
    fn of(self, number: u64) -> Step
        ensures { result ≡ form_of_number self number }
    {
        match self {
            FormOfNumber::Hold => Step::Hold(number),
            FormOfNumber::Open => Step::Open(number),
            FormOfNumber::Clear => Step::Clear(number),
            FormOfNumber::Wipe => Step::Wipe(number),
            FormOfNumber::Undirty => Step::Undirty(number),
            FormOfNumber::Unblack => Step::Unblack(number),
        }
    }
}

/// An event of two words after its name.
fn two_operands(name: &[u8], first: &[u8], second: &[u8]) -> Result<Step, TextKind>
    ensures { result ≡ spec.two_operands name.now first.now second.now }
{
    if name == b"tally".as_slice() {
        return tally_form(first, second);
    }
    match listed(&FORMS_OF_NUMBERS, name) {
        Ok(form) => {
            let first = number(first)?;
            let second = number(second)?;
            Ok(form.of(first, second))
        }
        Err(_) => look(name, &[first, second]),
    }
}

impl FormOfNumbers {
    fn of(self, first: u64, second: u64) -> Step
        ensures { result ≡ form_of_numbers self first second }
    {
        match self {
            FormOfNumbers::Head => Step::Head {
                page: first,
                value: second,
            },
            FormOfNumbers::Used => Step::Used {
                page: first,
                value: second,
            },
            FormOfNumbers::Quar => Step::Quar {
                page: first,
                value: second,
            },
            FormOfNumbers::Mark => Step::Mark {
                page: first,
                value: second,
            },
            FormOfNumbers::Black => Step::Black {
                page: first,
                value: second,
            },
            FormOfNumbers::Claim => Step::Claim {
                page: first,
                cell: second,
            },
        }
    }
}

fn tally_form(name: &[u8], operand: &[u8]) -> Result<Step, TextKind>
    ensures { result ≡ spec.tally_form name.now operand.now }
{
    let tally = listed(&TALLIES, name)?;
    let value = number(operand)?;
    Ok(Step::Tally { tally, value })
}

/// An event that looks at a word of the table.
fn look(name: &[u8], operands: &[&[u8]]) -> Result<Step, TextKind>
    ensures { result ≡ spec.look_form name.now (texts_of operands.now) }
{
    if name == b"look".as_slice() {
        Ok(Step::Look(table_word(operands)?))
    } else if name == b"mlook".as_slice() {
        Ok(Step::Mlook(table_word(operands)?))
    } else {
        Err(TextKind::Word)
    }
}

/// A word of the table, by its words.
fn table_word(words: &[&[u8]]) -> Result<Word, TextKind>
    ensures { result ≡ spec.table_word (texts_of words.now) }
{
    match words {
        [name] => listed(&PLAIN_WORDS, name),
        [name, operand] => word_of_number(name, operand),
        [name, caller, register] => register_word(name, caller, register),
        _ => Err(TextKind::Word),
    }
}

fn register_word(name: &[u8], caller: &[u8], register: &[u8]) -> Result<Word, TextKind>
    ensures { result ≡ spec.table_word (name.now ∷ caller.now ∷ register.now ∷ []) }
{
    if name != b"reg".as_slice() {
        return Err(TextKind::Word);
    }
    let caller = number(caller)?;
    let register = number(register)?;
    Ok(Word::Reg { caller, register })
}

/// A word of the table with one number after its name.
fn word_of_number(name: &[u8], operand: &[u8]) -> Result<Word, TextKind>
    ensures { result ≡ spec.table_word (name.now ∷ operand.now ∷ []) }
{
    let word = listed(&WORDS_OF_NUMBER, name)?;
    Ok(word.of(number(operand)?))
}

impl WordOfNumber {
    fn of(self, number: u64) -> Word
        ensures { result ≡ word_of_number self number }
    {
        match self {
            WordOfNumber::Gate => Word::Gate(number),
            WordOfNumber::Global => Word::Global(number),
            WordOfNumber::Head => Word::Head(number),
            WordOfNumber::Used => Word::Used(number),
            WordOfNumber::Quar => Word::Quar(number),
            WordOfNumber::Mark => Word::Mark(number),
            WordOfNumber::Black => Word::Black(number),
            WordOfNumber::Dirty => Word::Dirty(number),
            WordOfNumber::Heap => Word::Heap(number),
        }
    }
}
