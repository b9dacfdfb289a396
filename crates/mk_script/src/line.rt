//! One line, after others.
ghost use Rattle.std.specs.Prelude.{◌≡◌, ◌-◌, ◌^◌, ◌∷◌, length, min, true, Some};
ghost use Rattle.mk_script.specs.{Lines.{checked_item, placed_item, line_of}, Operands.fields_of};
ghost use Rattle.mk_script.specs.{Lines.{IsScopeOf, Reads}, Grammar.{checked_behind, texts_of}};
ghost use Rattle.mk_script.specs.Lines as spec;

use crate::faults::{LineFault, LineStop, TextKind, WORD};
use crate::fields::{type_words, word_count};
use crate::forms;
use crate::items::Item;
use crate::keywords::Keyword;
use crate::names::Name;
use crate::operands::name;
use crate::scope::Scope;
use crate::taking::take;
use std::alloc::Global;

/// Takes a line of these words after those of the scope.
pub fn take_line(
    alloc: Global,
    scope: &mut Scope,
    items: &mut Vec<Item>,
    words: &[&[u8]],
) -> Result<(), LineStop>
    ensures { IsScopeOf scope.old items.old.items → Reads items.old.items
        (line_of items.old.items (texts_of words.now)) result items.new.items scope.new }
{
    if scope.has_header() {
        other_line(alloc, scope, items, words)
    } else {
        header_line(scope, items, words)
    }
}

/// Takes line 1. It stands apart, so that the lines after it aren't slowed by its item.
#[inline(never)]
fn header_line(scope: &mut Scope, items: &mut Vec<Item>, words: &[&[u8]]) -> Result<(), LineStop>
    ensures { IsScopeOf scope.old items.old.items → Reads items.old.items
        (checked_behind items.old.items (spec.heap_line (texts_of words.now))) result items.new.items scope.new }
{
    take(scope, items, header(words))
}

/// Line 1.
#[tactic(auto, unfolding(crate::specs::Operands::item_from))]
fn header(words: &[&[u8]]) -> Result<Item, LineFault>
    ensures { result ≡ spec.heap_line (texts_of words.now) }
{
    let [word, pages, resident] = words else {
        return Err(LineFault::Text(TextKind::Header));
    };
    if *word != b"heap".as_slice() {
        return Err(LineFault::Text(TextKind::Header));
    }
    forms::heap(pages, resident)
}

fn other_line(
    alloc: Global,
    scope: &mut Scope,
    items: &mut Vec<Item>,
    words: &[&[u8]],
) -> Result<(), LineStop>
    ensures { IsScopeOf scope.old items.old.items → Reads items.old.items
        (checked_behind items.old.items (spec.other_line items.old.items (texts_of words.now))) result
        items.new.items scope.new }
{
    let [word, operands @ ..] = words else {
        return Err(LineStop::Fault(WORD));
    };
    let keyword = Keyword::of(word).ok_or(WORD)?;
    placed_line(alloc, scope, items, keyword, operands)
}

/// A line of the form, where one may stand.
fn placed_line(
    alloc: Global,
    scope: &mut Scope,
    items: &mut Vec<Item>,
    keyword: Keyword,
    operands: &[&[u8]],
) -> Result<(), LineStop>
    ensures { IsScopeOf scope.old items.old.items → Reads items.old.items
        (checked_behind items.old.items (placed_item items.old.items (Some keyword) (texts_of operands.now))) result
        items.new.items scope.new }
{
    if !scope.is_placed(keyword) {
        return Err(LineStop::Fault(WORD));
    }
    if keyword != Keyword::TypeLine {
        return take(scope, items, forms::item(keyword, operands));
    }
    match operands {
        [] => Err(LineStop::Fault(WORD)),
        [word, fields @ ..] => type_line(alloc, scope, items, word, fields),
    }
}

/// A type's line, in its place.
#[inline(never)]
fn type_line(
    alloc: Global,
    scope: &mut Scope,
    items: &mut Vec<Item>,
    word: &[u8],
    fields: &[&[u8]],
) -> Result<(), LineStop>
    ensures { IsScopeOf scope.old items.old.items
        → spec.is_placed items.old.items Keyword.TypeLine ≡ true
        → Reads items.old.items (checked_behind items.old.items (placed_item items.old.items (Some Keyword.TypeLine)
        (word.now ∷ texts_of fields.now))) result items.new.items scope.new }
{
    if fields.is_empty() {
        return Err(LineStop::Fault(WORD));
    }
    let count = word_count(fields).ok_or(WORD)?;
    let name = name(word)?;
    checked_type(alloc, scope, items, name, fields, count)
}

/// The type, where it may stand next. Its words are made once their number is known to be small.
fn checked_type(
    alloc: Global,
    scope: &mut Scope,
    items: &mut Vec<Item>,
    name: Name,
    fields: &[&[u8]],
    count: u64,
) -> Result<(), LineStop>
    requires { count ≡ min (length (fields_of (texts_of fields.now))) (2 ^ 64 - 1) }
    ensures { IsScopeOf scope.old items.old.items → Reads items.old.items
        (checked_item items.old.items (Item.TypeLine name (fields_of (texts_of fields.now)))) result
        items.new.items scope.new }
{
    if scope.has_type(&name) {
        return Err(LineStop::Fault(LineFault::Text(TextKind::Twice)));
    }
    if let Some(fault) = scope.type_limit_fault(count) {
        return Err(LineStop::Fault(fault));
    }
    let words = type_words(alloc, fields)?;
    take(scope, items, Ok(Item::TypeLine { name, words }))
}
