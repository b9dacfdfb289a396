//! The forms of a line, but for a type's, by its first word.
ghost use Rattle.std.specs.Prelude.{◌≡◌, ◌≢◌, [], ◌∷◌};
ghost use Rattle.mk_script.specs.{Operands.{item_from, says1, says2, says3, says5}, Grammar.texts_of};
ghost use Rattle.mk_script.specs.Operands as spec;

use crate::faults::{LineFault, WORD};
use crate::items::Item;
use crate::keywords::Keyword;
use crate::operands;

/// What a line says whose first word is the keyword, and whose others are these. A type's line is read
/// elsewhere, since its words need memory.
#[tactic(auto, unfolding(crate::specs::Operands::item_from))]
pub fn item(keyword: Keyword, words: &[&[u8]]) -> Result<Item, LineFault>
    requires { keyword ≢ Keyword.TypeLine }
    ensures { result ≡ item_from keyword (texts_of words.now) }
{
    match words {
        [] => with_none(keyword),
        [only] => with_one(keyword, only),
        [first, second] => with_two(keyword, first, second),
        [first, second, third] => with_three(keyword, first, second, third),
        [first, second, third, fourth, fifth] => with_five(
            keyword, first, second, third, fourth, fifth,
        ),
        _ => Err(WORD),
    }
}

#[inline(never)]
#[tactic(auto, unfolding(crate::specs::Operands::item_from))]
fn with_none(keyword: Keyword) -> Result<Item, LineFault>
    requires { keyword ≢ Keyword.TypeLine }
    ensures { result ≡ item_from keyword [] }
{
    match keyword {
        Keyword::Else => Ok(Item::Else),
        Keyword::End => Ok(Item::End),
        _ => Err(WORD),
    }
}

#[inline(never)]
#[tactic(auto, unfolding(crate::specs::Operands::item_from))]
fn with_one(keyword: Keyword, only: &[u8]) -> Result<Item, LineFault>
    requires { keyword ≢ Keyword.TypeLine }
    ensures { result ≡ item_from keyword (only.now ∷ []) }
{
    match keyword {
        Keyword::Script => script(only),
        Keyword::Num => num(only),
        Keyword::Free => free(only),
        Keyword::Clear => clear(only),
        Keyword::Show => show(only),
        Keyword::Print => print(only),
        Keyword::Repeat => repeat(only),
        Keyword::If => condition(only),
        _ => Err(WORD),
    }
}

#[inline(never)]
#[tactic(auto, unfolding(crate::specs::Operands::item_from))]
fn with_two(keyword: Keyword, first: &[u8], second: &[u8]) -> Result<Item, LineFault>
    requires { keyword ≢ Keyword.TypeLine }
    ensures { result ≡ item_from keyword (first.now ∷ second.now ∷ []) }
{
    match keyword {
        Keyword::Heap => heap(first, second),
        Keyword::Global => global(first, second),
        Keyword::Ptr => ptr(first, second),
        Keyword::New => new(first, second),
        Keyword::Move => copy(first, second),
        Keyword::Loadg => loadg(first, second),
        Keyword::Storeg => storeg(first, second),
        Keyword::Isnull => isnull(first, second),
        Keyword::Const => constant(first, second),
        _ => Err(WORD),
    }
}

#[inline(never)]
#[tactic(auto, unfolding(crate::specs::Operands::item_from))]
fn with_three(
    keyword: Keyword,
    first: &[u8],
    second: &[u8],
    third: &[u8],
) -> Result<Item, LineFault>
    requires { keyword ≢ Keyword.TypeLine }
    ensures { result ≡ item_from keyword (first.now ∷ second.now ∷ third.now ∷ []) }
{
    match keyword {
        Keyword::Getn => getn(first, second, third),
        Keyword::Setn => setn(first, second, third),
        Keyword::Getp => getp(first, second, third),
        Keyword::Setp => setp(first, second, third),
        Keyword::Lea => lea(first, second, third),
        Keyword::Same => same(first, second, third),
        Keyword::Add => add(first, second, third),
        Keyword::Sub => sub(first, second, third),
        _ => Err(WORD),
    }
}

#[inline(never)]
#[tactic(auto, unfolding(crate::specs::Operands::item_from))]
fn with_five(
    keyword: Keyword,
    first: &[u8],
    second: &[u8],
    third: &[u8],
    fourth: &[u8],
    fifth: &[u8],
) -> Result<Item, LineFault>
    requires { keyword ≢ Keyword.TypeLine }
    ensures { result ≡ item_from keyword (first.now ∷ second.now ∷ third.now ∷ fourth.now ∷ fifth.now ∷ []) }
{
    match keyword {
        Keyword::Casp => casp(first, second, third, fourth, fifth),
        _ => Err(WORD),
    }
}

/// Line 1, after its first word.
pub fn heap(pages: &[u8], resident: &[u8]) -> Result<Item, LineFault>
    ensures { result ≡ says2 (λ pages resident. Item.Heap pages resident)
        (spec.number pages.now) (spec.number resident.now) }
{
    let pages = operands::number(pages)?;
    let resident = operands::number(resident)?;
    Ok(Item::Heap { pages, resident })
}

fn global(name: &[u8], ty: &[u8]) -> Result<Item, LineFault>
    ensures { result ≡ says2 (λ name' ty. Item.Global name' ty) (spec.name name.now) (spec.name ty.now) }
{
    let name = operands::name(name)?;
    let ty = operands::name(ty)?;
    Ok(Item::Global { name, ty })
}

fn script(name: &[u8]) -> Result<Item, LineFault>
    ensures { result ≡ says1 (λ name'. Item.Script name') (spec.name name.now) }
{
    let name = operands::name(name)?;
    Ok(Item::Script { name })
}

fn ptr(name: &[u8], at: &[u8]) -> Result<Item, LineFault>
    ensures { result ≡ says2 (λ name' at'. Item.Ptr name' at') (spec.name name.now) (spec.at at.now) }
{
    let name = operands::name(name)?;
    let at = operands::at(at)?;
    Ok(Item::Ptr { name, at })
}

fn num(name: &[u8]) -> Result<Item, LineFault>
    ensures { result ≡ says1 (λ name'. Item.Num name') (spec.name name.now) }
{
    let name = operands::name(name)?;
    Ok(Item::Num { name })
}

fn new(pointer: &[u8], ty: &[u8]) -> Result<Item, LineFault>
    ensures { result ≡ says2 (λ pointer ty. Item.New pointer ty) (spec.name pointer.now) (spec.name ty.now) }
{
    let pointer = operands::name(pointer)?;
    let ty = operands::name(ty)?;
    Ok(Item::New { pointer, ty })
}

fn free(pointer: &[u8]) -> Result<Item, LineFault>
    ensures { result ≡ says1 (λ pointer. Item.Free pointer) (spec.name pointer.now) }
{
    let pointer = operands::name(pointer)?;
    Ok(Item::Free { pointer })
}

fn getn(number: &[u8], pointer: &[u8], index: &[u8]) -> Result<Item, LineFault>
    ensures { result ≡ says3 (λ number' pointer index. Item.Getn number' pointer index)
        (spec.name number.now) (spec.name pointer.now) (spec.number index.now) }
{
    let number = operands::name(number)?;
    let pointer = operands::name(pointer)?;
    let index = operands::number(index)?;
    Ok(Item::Getn {
        number,
        pointer,
        index,
    })
}

fn setn(pointer: &[u8], index: &[u8], number: &[u8]) -> Result<Item, LineFault>
    ensures { result ≡ says3 (λ pointer index number'. Item.Setn pointer index number')
        (spec.name pointer.now) (spec.number index.now) (spec.name number.now) }
{
    let pointer = operands::name(pointer)?;
    let index = operands::number(index)?;
    let number = operands::name(number)?;
    Ok(Item::Setn {
        pointer,
        index,
        number,
    })
}

fn getp(loaded: &[u8], pointer: &[u8], index: &[u8]) -> Result<Item, LineFault>
    ensures { result ≡ says3 (λ loaded pointer index. Item.Getp loaded pointer index)
        (spec.name loaded.now) (spec.name pointer.now) (spec.number index.now) }
{
    let loaded = operands::name(loaded)?;
    let pointer = operands::name(pointer)?;
    let index = operands::number(index)?;
    Ok(Item::Getp {
        loaded,
        pointer,
        index,
    })
}

fn setp(pointer: &[u8], index: &[u8], stored: &[u8]) -> Result<Item, LineFault>
    ensures { result ≡ says3 (λ pointer index stored. Item.Setp pointer index stored)
        (spec.name pointer.now) (spec.number index.now) (spec.name stored.now) }
{
    let pointer = operands::name(pointer)?;
    let index = operands::number(index)?;
    let stored = operands::name(stored)?;
    Ok(Item::Setp {
        pointer,
        index,
        stored,
    })
}

fn casp(
    number: &[u8],
    pointer: &[u8],
    index: &[u8],
    expected: &[u8],
    stored: &[u8],
) -> Result<Item, LineFault>
    ensures { result ≡ says5 (λ number' pointer index expected stored. Item.Casp number' pointer index expected stored)
        (spec.name number.now) (spec.name pointer.now) (spec.number index.now)
        (spec.name expected.now) (spec.name stored.now) }
{
    let number = operands::name(number)?;
    let pointer = operands::name(pointer)?;
    let index = operands::number(index)?;
    let expected = operands::name(expected)?;
    let stored = operands::name(stored)?;
    Ok(Item::Casp {
        number,
        pointer,
        index,
        expected,
        stored,
    })
}

fn lea(moved: &[u8], pointer: &[u8], index: &[u8]) -> Result<Item, LineFault>
    ensures { result ≡ says3 (λ moved pointer index. Item.Lea moved pointer index)
        (spec.name moved.now) (spec.name pointer.now) (spec.number index.now) }
{
    let moved = operands::name(moved)?;
    let pointer = operands::name(pointer)?;
    let index = operands::number(index)?;
    Ok(Item::Lea {
        moved,
        pointer,
        index,
    })
}

fn copy(copied: &[u8], pointer: &[u8]) -> Result<Item, LineFault>
    ensures { result ≡ says2 (λ copied pointer. Item.Move copied pointer)
        (spec.name copied.now) (spec.name pointer.now) }
{
    let copied = operands::name(copied)?;
    let pointer = operands::name(pointer)?;
    Ok(Item::Move { copied, pointer })
}

fn clear(pointer: &[u8]) -> Result<Item, LineFault>
    ensures { result ≡ says1 (λ pointer. Item.Clear pointer) (spec.name pointer.now) }
{
    let pointer = operands::name(pointer)?;
    Ok(Item::Clear { pointer })
}

fn loadg(loaded: &[u8], global: &[u8]) -> Result<Item, LineFault>
    ensures { result ≡ says2 (λ loaded global. Item.Loadg loaded global)
        (spec.name loaded.now) (spec.name global.now) }
{
    let loaded = operands::name(loaded)?;
    let global = operands::name(global)?;
    Ok(Item::Loadg { loaded, global })
}

fn storeg(stored: &[u8], global: &[u8]) -> Result<Item, LineFault>
    ensures { result ≡ says2 (λ stored global. Item.Storeg stored global)
        (spec.name stored.now) (spec.name global.now) }
{
    let stored = operands::name(stored)?;
    let global = operands::name(global)?;
    Ok(Item::Storeg { stored, global })
}

fn same(number: &[u8], first: &[u8], second: &[u8]) -> Result<Item, LineFault>
    ensures { result ≡ says3 (λ number' first second. Item.Same number' first second)
        (spec.name number.now) (spec.name first.now) (spec.name second.now) }
{
    let number = operands::name(number)?;
    let first = operands::name(first)?;
    let second = operands::name(second)?;
    Ok(Item::Same {
        number,
        first,
        second,
    })
}

fn isnull(number: &[u8], pointer: &[u8]) -> Result<Item, LineFault>
    ensures { result ≡ says2 (λ number' pointer. Item.Isnull number' pointer)
        (spec.name number.now) (spec.name pointer.now) }
{
    let number = operands::name(number)?;
    let pointer = operands::name(pointer)?;
    Ok(Item::Isnull { number, pointer })
}

fn show(pointer: &[u8]) -> Result<Item, LineFault>
    ensures { result ≡ says1 (λ pointer. Item.Show pointer) (spec.name pointer.now) }
{
    let pointer = operands::name(pointer)?;
    Ok(Item::Show { pointer })
}

fn constant(number: &[u8], value: &[u8]) -> Result<Item, LineFault>
    ensures { result ≡ says2 (λ number' value. Item.Const number' value)
        (spec.name number.now) (spec.number value.now) }
{
    let number = operands::name(number)?;
    let value = operands::number(value)?;
    Ok(Item::Const { number, value })
}

fn add(number: &[u8], left: &[u8], right: &[u8]) -> Result<Item, LineFault>
    ensures { result ≡ says3 (λ number' left right. Item.Add number' left right)
        (spec.name number.now) (spec.name left.now) (spec.name right.now) }
{
    let number = operands::name(number)?;
    let left = operands::name(left)?;
    let right = operands::name(right)?;
    Ok(Item::Add {
        number,
        left,
        right,
    })
}

fn sub(number: &[u8], left: &[u8], right: &[u8]) -> Result<Item, LineFault>
    ensures { result ≡ says3 (λ number' left right. Item.Sub number' left right)
        (spec.name number.now) (spec.name left.now) (spec.name right.now) }
{
    let number = operands::name(number)?;
    let left = operands::name(left)?;
    let right = operands::name(right)?;
    Ok(Item::Sub {
        number,
        left,
        right,
    })
}

fn print(number: &[u8]) -> Result<Item, LineFault>
    ensures { result ≡ says1 (λ number'. Item.Print number') (spec.name number.now) }
{
    let number = operands::name(number)?;
    Ok(Item::Print { number })
}

fn repeat(rounds: &[u8]) -> Result<Item, LineFault>
    ensures { result ≡ says1 (λ rounds. Item.Repeat rounds) (spec.number rounds.now) }
{
    let rounds = operands::number(rounds)?;
    Ok(Item::Repeat { rounds })
}

fn condition(number: &[u8]) -> Result<Item, LineFault>
    ensures { result ≡ says1 (λ number'. Item.If number') (spec.name number.now) }
{
    let number = operands::name(number)?;
    Ok(Item::If { number })
}
