//! Rules for lines: what is wrong with each.
ghost use Rattle.std.specs.Prelude.{◌≡◌, ℕ, false, List, Some, is_some, option_map};
ghost use Rattle.std.specs.Option.{option_copied, option_or};
ghost use Rattle.mk_script.specs.{declared.items.Item.Item, Scopes.is_script};
ghost use Rattle.mk_script.specs.Scopes.{is_declaration, is_number_access, is_pointer_access, is_pointer_line};
ghost use Rattle.mk_script.specs.Scopes.{is_number_line};
ghost use Rattle.mk_check.specs.Typing.{around, at_of, fault_of_sort};
ghost use Rattle.mk_check.specs.Typing as rule;
ghost use Rattle.mk_check.specs.declared.typing_faults.TypeKind.TheVariants as kind;

use crate::TypeKind;
use crate::lookups::Lookups;
use crate::places::{Place, pointed_place};
use mk_script::{At, Item, Name, TypeWord};

/// This fault, if it doesn't hold.
pub fn unless(holds: bool, kind: TypeKind) -> Option<TypeKind>
    ensures { result ≡ rule.unless holds kind }
{
    if holds { None } else { Some(kind) }
}

fn kind_fault(first: Option<Place>, second: Option<Place>) -> Option<TypeKind>
    ensures { result ≡ rule.kind_fault (option_map at_of first.entry) (option_map at_of second.entry) }
{
    match (first, second) {
        (Some(first), Some(second)) => unless(first.is(second), TypeKind::Kind),
        _ => Some(TypeKind::Kind),
    }
}

/// A word that is inside its type.
fn offset_fault(word: Option<&TypeWord>) -> Option<TypeKind>
    ensures { result ≡ rule.unless (is_some (option_copied word.entry)) kind.Offset }
{
    unless(word.is_some(), TypeKind::Offset)
}

/// A word inside its type that is a number.
fn number_word_fault(word: Option<&TypeWord>) -> Option<TypeKind>
    ensures { result ≡ option_or (rule.unless (is_some (option_copied word.entry)) kind.Offset)
        (rule.unless (rule.is_number_word (option_copied word.entry)) kind.Kind) }
{
    offset_fault(word).or(unless(matches!(word, Some(TypeWord::Number)), TypeKind::Kind))
}

/// A pointer register that is declared.
fn register_fault(at: Option<&At>) -> Option<TypeKind>
    ensures { result ≡ rule.unless (is_some (option_copied at.entry)) kind.NoRegister }
{
    unless(at.is_some(), TypeKind::NoRegister)
}

/// The place where a register is declared to point.
fn place_of(at: Option<&At>) -> Option<Place<'_>>
    ensures { option_map at_of result ≡ option_copied at.entry }
{
    Some(Place::new(at?))
}

/// The place this many words after it.
fn place_behind(at: Option<&At>, index: u64) -> Option<Place<'_>>
    ensures { option_map at_of result ≡ option_map (rule.moved_by index) (option_copied at.entry) }
{
    Some(Place::behind(at?, index))
}

/// A global that is declared, by its type.
fn global_fault(ty: Option<&Name>) -> Option<TypeKind>
    ensures { result ≡ rule.unless (is_some (option_copied ty.entry)) kind.NoGlobal }
{
    unless(ty.is_some(), TypeKind::NoGlobal)
}

/// The first word of this type.
fn base_of(ty: Option<&Name>) -> Option<Place<'_>>
    ensures { option_map at_of result ≡ option_map rule.base_of (option_copied ty.entry) }
{
    Some(Place::base(ty?))
}

/// A register that is declared for an object's first word.
fn base_fault(at: Option<&At>) -> Option<TypeKind>
    ensures { result ≡ rule.unless (rule.is_base (option_copied at.entry)) kind.InteriorFree }
{
    unless(
        matches!(at, Some(at) if at.offset == 0),
        TypeKind::InteriorFree,
    )
}

/// A word inside its type that is a pointer to where a register is declared to point.
fn pointer_word_fault(word: Option<&TypeWord>, at: Option<&At>) -> Option<TypeKind>
    ensures { result ≡ option_or (rule.unless (is_some (option_copied word.entry)) kind.Offset)
        (rule.kind_fault (rule.pointed_place (option_copied word.entry)) (option_copied at.entry)) }
{
    offset_fault(word).or(kind_fault(pointed_place(word), place_of(at)))
}

impl<'d, 'a> Lookups<'d, 'a> {
    fn type_fault(&self, name: &Name) -> Option<TypeKind>
        ensures { result ≡ rule.type_fault (around self.now) name.now }
    {
        unless(self.type_words(name).is_some(), TypeKind::NoType)
    }

    fn pointer_fault(&self, name: &Name) -> Option<TypeKind>
        ensures { result ≡ rule.pointer_fault (around self.now) name.now }
    {
        unless(self.pointer_at(name).is_some(), TypeKind::NoRegister)
    }

    fn number_fault(&self, name: &Name) -> Option<TypeKind>
        ensures { result ≡ rule.number_fault (around self.now) name.now }
    {
        unless(self.has_number(name), TypeKind::NoRegister)
    }

    fn word_at(&self, place: Place) -> Option<&'a TypeWord>
        ensures { option_copied result ≡ rule.type_word_at (around self.now) (Some (at_of place.entry)) }
    {
        let words = self.type_words(place.name)?;
        if place.offset < words.len() as u128 {
            Some(&words[place.offset as usize])
        } else {
            None
        }
    }

    /// The word this many words after where a register is declared to point.
    fn word_behind(&self, at: Option<&At>, index: u64) -> Option<&'a TypeWord>
        ensures { option_copied result ≡ rule.type_word_at (around self.now)
            (option_map (rule.moved_by index) (option_copied at.entry)) }
    {
        self.word_at(place_behind(at, index)?)
    }

    /// A word inside its type.
    fn inside_fault(&self, at: &At) -> Option<TypeKind>
        ensures { result ≡ rule.inside_fault (around self.now) (Some at.now) }
    {
        unless(self.word_at(Place::new(at)).is_some(), TypeKind::Offset)
    }

    fn pointers_fault(&self, words: &[TypeWord]) -> Option<TypeKind>
        ensures { result ≡ rule.words_fault (λ at. rule.type_fault (around self.now) at.name) words.now }
    {
        for word in words {
            let TypeWord::Pointer(at) = word else {
                continue;
            };
            if let Some(kind) = self.type_fault(&at.name) {
                return Some(kind);
            }
        }
        None
    }

    fn offsets_fault(&self, words: &[TypeWord]) -> Option<TypeKind>
        ensures { result ≡ rule.words_fault (λ at. rule.inside_fault (around self.now) (Some at)) words.now }
    {
        for word in words {
            let TypeWord::Pointer(at) = word else {
                continue;
            };
            if let Some(kind) = self.inside_fault(at) {
                return Some(kind);
            }
        }
        None
    }

    fn declaration_fault(&self, item: &Item) -> Option<TypeKind>
        ensures { result ≡ fault_of_sort is_declaration (around self.now) item.now }
    {
        match item {
            Item::TypeLine { words, .. } => self
                .pointers_fault(words.as_slice())
                .or(self.offsets_fault(words.as_slice())),
            Item::Global { ty, .. } => self.type_fault(ty),
            Item::Ptr { at, .. } => self.type_fault(&at.name).or(self.inside_fault(at)),
            _ => None,
        }
    }

    fn number_access_fault(&self, item: &Item) -> Option<TypeKind>
        ensures { result ≡ fault_of_sort is_number_access (around self.now) item.now }
    {
        match item {
            Item::Getn {
                number,
                pointer,
                index,
            } => {
                let at = self.pointer_at(pointer);
                self.number_fault(number)
                    .or(register_fault(at))
                    .or(number_word_fault(self.word_behind(at, *index)))
            }
            Item::Setn {
                pointer,
                index,
                number,
            } => {
                let at = self.pointer_at(pointer);
                register_fault(at)
                    .or(self.number_fault(number))
                    .or(number_word_fault(self.word_behind(at, *index)))
            }
            _ => None,
        }
    }

    #[tactic(auto, using(crate::proofs::RuleLemmas::offset_once))]
    fn pointer_access_fault(&self, item: &Item) -> Option<TypeKind>
        ensures { result ≡ fault_of_sort is_pointer_access (around self.now) item.now }
    {
        match item {
            Item::Getp {
                loaded,
                pointer,
                index,
            } => {
                let loaded = self.pointer_at(loaded);
                let at = self.pointer_at(pointer);
                register_fault(loaded)
                    .or(register_fault(at))
                    .or(pointer_word_fault(self.word_behind(at, *index), loaded))
            }
            Item::Setp {
                pointer,
                index,
                stored,
            } => {
                let at = self.pointer_at(pointer);
                let stored = self.pointer_at(stored);
                register_fault(at)
                    .or(register_fault(stored))
                    .or(pointer_word_fault(self.word_behind(at, *index), stored))
            }
            Item::Casp {
                number,
                pointer,
                index,
                expected,
                stored,
            } => {
                let at = self.pointer_at(pointer);
                let word = self.word_behind(at, *index);
                let expected = self.pointer_at(expected);
                let stored = self.pointer_at(stored);
                self.number_fault(number)
                    .or(register_fault(at))
                    .or(register_fault(expected))
                    .or(register_fault(stored))
                    .or(pointer_word_fault(word, expected))
                    .or(pointer_word_fault(word, stored))
            }
            _ => None,
        }
    }

    fn pointer_line_fault(&self, item: &Item) -> Option<TypeKind>
        ensures { result ≡ fault_of_sort is_pointer_line (around self.now) item.now }
    {
        match item {
            Item::New { pointer, ty } => {
                let at = self.pointer_at(pointer);
                register_fault(at)
                    .or(self.type_fault(ty))
                    .or(kind_fault(place_of(at), Some(Place::base(ty))))
            }
            Item::Free { pointer } => {
                let at = self.pointer_at(pointer);
                register_fault(at).or(base_fault(at))
            }
            Item::Lea {
                moved,
                pointer,
                index,
            } => {
                let moved = self.pointer_at(moved);
                let at = self.pointer_at(pointer);
                register_fault(moved)
                    .or(register_fault(at))
                    .or(offset_fault(self.word_behind(at, *index)))
                    .or(kind_fault(place_of(moved), place_behind(at, *index)))
            }
            Item::Move { copied, pointer } => {
                let copied = self.pointer_at(copied);
                let at = self.pointer_at(pointer);
                register_fault(copied)
                    .or(register_fault(at))
                    .or(kind_fault(place_of(copied), place_of(at)))
            }
            Item::Clear { pointer } => self.pointer_fault(pointer),
            Item::Loadg {
                loaded: register,
                global,
            }
            | Item::Storeg {
                stored: register,
                global,
            } => {
                let at = self.pointer_at(register);
                let ty = self.global_type(global);
                register_fault(at)
                    .or(global_fault(ty))
                    .or(kind_fault(place_of(at), base_of(ty)))
            }
            _ => None,
        }
    }

    fn number_line_fault(&self, item: &Item) -> Option<TypeKind>
        ensures { result ≡ fault_of_sort is_number_line (around self.now) item.now }
    {
        match item {
            Item::Same {
                number,
                first,
                second,
            } => self
                .number_fault(number)
                .or(self.pointer_fault(first))
                .or(self.pointer_fault(second)),
            Item::Isnull { number, pointer } => self
                .number_fault(number)
                .or(self.pointer_fault(pointer)),
            Item::Show { pointer } => self.pointer_fault(pointer),
            Item::Add {
                number,
                left,
                right,
            }
            | Item::Sub {
                number,
                left,
                right,
            } => self
                .number_fault(number)
                .or(self.number_fault(left))
                .or(self.number_fault(right)),
            Item::Const { number, .. } | Item::Print { number } | Item::If { number } => {
                self.number_fault(number)
            }
            _ => None,
        }
    }

    /// What is wrong with a line that begins no script, by the rule of its sort.
    pub fn fault(&self, item: &Item) -> Option<TypeKind>
        requires { is_script item.now ≡ false }
        ensures { (line : ℕ) (behind : List Item) → result ≡ rule.typing_fault (around self.now) line behind item.now }
    {
        match item {
            Item::Getn { .. } | Item::Setn { .. } => self.number_access_fault(item),
            Item::Getp { .. } | Item::Setp { .. } | Item::Casp { .. } => {
                self.pointer_access_fault(item)
            }
            Item::New { .. }
            | Item::Free { .. }
            | Item::Clear { .. }
            | Item::Lea { .. }
            | Item::Move { .. }
            | Item::Loadg { .. }
            | Item::Storeg { .. } => self.pointer_line_fault(item),
            Item::Heap { .. }
            | Item::TypeLine { .. }
            | Item::Global { .. }
            | Item::Script { .. }
            | Item::Ptr { .. }
            | Item::Num { .. } => self.declaration_fault(item),
            _ => self.number_line_fault(item),
        }
    }
}
