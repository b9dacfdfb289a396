//! The canonical text of a program.
ghost use Rattle.std.specs.Prelude.{◌≡◌, ◌++◌, ◌≤◌, [], ◌∷◌, IfOk, OnOk, drop, take, slice_index_or};
ghost use Rattle.std.specs.Fmt.{decimal};
ghost use Rattle.mk_script.specs.Canonical.{fields_behind, words_of_item, line_text};
ghost use Rattle.mk_script.specs.Canonical.{canonical_text, spaced_words, joined_words, operands_of_sort};
ghost use Rattle.mk_script.specs.Scopes.{is_declaration, is_number_access, is_pointer_access, is_pointer_line};
ghost use Rattle.mk_script.specs.Scopes.{is_number_line};

use crate::printer::Printer;
use crate::{Item, Name, Program, TypeWord};
use mk_never::NoMemory;
use std::alloc::Global;

impl Printer {
    /// Appends the fields of a type.
    fn fields(&mut self, words: &[TypeWord]) -> Result<(), NoMemory>
        ensures { OnOk result (self.new ≡ self.old ++ spaced_words (fields_behind words.now 0)) }
    {
        let mut count = 0;
        for word in words {
            match word {
                TypeWord::Number => count += 1,
                TypeWord::Pointer(at) => {
                    self.numbers(count)?;
                    self.word(b"p:", 2)?;
                    self.at(at)?;
                    count = 0;
                }
            }
        }
        self.numbers(count)
    }

    /// Appends two names.
    fn two_names(&mut self, first: &Name, second: &Name) -> Result<(), NoMemory>
        ensures { OnOk result (self.new ≡ self.old ++ spaced_words (first.now ∷ second.now ∷ [])) }
    {
        self.name(first)?;
        self.name(second)
    }

    /// Appends three names.
    fn three_names(&mut self, first: &Name, second: &Name, third: &Name) -> Result<(), NoMemory>
        ensures { OnOk result (self.new ≡ self.old ++ spaced_words (first.now ∷ second.now ∷ third.now ∷ [])) }
    {
        self.name(first)?;
        self.name(second)?;
        self.name(third)
    }

    /// Appends two names and an index.
    fn indexed(&mut self, first: &Name, second: &Name, index: u64) -> Result<(), NoMemory>
        ensures { OnOk result (self.new ≡ self.old ++ spaced_words (first.now ∷ second.now ∷ decimal index ∷ [])) }
    {
        self.name(first)?;
        self.name(second)?;
        self.number(index)
    }

    /// Appends a name, an index and another name.
    fn at_index(&mut self, first: &Name, index: u64, second: &Name) -> Result<(), NoMemory>
        ensures { OnOk result (self.new ≡ self.old ++ spaced_words (first.now ∷ decimal index ∷ second.now ∷ [])) }
    {
        self.name(first)?;
        self.number(index)?;
        self.name(second)
    }

    /// Appends the operands of a declaration, and of another line nothing.
    fn declaration(&mut self, item: &Item) -> Result<(), NoMemory>
        ensures { OnOk result (self.new ≡ self.old ++ operands_of_sort is_declaration item.now) }
    {
        match item {
            Item::Heap { pages, resident } => {
                self.number(*pages)?;
                self.number(*resident)
            }
            Item::TypeLine { name, words } => {
                self.name(name)?;
                self.fields(words.as_slice())
            }
            Item::Global { name, ty } => self.two_names(name, ty),
            Item::Ptr { name, at } => {
                self.name(name)?;
                self.place(at)
            }
            Item::Script { name } | Item::Num { name } => self.name(name),
            _ => Ok(()),
        }
    }

    /// Appends the operands of a line that reads or writes a number after a pointer, and of another line nothing.
    fn number_access(&mut self, item: &Item) -> Result<(), NoMemory>
        ensures { OnOk result (self.new ≡ self.old ++ operands_of_sort is_number_access item.now) }
    {
        match item {
            Item::Getn {
                number,
                pointer,
                index,
            } => self.indexed(number, pointer, *index),
            Item::Setn {
                pointer,
                index,
                number,
            } => self.at_index(pointer, *index, number),
            _ => Ok(()),
        }
    }

    /// Appends the operands of a line that reads or writes a pointer after a pointer, and of another line nothing.
    fn pointer_access(&mut self, item: &Item) -> Result<(), NoMemory>
        ensures { OnOk result (self.new ≡ self.old ++ operands_of_sort is_pointer_access item.now) }
    {
        match item {
            Item::Getp {
                loaded,
                pointer,
                index,
            } => self.indexed(loaded, pointer, *index),
            Item::Setp {
                pointer,
                index,
                stored,
            } => self.at_index(pointer, *index, stored),
            Item::Casp {
                number,
                pointer,
                index,
                expected,
                stored,
            } => {
                self.indexed(number, pointer, *index)?;
                self.two_names(expected, stored)
            }
            _ => Ok(()),
        }
    }

    /// Appends the operands of a line with pointers that reads and writes nothing after them, and of another line
    /// nothing.
    fn pointer_line(&mut self, item: &Item) -> Result<(), NoMemory>
        ensures { OnOk result (self.new ≡ self.old ++ operands_of_sort is_pointer_line item.now) }
    {
        match item {
            Item::New { pointer, ty } => self.two_names(pointer, ty),
            Item::Free { pointer } | Item::Clear { pointer } => self.name(pointer),
            Item::Lea {
                moved,
                pointer,
                index,
            } => self.indexed(moved, pointer, *index),
            Item::Move { copied, pointer } => self.two_names(copied, pointer),
            Item::Loadg { loaded, global } => self.two_names(loaded, global),
            Item::Storeg { stored, global } => self.two_names(stored, global),
            _ => Ok(()),
        }
    }

    /// Appends the operands of another line that has a number or reads registers, and of these lines nothing.
    fn number_line(&mut self, item: &Item) -> Result<(), NoMemory>
        ensures { OnOk result (self.new ≡ self.old ++ operands_of_sort is_number_line item.now) }
    {
        match item {
            Item::Same {
                number,
                first,
                second,
            } => self.three_names(number, first, second),
            Item::Add {
                number,
                left,
                right,
            }
            | Item::Sub {
                number,
                left,
                right,
            } => self.three_names(number, left, right),
            Item::Isnull { number, pointer } => self.two_names(number, pointer),
            Item::Const { number, value } => {
                self.name(number)?;
                self.number(*value)
            }
            Item::Print { number } | Item::If { number } => self.name(number),
            Item::Show { pointer } => self.name(pointer),
            Item::Repeat { rounds } => self.number(*rounds),
            _ => Ok(()),
        }
    }

    /// Appends the operands of a line, which are those of its sort.
    fn operands(&mut self, item: &Item) -> Result<(), NoMemory>
        ensures { OnOk result (self.new ≡ self.old ++ spaced_words (drop 1 (words_of_item item.now))) }
    {
        match item {
            Item::Getn { .. } | Item::Setn { .. } => self.number_access(item),
            Item::Getp { .. } | Item::Setp { .. } | Item::Casp { .. } => self.pointer_access(item),
            Item::New { .. }
            | Item::Free { .. }
            | Item::Clear { .. }
            | Item::Lea { .. }
            | Item::Move { .. }
            | Item::Loadg { .. }
            | Item::Storeg { .. } => self.pointer_line(item),
            Item::Heap { .. }
            | Item::TypeLine { .. }
            | Item::Global { .. }
            | Item::Script { .. }
            | Item::Ptr { .. }
            | Item::Num { .. } => self.declaration(item),
            _ => self.number_line(item),
        }
    }

    /// Appends the words of a line: the first, and its operands.
    fn words(&mut self, item: &Item) -> Result<(), NoMemory>
        ensures { OnOk result (self.new ≡ self.old ++ joined_words (words_of_item item.now)) }
    {
        let (word, length) = first_word(item);
        self.piece(word, length)?;
        self.operands(item)
    }

    /// Appends a line.
    fn line(&mut self, item: &Item) -> Result<(), NoMemory>
        ensures { OnOk result (self.new ≡ self.old ++ line_text (words_of_item item.now)) }
    {
        self.words(item)?;
        self.piece(b"\n", 1)
    }
}

/// The first word of a line, filled up with spaces, and its length.
fn first_word(item: &Item) -> (&'static [u8; 8], usize)
    ensures word { take result.1 result.0.now ≡ slice_index_or (words_of_item item.now) 0 [] }
    ensures short { result.1 ≤ 8 }
{
    match item {
        Item::Heap { .. } => (b"heap    ", 4),
        Item::TypeLine { .. } => (b"type    ", 4),
        Item::Global { .. } => (b"global  ", 6),
        Item::Script { .. } => (b"script  ", 6),
        Item::Ptr { .. } => (b"ptr     ", 3),
        Item::Num { .. } => (b"num     ", 3),
        Item::New { .. } => (b"new     ", 3),
        Item::Free { .. } => (b"free    ", 4),
        Item::Getn { .. } => (b"getn    ", 4),
        Item::Setn { .. } => (b"setn    ", 4),
        Item::Getp { .. } => (b"getp    ", 4),
        Item::Setp { .. } => (b"setp    ", 4),
        Item::Casp { .. } => (b"casp    ", 4),
        Item::Lea { .. } => (b"lea     ", 3),
        Item::Move { .. } => (b"move    ", 4),
        Item::Clear { .. } => (b"clear   ", 5),
        Item::Loadg { .. } => (b"loadg   ", 5),
        Item::Storeg { .. } => (b"storeg  ", 6),
        Item::Same { .. } => (b"same    ", 4),
        Item::Isnull { .. } => (b"isnull  ", 6),
        Item::Show { .. } => (b"show    ", 4),
        Item::Const { .. } => (b"const   ", 5),
        Item::Add { .. } => (b"add     ", 3),
        Item::Sub { .. } => (b"sub     ", 3),
        Item::Print { .. } => (b"print   ", 5),
        Item::Repeat { .. } => (b"repeat  ", 6),
        Item::If { .. } => (b"if      ", 2),
        Item::Else => (b"else    ", 4),
        Item::End => (b"end     ", 3),
    }
}

/// The canonical text of a program: the words of each line with a space between them, and a newline
/// after it. Its only refusal is NoMemory.
pub fn print(alloc: Global, program: &Program) -> Result<Vec<u8>, NoMemory>
    ensures { IfOk result (λ text. text.items ≡ canonical_text program.now) }
{
    let mut printer = Printer::new(alloc);
    for item in program.items() {
        printer.line(item)?;
    }
    printer.into_text()
}
