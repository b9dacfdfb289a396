//! What a line of a script text says.

use crate::Name;
use std::marker::Model;

/// Where a pointer points: a word of a type, counted from the type's first word, 0.
#[derive(Drop)]
pub struct At {
    pub name: Name,
    pub offset: u64,
}

/// A word of a type.
#[derive(Drop)]
pub enum TypeWord {
    Number,
    Pointer(At),
}

/// The words of a type, one by one.
#[derive(Drop)]
pub struct TypeWords {
    words: Vec<TypeWord>,
}

impl Model for TypeWords {
    ghost use Rattle.std.specs.Prelude.{List};
    ghost use Rattle.mk_script.specs.declared.items.TypeWord.{TypeWord};

    ghost Value = { List TypeWord };

    ghost view = { λ t. t.words.items };
}

impl TypeWords {
    ghost use Rattle.std.specs.Prelude.{◌≡◌};

    /// A type of these words.
    pub fn from_vec(words: Vec<TypeWord>) -> TypeWords
        ensures { result ≡ words.items }
    {
        TypeWords { words }
    }

    /// Takes the words out.
    pub fn into_vec(self) -> Vec<TypeWord>
        ensures { result.items ≡ self }
    {
        let TypeWords { words } = self;
        words
    }

    /// The words.
    pub fn as_slice(&self) -> &[TypeWord]
        ensures { result.now ≡ self.now }
    {
        self.words.as_slice()
    }
}

/// A line of a script text. Registers, types, globals and scripts are named as in the text, and an
/// index counts words from the one that its pointer points to.
#[derive(Drop)]
pub enum Item {
    /// `heap PAGES RESIDENT`
    Heap {
        pages: u64,
        resident: u64,
    },
    /// `type T F ..`
    TypeLine {
        name: Name,
        words: TypeWords,
    },
    /// `global G T`
    Global {
        name: Name,
        ty: Name,
    },
    /// `script S`
    Script {
        name: Name,
    },
    /// `ptr P AT`
    Ptr {
        name: Name,
        at: At,
    },
    /// `num N`
    Num {
        name: Name,
    },
    /// `new P T`
    New {
        pointer: Name,
        ty: Name,
    },
    /// `free P`
    Free {
        pointer: Name,
    },
    /// `getn N Q i`
    Getn {
        number: Name,
        pointer: Name,
        index: u64,
    },
    /// `setn Q i N`
    Setn {
        pointer: Name,
        index: u64,
        number: Name,
    },
    /// `getp P Q i`
    Getp {
        loaded: Name,
        pointer: Name,
        index: u64,
    },
    /// `setp Q i P`
    Setp {
        pointer: Name,
        index: u64,
        stored: Name,
    },
    /// `casp N Q i P P2`
    Casp {
        number: Name,
        pointer: Name,
        index: u64,
        expected: Name,
        stored: Name,
    },
    /// `lea P Q i`
    Lea {
        moved: Name,
        pointer: Name,
        index: u64,
    },
    /// `move P Q`
    Move {
        copied: Name,
        pointer: Name,
    },
    /// `clear P`
    Clear {
        pointer: Name,
    },
    /// `loadg P G`
    Loadg {
        loaded: Name,
        global: Name,
    },
    /// `storeg P G`
    Storeg {
        stored: Name,
        global: Name,
    },
    /// `same N P Q`
    Same {
        number: Name,
        first: Name,
        second: Name,
    },
    /// `isnull N P`
    Isnull {
        number: Name,
        pointer: Name,
    },
    /// `show P`
    Show {
        pointer: Name,
    },
    /// `const N k`
    Const {
        number: Name,
        value: u64,
    },
    /// `add N A B`
    Add {
        number: Name,
        left: Name,
        right: Name,
    },
    /// `sub N A B`
    Sub {
        number: Name,
        left: Name,
        right: Name,
    },
    /// `print N`
    Print {
        number: Name,
    },
    /// `repeat k`
    Repeat {
        rounds: u64,
    },
    /// `if N`
    If {
        number: Name,
    },
    /// `else`
    Else,
    /// `end`
    End,
}
