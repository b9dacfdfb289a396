//! Lines of a script, with numbers for their names.

use std::marker::Model;

/// A script has at most eight number registers. A name that isn't declared has the place after the declared ones, so
/// there is one place more. No checked script has such a name.
pub const NUMBER_REGISTERS: usize = 9;

/// A number register, by its place among them.
#[derive(Clone, Copy)]
pub struct NumberRegister {
    place: usize,
}

impl Model for NumberRegister {
    ghost use Rattle.std.specs.Prelude.{ℕ, ◌<◌};

    ghost Value = { ℕ };

    ghost view = { λ r. r.place };

    ghost inverse = { λ n. record { place = n } };

    ghost invariant = { λ r. r.place < 9 };
}

impl NumberRegister {
    ghost use Rattle.std.specs.Prelude.{◌≡◌, ◌<◌};

    /// The register at this place.
    pub fn at(place: usize) -> NumberRegister
        requires { place < 9 }
        ensures { result ≡ place }
    {
        NumberRegister { place }
    }

    /// Its place.
    #[inline(always)]
    pub fn place(self) -> usize
        ensures is { result ≡ self }
        ensures within { result < 9 }
    {
        self.place
    }
}

/// A line that is neither the head nor the end of a block. Registers, types and globals are numbered
/// from 0, in the order of their declarations. An operation has its own variant here, so that it is told from the
/// others once, where it is asked for.
#[derive(Clone, Copy)]
pub enum Instruction {
    /// A declaration.
    Nothing,
    Const {
        number: NumberRegister,
        value: u64,
    },
    Add {
        number: NumberRegister,
        left: NumberRegister,
        right: NumberRegister,
    },
    Sub {
        number: NumberRegister,
        left: NumberRegister,
        right: NumberRegister,
    },
    Print {
        number: NumberRegister,
    },
    New {
        d: u8,
        ty: u64,
    },
    Free {
        p: u8,
    },
    GetPtr {
        d: u8,
        q: u8,
        i: u64,
    },
    SetPtr {
        q: u8,
        i: u64,
        p: u8,
    },
    Lea {
        d: u8,
        q: u8,
        i: u64,
    },
    Move {
        d: u8,
        q: u8,
    },
    Clear {
        d: u8,
    },
    GetGlobal {
        d: u8,
        g: u8,
    },
    SetGlobal {
        g: u8,
        p: u8,
    },
    /// The number is read when it runs.
    SetNum {
        q: u8,
        number: NumberRegister,
        i: u64,
    },
    GetNum {
        q: u8,
        number: NumberRegister,
        i: u64,
    },
    CasPtr {
        q: u8,
        p: u8,
        r: u8,
        number: NumberRegister,
        i: u64,
    },
    Same {
        p: u8,
        q: u8,
        number: NumberRegister,
    },
    IsNull {
        p: u8,
        number: NumberRegister,
    },
    Show {
        p: u8,
    },
}

impl Instruction {
    ghost use Rattle.std.specs.Prelude.{◌≡◌, ℕ, List, is_some};
    ghost use Rattle.mk_check.specs.Steps.{is_asking, is_print, is_show, keeping_register};

    /// Whether it asks for an operation.
    #[inline(always)]
    pub fn asks(&self) -> bool
        ensures { result ≡ is_asking self.now }
    {
        !matches!(
            self,
            Instruction::Nothing
                | Instruction::Const { .. }
                | Instruction::Add { .. }
                | Instruction::Sub { .. }
                | Instruction::Print { .. }
        )
    }

    /// Whether it prints when it runs.
    pub fn prints(&self) -> bool
        ensures { result ≡ is_print self.now }
    {
        matches!(self, Instruction::Print { .. })
    }

    /// Whether it prints when it takes its answer, whatever that is.
    pub fn shows(&self) -> bool
        ensures { result ≡ is_show self.now }
    {
        matches!(self, Instruction::Show { .. })
    }

    /// The number register that keeps its answer.
    pub fn keeping_register(&self) -> Option<NumberRegister>
        ensures { result ≡ keeping_register self.now }
    {
        match self {
            Instruction::GetNum { number, .. }
            | Instruction::CasPtr { number, .. }
            | Instruction::Same { number, .. }
            | Instruction::IsNull { number, .. } => Some(*number),
            _ => None,
        }
    }
}

/// What a line adds to a script's tree.
#[derive(Clone, Copy)]
pub enum Element {
    Line(Instruction),
    Repeat(u64),
    If(NumberRegister),
    Else,
    End,
}
