//! What a gate word says.
ghost use Rattle.std.specs.Prelude.{◌≡◌, ◌==◌};
ghost use Rattle.mk_core.specs.Words.{gate_number};

/// A caller's gate. A caller enters a call through it, and who holds it keeps the caller out.
#[derive(Clone, Copy)]
pub enum Gate {
    Open,
    /// The caller is in a call.
    InCall,
    Held,
}

impl Gate {
    /// Its number, which is the gate word.
    #[inline(always)]
    pub fn number(self) -> u64
        ensures { result ≡ gate_number self }
    {
        match self {
            Gate::Open => 0,
            Gate::InCall => 1,
            Gate::Held => 2,
        }
    }

    /// Whether a gate word says this.
    #[inline(always)]
    pub fn is_in(self, word: u64) -> bool
        ensures { result ≡ (word == gate_number self) }
    {
        word == self.number()
    }
}
