//! The numbers that the generator draws.
ghost use Rattle.std.specs.Prelude.{◌≡◌, ◌<◌};
ghost use Rattle.mk_outputs.specs.Generated.{next_state, draw};

use std::marker::Model;

/// Draws, each from the state that the one before left.
#[derive(Drop)]
pub struct Draws {
    state: u64,
}

impl Model for Draws {
    ghost use Rattle.std.specs.Prelude.{ℕ};

    ghost Value = { ℕ };

    ghost view = { λ d. d.state };
}

impl Draws {
    /// Draws from this state on.
    pub fn new(start: u64) -> Draws
        ensures { result ≡ start }
    {
        Draws { state: start }
    }

    /// A draw below m.
    pub fn below(&mut self, m: u64) -> u64
        requires { 0 < m }
        ensures state { self.new ≡ next_state self.old }
        ensures drawn { result ≡ draw (next_state self.old) m }
        ensures below { result < m }
    {
        self.state = self
            .state
            .wrapping_mul(6_364_136_223_846_793_005)
            .wrapping_add(1_442_695_040_888_963_407);
        (self.state >> 33) % m
    }
}
