//! When a marking pass is due, and which cells of a block it frees.
ghost use Rattle.std.specs.{Prelude.{◌≡◌, ◌↔◌, ℕ, ◌*◌, ◌<◌, ◌≤◌, IsTrue}, Int.bit_at};
ghost use Rattle.mk_books.specs.Cells.{IsFreeable};

/// Whether what was freed since the last pass is more than a quarter of what is held. Both are counts of words.
pub fn due(fresh: u64, held: u64) -> bool
    ensures { IsTrue result ↔ (held < 4 * fresh) }
{
    fresh > held / 4
}

/// The cells of a block that a finished pass gives back, one bit each. Bit k of the quarantine word says
/// that cell k is freed, and bit 32 + k that it is in the pass's snapshot.
pub fn freeable(used: u64, quar: u64, mark: u64) -> u64
    ensures cells { (k : ℕ) → k < 32 → (bit_at result k ≡ 1) ↔ IsFreeable used quar mark k }
    ensures no_others { (k : ℕ) → 32 ≤ k → bit_at result k ≡ 0 }
{
    used & (quar >> 32) & !mark
}
