//! How many instructions a script executes at most.
ghost use Rattle.std.specs.Prelude.{◌≡◌, ℕ, ◌-◌, ◌^◌, [], ◌∷◌, OnOk, IfOk, min};
ghost use Rattle.mk_check.specs.Blocks.{blocks_from, length_of};

use mk_never::NoMemory;
use mk_script::{Item, is_declaration};
use std::alloc::Global;
use std::marker::Model;

/// Counts of an open part of a script: of its lines, and of the branch after its `else`.
#[derive(Clone, Copy)]
struct PartCount {
    lines: u64,
    second: u64,
}

/// The counts of the open parts of a script that is read from its end.
#[derive(Drop)]
struct OpenParts {
    outermost_first: Vec<PartCount>,
}

impl Model for OpenParts {
    ghost use Rattle.std.specs.Prelude.{List, reverse};
    ghost use Rattle.mk_check.specs.declared.lengths.PartCount.{PartCount};

    ghost Value = { List PartCount };

    ghost view = { λ o. reverse o.outermost_first.items };
}

impl OpenParts {
    ghost use Rattle.std.specs.Prelude.{ℕ, List, ◌+◌};
    ghost use Rattle.mk_check.specs.Blocks.{Part, counts_of, innermost_count, no_count, outer_counts, saturated_count};
    ghost use Rattle.mk_check.specs.Blocks.{with_innermost, with_item};

    fn new(alloc: Global) -> OpenParts
        ensures { result ≡ [] }
    {
        OpenParts {
            outermost_first: Vec::new(alloc),
        }
    }

    /// Opens a part inside the others.
    fn open(&mut self) -> Result<(), NoMemory>
        ensures { OnOk result (self.new ≡ no_count ∷ self.old) }
    {
        Ok(
            self.outermost_first.push(PartCount {
                lines: 0,
                second: 0,
            })?,
        )
    }

    /// Takes the innermost part away.
    fn close(&mut self) -> PartCount
        ensures count { result ≡ innermost_count self.old }
        ensures left { self.new ≡ outer_counts self.old }
    {
        self.outermost_first.pop().unwrap_or(PartCount {
            lines: 0,
            second: 0,
        })
    }

    /// Counts instructions before the innermost part.
    fn add(&mut self, instructions: u64)
        ensures { self.new ≡ with_innermost
            (λ count. record count { lines = saturated_count (count.lines + instructions) }) self.old }
    {
        if let Some(innermost) = self.outermost_first.last_mut() {
            innermost.lines = innermost.lines.saturating_add(instructions);
        }
    }

    /// Makes the innermost part the second branch of the part before it.
    fn turn(&mut self)
        ensures { self.new ≡ with_innermost (λ count. record { lines = 0; second = count.lines }) self.old }
    {
        if let Some(innermost) = self.outermost_first.last_mut() {
            innermost.second = innermost.lines;
            innermost.lines = 0;
        }
    }

    /// Reads the item before those that were read.
    #[tactic(auto, using(crate::proofs::CountLemmas::read_item))]
    fn read(&mut self, item: &Item) -> Result<(), NoMemory>
        ensures { OnOk result ((line : ℕ) (parts : List Part) → self.old ≡ counts_of parts
            → self.new ≡ counts_of (with_item line item.now parts)) }
    {
        match item {
            Item::Repeat { rounds } => {
                let body = self.close();
                let round = body.lines.saturating_add(1);
                self.add(rounds.saturating_mul(round).saturating_add(1));
            }
            Item::If { .. } => {
                let branches = self.close();
                self.add(branches.lines.max(branches.second).saturating_add(1));
            }
            Item::Else => self.turn(),
            Item::End => return self.open(),
            _ => {
                if !is_declaration(item) {
                    self.add(1);
                }
            }
        }
        Ok(())
    }
}

/// How many instructions a script of these items executes at most, or 2^64 - 1 where it is more.
pub fn script_length(alloc: Global, items: &[Item]) -> Result<u64, NoMemory>
    ensures { IfOk result (λ count. (line : ℕ) → count ≡ min (length_of (blocks_from line items.now)) (2 ^ 64 - 1)) }
{
    let mut parts = OpenParts::new(alloc);
    parts.open()?;
    for item in items.iter().rev() {
        parts.read(item)?;
    }
    Ok(parts.close().lines)
}
