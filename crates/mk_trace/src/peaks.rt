//! Peaks of played traces, and the lines in which they are printed.
ghost use Rattle.std.specs.{Prelude.{◌≡◌, ◌++◌, [], ◌∷◌, IfOk, OnOk}, Fmt.decimal, String.string_bytes};
ghost use Rattle.mk_script.specs.Canonical.{line_text};
ghost use Rattle.mk_trace.specs.Peaks.{text_of_counts, text_of_ages, peaks_text};
ghost use lib.Chars.{codes};

use mk_heap::Report;
use mk_never::NoMemory;
use std::alloc::Global;

/// What playing a trace shows. Storage is counted in words. A number above 2^64 - 1 stands as 2^64 - 1.
#[derive(Drop)]
pub struct Peaks {
    pub events: u64,
    pub refused: u64,
    /// The most storage of mapped allocations.
    pub held: u64,
    /// The most storage of freed and unreleased allocations.
    pub quarantined: u64,
    /// The most storage of freed and unreleased large allocations.
    pub reserved: u64,
    pub cycles: u64,
    /// For each age at which an allocation was released, how many were; the ages ascend. An age is the number of
    /// ends of cycles after the free, with that of the cycle that released it.
    pub ages: Vec<(u64, u64)>,
    pub(crate) report: Report,
}

/// The lines of the peaks.
pub fn print_peaks(alloc: Global, peaks: &Peaks) -> Result<Vec<u8>, NoMemory>
    ensures { IfOk result (λ text. text.items ≡ peaks_text peaks.now) }
{
    let mut text = String::new(alloc);
    push_counts(&mut text, peaks)?;
    push_ages(&mut text, peaks.ages.as_slice())?;
    Ok(text.into_bytes())
}

fn push_counts(text: &mut String, peaks: &Peaks) -> Result<(), NoMemory>
    ensures { OnOk result (string_bytes text.new ≡ string_bytes text.old ++ text_of_counts peaks.now) }
{
    push_count(text, "events", peaks.events)?;
    push_count(text, "refused", peaks.refused)?;
    push_count(text, "held", peaks.held)?;
    push_count(text, "quarantined", peaks.quarantined)?;
    push_count(text, "reserved", peaks.reserved)?;
    push_count(text, "cycles", peaks.cycles)
}

fn push_count(text: &mut String, name: &str, count: u64) -> Result<(), NoMemory>
    ensures { OnOk result (string_bytes text.new ≡ string_bytes text.old ++ line_text (name.now ∷ decimal count ∷ [])) }
{
    Ok(writeln!(text, "{name} {count}")?)
}

fn push_ages(text: &mut String, ages: &[(u64, u64)]) -> Result<(), NoMemory>
    ensures { OnOk result (string_bytes text.new ≡ string_bytes text.old ++ text_of_ages ages.now) }
{
    for (age, count) in ages {
        push_age(text, *age, *count)?;
    }
    Ok(())
}

fn push_age(text: &mut String, age: u64, count: u64) -> Result<(), NoMemory>
    ensures { OnOk result (string_bytes text.new
        ≡ string_bytes text.old ++ line_text (codes "age" ∷ decimal age ∷ decimal count ∷ [])) }
{
    Ok(writeln!(text, "age {age} {count}")?)
}
