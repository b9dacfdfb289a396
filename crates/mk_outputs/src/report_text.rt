//! The lines of `--report`.
ghost use Rattle.std.specs.{Prelude.{◌≡◌, ◌++◌, OnOk}};
ghost use Rattle.mk_outputs.specs.RunOutputs.{count_line, lines_of_report};

use crate::pieces::push_pieces;
use itoa::Buffer;
use mk_never::NoMemory;
use mk_run::lower::heaps::Report;

/// Appends the numbers of a report, a line each.
pub fn push_report(text: &mut Vec<u8>, report: &Report) -> Result<(), NoMemory>
    ensures { OnOk result (text.new.items ≡ text.old.items ++ lines_of_report report.now) }
{
    push_count(text, "held", report.held)?;
    push_count(text, "fresh", report.fresh)?;
    push_count(text, "quarantined", report.quarantined)?;
    push_count(text, "released", report.released)?;
    push_count(text, "cycles", report.cycles)?;
    push_count(text, "full", report.full)?;
    Ok(())
}

/// Appends the line of a count.
fn push_count(text: &mut Vec<u8>, name: &str, count: u64) -> Result<(), NoMemory>
    ensures { OnOk result (text.new.items ≡ text.old.items ++ count_line name.now count) }
{
    let mut digits = Buffer::new();
    push_pieces(
        text,
        &[
            name.as_bytes(),
            b" ",
            digits.format(count).as_bytes(),
            b"\n",
        ],
    )
}
