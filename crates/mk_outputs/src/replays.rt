//! What `replay` writes.
ghost use Rattle.std.specs.Prelude.{◌≡◌, ◌⊎◌, IfOk, IfErr, OnOk};
ghost use Rattle.mk_core.specs.History.{AreEnabled};
ghost use Rattle.mk_check.specs.{Declarations.config_of, Feed.output};
ghost use Rattle.mk_replay.specs.Replays.{history_of};
ghost use Rattle.mk_run.specs.Below.Laws.Promises.{KeepsAllPromises};
ghost use Rattle.mk_outputs.specs.{Outputs.{IsOutputOnSchedule, status_on, status_of_schedule}, Statuses.IsOfText};

use crate::commands::TextCommand;
use crate::statuses::Status;
use crate::texts::joined;
use mk_check::check;
use mk_replay::{Schedule, parse_replay, replay};
use mk_script::Program;
use std::alloc::Global;

/// What `replay` writes on a text, whole.
pub fn replayed(alloc: Global, text: &[u8]) -> Result<Vec<u8>, Status>
    ensures ok { IfOk result (λ output. IsOutputOnSchedule text.now output.items) }
    ensures refused { IfErr result (λ status. (status ≡ Status.NoMemory)
        ⊎ (status ≡ status_on TextCommand.Replay text.now)) }
    ensures of_text { IfErr result (λ status. IsOfText status) }
{
    let (program, schedule) = parse_replay(alloc, text)?;
    run(alloc, program, &schedule)
}

/// What the program's scripts have printed after the schedule.
fn run(alloc: Global, program: Program, schedule: &Schedule) -> Result<Vec<u8>, Status>
    ensures printed { IfOk result (λ bytes. bytes.items ≡ output program (config_of program 8)
        (history_of program schedule.now)) }
    ensures enabled { OnOk result (AreEnabled (config_of program 8) (history_of program schedule.now)) }
    ensures promises { OnOk result (KeepsAllPromises (config_of program 8) (history_of program schedule.now)) }
    ensures accepted { OnOk result (status_of_schedule program schedule.now ≡ Status.Ok) }
    ensures refused { IfErr result (λ status. (status ≡ Status.NoMemory)
        ⊎ (status ≡ status_of_schedule program schedule.now)) }
    ensures of_text { IfErr result (λ status. IsOfText status) }
{
    let checked = check(alloc, program)?;
    let texts = replay(alloc, &checked, schedule)?;
    Ok(joined(alloc, &texts)?)
}
