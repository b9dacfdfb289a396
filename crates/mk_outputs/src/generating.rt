//! The programs of the generator.
ghost use Rattle.std.specs.Prelude.{◌≡◌, ◌≤◌, IfOk};
ghost use Rattle.mk_outputs.specs.Generated.{generated_program};

use crate::text::generated_text;
use mk_check::{Checked, TypeStop, check};
use mk_never::NoMemory;
use mk_script::{TextStop, parse};
use std::alloc::Global;

/// The program that the draws of START make, of COUNT / 48 turns a script. Its only refusal is NoMemory.
pub fn generate(alloc: Global, start: u64, count: u64) -> Result<Checked, NoMemory>
    requires { count ≤ 3000000 }
    ensures { IfOk result (λ checked. checked ≡ generated_program start count) }
{
    let text = generated_text(alloc, start, count)?;
    let program = match parse(alloc, text.as_bytes()) {
        Ok(program) => program,
        Err(stop) => match stop {
            TextStop::NoMemory => return Err(NoMemory),
            _ => unreachable!(),
        },
    };
    match check(alloc, program) {
        Ok(checked) => Ok(checked),
        Err(stop) => match stop {
            TypeStop::NoMemory => Err(NoMemory),
            TypeStop::IllTyped { .. } => unreachable!(),
        },
    }
}
