//! What the scripts, the markers and the host of a run share.
ghost use Rattle.std.specs.Prelude.{◌≡◌, ◌≤◌};
ghost use Rattle.mk_check.specs.Declarations.{config_of};

use mk_check::Checked;
use mk_heap::Heap;
use std::alloc::Global;

/// A run of a program: what its scripts, its markers and its host share. The heap was made for the program.
#[derive(Clone, Copy)]
pub(crate) struct Run<'r> {
    pub(crate) alloc: Global,
    pub(crate) heap: &'r Heap,
    pub(crate) program: &'r Checked,
    pub(crate) markers: u64,
    /// Whether the host runs a last cycle when the scripts are joined.
    pub(crate) with_cycle: bool,
    ghost made_for: { heap.now.config ≡ config_of program.now markers },
    ghost few: { markers ≤ 8 },
}
