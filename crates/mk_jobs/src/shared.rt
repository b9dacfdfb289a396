//! What the callers, the markers and the host of a run share.
ghost use Rattle.std.specs.Prelude.{◌≡◌, ◌≤◌, length};

use crate::job_lists::Jobs;
use mk_heap::Heap;
use std::alloc::Global;

/// A run: the heap, and a list of jobs for each caller.
#[derive(Drop)]
pub(crate) struct Run<'r, J: Drop> {
    pub(crate) alloc: Global,
    pub(crate) heap: &'r Heap,
    pub(crate) lists: &'r [Jobs<J>],
    pub(crate) markers: u64,
    ghost one_each: { length lists.now ≡ heap.now.config.callers },
    ghost few: { heap.now.config.callers ≤ 16 },
    ghost same_markers: { markers ≡ heap.now.config.markers },
    ghost few_markers: { markers ≤ 8 },
}
