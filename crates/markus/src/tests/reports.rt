//! What `run --report` counts, reckoned by hand from the rules of `docs/SCRIPTS.md`.

use super::tables::{Asks, all_hold};

/// Rows as those of `RUNS`. A cell has 32 words here and a run 64. How each comes about, in order:
///
/// - Five cells are 160 words. One is freed: 4 * 32 is no more than 160, so no cycle is due.
/// - Of two cells one is freed: 4 * 32 is more than 64. Cycle 1 keeps it, since `y` points to it.
/// - The same, and cycle 2 after the script, which keeps it too.
/// - Both frees are due, and cycles 1 and 2 keep what is freed. Cycle 3, in the last `new`, finds no pointer to either,
///   and releases two. That `new` takes 32.
/// - A freed run is unmapped: it isn't held any more, and never fresh, but it waits in quarantine.
/// - The third `new` has no room: cycle 1 finds nothing that is freed, and the `new` is full.
/// - The first run is freed, but keeps page 0, and the second gets page 1. `new b` has no room: cycle 1 releases the
///   first run, and `b` gets page 0, so 64 + 32 are held. The next `new` has no room, cycle 2 releases nothing, and it
///   is full. The free of `b` is due, since 4 * 32 is more than 96, and cycle 3 keeps it.
/// - The frees make cycles 1 and 2. In cycle 3, after the script, the sweep finds each object in a word of the other.
/// - Beside a marker, five cells and a free that isn't due. The cycle after the script releases one: 160 - 32.
const COUNTED: &str = "\
words held and fresh | run --report | \
    heap 3 3/type A n*32/script s/ptr p A/repeat 5/new p A/end/free p/ -> \
    script s/held 160/fresh 32/quarantined 1/released 0/cycles 0/full 0/
nothing is fresh after a cycle | run --report | \
    heap 1 1/type A n*31 p:A/script s/ptr x A/ptr y A/new x A/new y A/setp x 31 y/free y/ -> \
    script s/held 64/fresh 0/quarantined 1/released 0/cycles 1/full 0/
after the last cycle, and before what it keeps | run --why --report | \
    heap 1 1/type A n*31 p:A/script s/ptr x A/ptr y A/new x A/new y A/setp x 31 y/free y/ -> \
    script s/held 64/fresh 0/quarantined 1/released 0/cycles 2/full 0/kept 65792 32/register s y/
a cycle that releases | run --report --markers 0 | \
    heap 1 1/type A p:A n*31/script s/ptr p A/ptr q A/new p A/new q A/setp p 0 q/setp q 0 p/free p/free q/\
    clear p/clear q/new p A/show p/ -> script s/ptr/held 32/fresh 0/quarantined 0/released 2/cycles 3/full 0/
a freed run | run --report | \
    heap 1 1/type A n*33/script s/ptr p A/new p A/free p/ -> \
    script s/held 0/fresh 0/quarantined 1/released 0/cycles 0/full 0/
a full heap | run --report --sweep | \
    heap 1 1/type A n*32/script s/ptr p A/new p A/new p A/new p A/ -> \
    script s/7: full/held 64/fresh 0/quarantined 0/released 0/cycles 1/full 1/
a released run, a cell and a full heap | run --report | \
    heap 2 2/type A n*33/type B n*32/script s/ptr a A/ptr b B/new a A/free a/clear a/\
    new a A/new b B/new a A/free b/ -> \
    script s/12: full/held 96/fresh 0/quarantined 1/released 1/cycles 3/full 1/
a sweep that keeps a ring | run --sweep --why --report | \
    heap 1 1/type A p:A n*31/script s/ptr p A/ptr q A/new p A/new q A/setp p 0 q/setp q 0 p/\
    free p/free q/clear p/clear q/ -> script s/held 64/fresh 0/quarantined 2/released 0/cycles 3/full 0/\
    kept 65536 32/floating/kept 65792 32/floating/
a last cycle beside a marker | run --markers 1 --report --why | \
    heap 3 3/type A n*32/script s/ptr p A/repeat 5/new p A/end/free p/clear p/ -> \
    script s/held 128/fresh 0/quarantined 0/released 1/cycles 1/full 0/
";

#[test]
fn reports_count_as_reckoned(rt: HostRuntime) {
    all_hold(&rt, rt.alloc(), Asks::Run, COUNTED);
}
