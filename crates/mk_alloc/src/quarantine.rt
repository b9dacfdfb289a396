//! How much memory quarantine takes, in all histories in which the turns of callers are exact: facts, without code.
ghost use Rattle.mk_alloc.specs.Bounds.{QuarantinesAreBounded};

/// While nobody holds the turn, what was freed since the last `begin` is at most a quarter of what is held and was
/// given back since, and freed large objects take no memory. If no cycle is on, what else is in quarantine was kept by
/// the last cycle, and pointers led to it unless that cycle swept. That a cycle is due past a quarter is a rule of
/// MarkUs (Ainsworth and Jones, 2020).
pub fn quarantine_is_bounded()
    ensures { QuarantinesAreBounded }
{}
