//! A schedule that is stepped on a core: what was freed after a cycle's `begin` stays, and the next cycle gives it
//! back.

use mk_core::{Answer, Config, Core, Event, GlobalTable, NotEnabled, Seat, Step, Tally};
use mk_never::{Kind, Op, TypeTable};
use std::alloc::Global;

/// The `take` of a New.
fn new(register: u8) -> Step {
    Step::Take(Some(Op::New {
        d: register,
        ty: 0,
        full: false,
    }))
}

/// The `take` of a Free.
fn free(register: u8) -> Step {
    Step::Take(Some(Op::Free { p: register }))
}

fn head(value: u64) -> Step {
    Step::Head { page: 0, value }
}

fn used(value: u64) -> Step {
    Step::Used { page: 0, value }
}

fn quar(value: u64) -> Step {
    Step::Quar { page: 0, value }
}

fn held(value: u64) -> Step {
    Step::Tally {
        tally: Tally::Held,
        value,
    }
}

fn fresh(value: u64) -> Step {
    Step::Tally {
        tally: Tally::Fresh,
        value,
    }
}

/// Makes the steps of a seat, as far as they are enabled. The last answer that they decide.
fn make(core: &mut Core, seat: Seat, steps: &[Step]) -> Result<Option<Answer>, NotEnabled> {
    let mut last = None;
    for step in steps {
        let decided = core.step(Event { seat, step: *step })?;
        if decided.is_some() {
            last = decided;
        }
    }
    Ok(last)
}

/// Whether a seat's steps are all enabled, and this is the last answer that they decide.
fn decides(core: &mut Core, seat: Seat, steps: &[Step], last: Option<Answer>) -> bool {
    make(core, seat, steps) == Ok(last)
}

/// Two objects are made.
fn two_made() -> [Step; 11] {
    [
        new(0),
        head(125),
        used(1),
        Step::Grant,
        held(32),
        Step::Give,
        new(1),
        used(3),
        Step::Grant,
        held(64),
        Step::Give,
    ]
}

/// Both are freed, the second after the `begin` of the first one's free.
fn both_freed() -> [Step; 11] {
    [
        free(0),
        Step::Reg,
        quar(1),
        quar(4_294_967_297),
        Step::Begin,
        Step::Give,
        free(1),
        Step::Reg,
        quar(4_294_967_299),
        fresh(32),
        Step::Give,
    ]
}

/// The registers are null again.
fn registers_cleared() -> [Step; 6] {
    [
        Step::Enter(Op::Clear { d: 0 }),
        Step::Reg,
        Step::Leave,
        Step::Enter(Op::Clear { d: 1 }),
        Step::Reg,
        Step::Leave,
    ]
}

/// The host closes the cycle.
fn cycle_closed() -> [Step; 5] {
    [
        Step::Take(None),
        Step::Hold(0),
        Step::Want,
        Step::Close,
        Step::Release,
    ]
}

/// It gives the first object back, and only that.
fn first_given_back() -> [Step; 6] {
    [
        used(2),
        quar(2),
        held(32),
        Step::End,
        Step::Open(0),
        Step::Give,
    ]
}

/// A third object is made, after a cycle that gives the second one back.
fn third_made() -> [Step; 17] {
    [
        new(2),
        quar(8_589_934_594),
        fresh(0),
        Step::Begin,
        Step::Want,
        Step::Close,
        Step::Release,
        used(0),
        quar(0),
        head(0),
        held(0),
        Step::End,
        head(125),
        used(1),
        Step::Grant,
        held(32),
        Step::Give,
    ]
}

/// A core of one caller, on a page for two objects of 32 words, if memory suffices.
fn new_core(alloc: Global) -> Option<Core> {
    let mut types = TypeTable::new(alloc);
    types.add(Vec::from_elem(alloc, Kind::Num, 32).ok()?).ok()?;
    let config = Config {
        pages: 1,
        resident: 1,
        callers: 1,
        markers: 0,
        types,
        globals: GlobalTable::new(alloc),
    };
    Core::start(alloc, &config).ok()
}

/// Whether the first object's cycle goes so: its caller's calls are done, and the host closes it.
fn comes_to_a_close(core: &mut Core) -> bool {
    let caller = Seat::Caller(0);
    decides(core, caller, &two_made(), Some(Answer::Done))
        & decides(core, caller, &both_freed(), Some(Answer::Done))
        & decides(core, caller, &registers_cleared(), Some(Answer::Done))
        & decides(core, Seat::Host, &cycle_closed(), None)
}

/// What was freed before the `begin` is given back in that cycle, and what was freed after it stays. A third object
/// stands where the first one was.
#[test]
fn what_is_freed_after_the_begin_stays(rt: HostRuntime) {
    let mut core = new_core(rt.alloc()).expect(&rt, "memory");
    assert!(rt; comes_to_a_close(&mut core));
    let both = make(&mut core, Seat::Host, &[used(0)]);
    assert!(rt; both == Err(NotEnabled { condition: 7 }));
    assert!(rt; decides(&mut core, Seat::Host, &first_given_back(), None));
    let caller = Seat::Caller(0);
    assert!(rt; decides(&mut core, caller, &third_made(), Some(Answer::Done)));
    let shown = [Step::Enter(Op::IsNull { p: 2 }), Step::Reg, Step::Leave];
    assert!(rt; decides(&mut core, caller, &shown, Some(Answer::Num(0))));
}
