//! Calls under the turn, one step at a time: objects are placed until no place is left, and who finds the turn taken,
//! or its gate held, is told so.
ghost use Rattle.std.specs.Prelude.{◌≡◌, ◌<◌, length, IfSome};
ghost use Rattle.mk_core.specs.Moments.{IsWithinLimits};
ghost use Rattle.mk_run.specs.Below.Words.Steps.{IsEnabledTo};
ghost use Rattle.mk_heap_tests.specs.HeldObjects.{IsPassFor, IsTaken};
ghost use Rattle.mk_core.specs.declared.events.Step.TheVariants as step;

use crate::beginnings::split_callers;
use mk_core::Config;
use mk_never::{NoMemory, Op};
use mk_run::lower::objects::{Request, place_object};
use mk_run::lower::words::{Pass, Turn, Words, take_turn};
use std::alloc::Global;
use std::sync::Wait;

/// Takes the turn for what comes of it.
pub(crate) fn take<R: Wait>(rt: &R, words: &Words, home: Pass, op: Option<Op>) -> Turn
    requires one_table { home.table ≡ words.now }
    requires enabled { IsEnabledTo home (step.Take op) }
    ensures { IsTaken home op result.pass }
{
    let turn = take_turn(rt, words, home, op);
    turn.is_in_order();
    turn
}

/// Places an object of the first type, and gives the turn back. If there is no place, the turn is abandoned.
fn place<R: Wait>(rt: &R, words: &Words, home: Pass) -> Option<Pass>
    requires pass { IsPassFor words.now 0 home }
    requires exists { 0 < words.now.config.callers }
    requires ty { 0 < length words.now.config.types }
    ensures pass { IfSome result (λ back. IsPassFor words.now 0 back) }
{
    let op = Op::New {
        d: 0,
        ty: 0,
        full: false,
    };
    let mut turn = take(rt, words, home, Some(op));
    let placed = place_object(words, &mut turn, Request { register: 0, ty: 0 });
    if !placed {
        turn.abandon();
        return None;
    }
    Some(turn.give(words))
}

/// How many objects find a place, up to 100.
fn place_all<R: Wait>(rt: &R, words: &Words, home: Pass) -> u64
    requires pass { IsPassFor words.now 0 home }
    requires exists { 0 < words.now.config.callers }
    requires ty { 0 < length words.now.config.types }
{
    let mut pass = home;
    for count in 0..100 {
        match place(rt, words, pass) {
            Some(back) => pass = back,
            None => return count,
        }
    }
    100
}

/// How many objects of the first type find a place on a heap.
pub(crate) fn places<R: Wait>(rt: &R, alloc: Global, config: &Config) -> Result<u64, NoMemory>
    requires limits { IsWithinLimits config.now }
    requires two { config.now.callers ≡ 2 }
    requires ty { 0 < length config.now.types }
{
    let (words, _host, first, _second) = split_callers(alloc, config)?;
    Ok(place_all(rt, &words, first))
}

/// The operation for which callers take turns here.
const FREE: Op = Op::Free { p: 0 };

/// Who has the turn, as the other pass is told when the first has taken it, each for what it takes a turn for.
fn holder_told(
    words: &Words,
    first: Pass,
    for_first: Option<Op>,
    other: Pass,
    for_other: Option<Op>,
) -> Option<u64>
    requires one_table { (first.table ≡ words.now) × (other.table ≡ words.now) }
    requires first { IsEnabledTo first (step.Take for_first) }
    requires other { IsEnabledTo other (step.Take for_other) }
{
    let Ok(turn) = first.try_take(words, for_first) else {
        return None;
    };
    let told = match other.try_take(words, for_other) {
        Ok(second) => {
            second.abandon();
            None
        }
        Err((_pass, busy)) => Some(busy.holder),
    };
    turn.abandon();
    told
}

/// Who has the turn, as the first of two callers is told when the second, whose number is 1, has taken it, as it is
/// told when the host has, and as the host is told when the second has.
#[derive(Clone, Copy)]
pub(crate) struct Told {
    pub(crate) caller_to_caller: Option<u64>,
    pub(crate) host_to_caller: Option<u64>,
    pub(crate) caller_to_host: Option<u64>,
}

/// Each on words of its own.
pub(crate) fn holders(alloc: Global, config: &Config) -> Result<Told, NoMemory>
    requires limits { IsWithinLimits config.now }
    requires two { config.now.callers ≡ 2 }
    requires ty { 0 < length config.now.types }
{
    let (words, _host, first, second) = split_callers(alloc, config)?;
    let caller_to_caller = holder_told(&words, second, Some(FREE), first, Some(FREE));
    let (words, host, first, _second) = split_callers(alloc, config)?;
    let host_to_caller = holder_told(&words, host, None, first, Some(FREE));
    let (words, host, _first, second) = split_callers(alloc, config)?;
    let caller_to_host = holder_told(&words, second, Some(FREE), host, None);
    Ok(Told {
        caller_to_caller,
        host_to_caller,
        caller_to_host,
    })
}

#[cfg(test)]
mod tests {
    use super::{holders, places};
    use crate::configs::one_page;
    use mk_never::Kind;

    /// A page has 64 words, and so 32 cells of two.
    #[test]
    fn a_page_has_places_for_32_objects_of_two_words(rt: HostRuntime) {
        let config = one_page(rt.alloc(), 2, 0, &[Kind::Num, Kind::Num]).expect(&rt, "memory");
        let found = places(&rt, rt.alloc(), &config).expect(&rt, "memory");
        assert_eq!(rt; found, 32);
    }

    /// The host's number is that after the callers'.
    #[test]
    fn a_turn_that_is_taken_names_its_holder(rt: HostRuntime) {
        let config = one_page(rt.alloc(), 2, 0, &[Kind::Num]).expect(&rt, "memory");
        let told = holders(rt.alloc(), &config).expect(&rt, "memory");
        let to_callers = (told.caller_to_caller, told.host_to_caller);
        assert_eq!(rt;
            (to_callers, told.caller_to_host),
            ((Some(1), Some(2)), Some(1))
        );
    }
}
