//! A gate that the host holds: its caller's call is refused, and that of another caller is made.
ghost use Rattle.std.specs.Prelude.{◌≡◌, true};
ghost use Rattle.mk_run.specs.Below.Heaps.Hosts.{IsPassOf};
ghost use Rattle.mk_heap_tests.specs.HeldObjects.{AreOfTwo, IsHostsPass};

use crate::beginnings::Split;
use mk_run::lower::callers::Caller;

/// Clears a register, and says whether the caller's gate was open.
fn clear(caller: &mut Caller) -> bool
    requires home { caller.old.home ≡ true }
    requires whole { IsPassOf caller.old.pass.table caller.old.pass }
    ensures home { caller.new.home ≡ true }
    ensures pass { caller.new.pass ≡ record caller.old.pass { seen = caller.new.pass.seen } }
{
    caller.clear(0).is_ok()
}

/// Which calls are made: one of the first caller before its gate is held, another of it then, and one of the second
/// caller beside that.
#[derive(Clone, Copy)]
pub(crate) struct Made {
    pub(crate) before: bool,
    pub(crate) held: bool,
    pub(crate) beside: bool,
}

/// The host takes the turn and holds the first caller's gate.
pub(crate) fn hold_first(split: Split) -> Option<Made>
    requires host { IsHostsPass split.0 split.1 }
    requires callers { AreOfTwo split.0 split.2 split.3 }
{
    let (words, host, first, second) = split;
    let mut first = Caller::new(&words, first);
    let mut second = Caller::new(&words, second);
    let before = clear(&mut first);
    let made = match host.try_take(&words, None) {
        Ok(mut turn) => {
            let is_held = turn.try_hold(&words, 0).is_ok();
            let held = clear(&mut first);
            let beside = clear(&mut second);
            turn.abandon();
            if is_held {
                Some(Made {
                    before,
                    held,
                    beside,
                })
            } else {
                None
            }
        }
        Err(_back) => None,
    };
    let _passes = (first.finish(), second.finish());
    made
}

#[cfg(test)]
mod tests {
    use super::hold_first;
    use crate::beginnings::split_callers;
    use crate::configs::one_page;
    use mk_never::Kind;
    use mk_run::lower::callers::Refusal;

    #[test]
    fn a_gate_that_is_held_refuses_its_caller(rt: HostRuntime) {
        let config = one_page(rt.alloc(), 2, 0, &[Kind::Num]).expect(&rt, "memory");
        let split = split_callers(rt.alloc(), &config).expect(&rt, "memory");
        let made = hold_first(split).expect(&rt, "the gate");
        assert_eq!(rt; (made.before, made.held, made.beside), (true, false, true));
    }

    #[test]
    fn refusals_have_numbers(rt: HostRuntime) {
        let numbers = (
            Refusal::Fault as u8,
            Refusal::Null as u8,
            Refusal::Held as u8,
        );
        assert_eq!(rt; numbers, (1, 2, 4));
    }
}
