//! Making objects.
ghost use Rattle.std.specs.Prelude.{◌≡◌, ◌<◌, ◌∷◌, [], OnOk, IfErr, IfSome, Some, true, false, length};
ghost use Rattle.mk_caller.specs.States.{caller_of_pass};
ghost use Rattle.mk_alloc.specs.Rooms.{CountsFull, NeedsRoom, RunsOne, Seeks, answer_with};
ghost use Rattle.mk_alloc.specs.{TurnCalls.{CalledInTurn, IsAnsweredFull, MayTakeTurns}, Rooms.PassKeeps};
ghost use Rattle.mk_never.specs.declared.operations.Op.TheVariants as op;
ghost use Rattle.mk_core.specs.declared.events.Answer.TheVariants as answer;

use crate::fulls::answer_full;
use crate::objects::Request;
use crate::rooms::{make_room, try_place};
use crate::turns::{give, take};
use mk_caller::Caller;
use mk_caller::lower::words::{Turn, Words};
use mk_core::lower::books::census;
use mk_cycle::Engine;
use mk_geom::Census;
use mk_never::Op;
use std::sync::Wait;
use std::thread::Threads;

/// Nothing fits, and these are the counts.
#[derive(Clone, Copy, Debug)]
pub struct Full {
    pub census: Census,
}

/// Makes room for the object, which fits nowhere, and grants it. If it can't be made to fit, the New is answered Full,
/// and the counts of that moment are returned.
#[inline(always)]
fn make_room_or_count<E: Engine, R: Threads + Wait + Sync>(
    rt: &R,
    words: &Words,
    turn: Turn,
    request: Request,
    engine: &mut E,
) -> (Turn, Option<Census>)
    requires needs { NeedsRoom words.now (E.made_for engine.old) turn.pass request }
    ensures made_for { E.made_for engine.new ≡ E.made_for engine.old }
    ensures seeks { Seeks (Some (answer_with result.1)) turn.pass result.0.pass }
    ensures full { IfSome result.1 (CountsFull turn.pass result.0.pass) }
    ensures one { RunsOne turn.pass result.0.pass }
    ensures keeps { PassKeeps false E.ways turn.pass result.0.pass }
{
    let (mut turn, placed) = make_room(rt, words, turn, request, engine);
    if placed {
        return (turn, None);
    }
    let census = census(turn.pages());
    answer_full(words, &mut turn);
    (turn, Some(census))
}

/// Sets a register to a new object of a type, whose words are 0. If nothing fits, a cycle that is on is finished, and
/// then one more is begun and finished, before the answer is `Full`. Directly after a `begin` the engine does its part.
pub fn new_object<E: Engine, R: Threads + Wait + Sync>(
    rt: &R,
    caller: &mut Caller,
    engine: &mut E,
    d: u8,
    ty: u64,
) -> Result<(), Full>
    requires may { MayTakeTurns (E.made_for engine.old) caller.old }
    requires register { d < 8 }
    requires ty { ty < length caller.old.pass.table.config.types }
    ensures home { caller.new.home ≡ true }
    ensures made_for { E.made_for engine.new ≡ E.made_for engine.old }
    ensures made { OnOk result (CalledInTurn E.ways.on caller.old.pass (op.New d ty false)
        answer.Done caller.new.pass) }
    ensures full { IfErr result (λ full.
        IsAnsweredFull E.ways.on caller.old.pass (op.New d ty false) full.census caller.new.pass) }
    ensures keeps { PassKeeps false E.ways caller.old.pass caller.new.pass }
{
    let words = caller.words();
    let home = caller.lend();
    let op = Op::New { d, ty, full: false };
    let request = Request { register: d, ty };
    let mut turn = take(rt, words, home, op);
    if try_place(words, &mut turn, request) {
        caller.back(give(words, turn));
        return Ok(());
    }
    let (turn, refused) = make_room_or_count(rt, words, turn, request, engine);
    caller.back(give(words, turn));
    words.let_late_first();
    match refused {
        None => Ok(()),
        Some(census) => Err(Full { census }),
    }
}
