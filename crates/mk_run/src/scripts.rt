//! The run of one script.
ghost use Rattle.std.specs.Prelude.{◌≡◌, ◌<◌, ℕ, List, ◌+◌, [], ◌∷◌, count_by, IfOk, OnOk, true, false};
ghost use Rattle.mk_core.specs.declared.events.Answer.{Answer};
ghost use Rattle.mk_script.specs.declared.items.Item.{Item};
ghost use Rattle.mk_heap.specs.Below.{Callers.States.caller_of_pass, Objects.Rooms.PassKeeps};
ghost use Rattle.mk_run.specs.Running.{IsReadyScript, answers_in, FollowsScript, EndsScript, IsTextOf};
ghost use Rattle.mk_run.specs.Running.{CountsHaveRoom, IsFedWith, ScriptTakesAnswer, script_of};
ghost use Rattle.mk_check.specs.{Declarations.config_of, Feed.feed as feed_with, Feeding.{IsWaiting, work_left}};
ghost use Rattle.mk_check.specs.Laws.{IsScript};

use crate::ready::ReadyScript;
use mk_check::{Checked, Feed, Text, is_refusal};
use mk_core::Answer;
use mk_heap::lower::callers::Caller;
use mk_heap::lower::cycles::Engine;
use mk_heap::{Pace, answer_at_once, answer_put_off};
use mk_never::NoMemory;
use std::alloc::Global;
use std::sync::Wait;
use std::thread::Threads;

/// How many answers a script has had, and how many of those refuse. They stand beside the script, so that a call need
/// not find them in memory again.
#[derive(Clone, Copy)]
struct Counts {
    ops: u64,
    refused: u64,
}

impl Counts {
    ghost use Rattle.mk_check.specs.Feed.{is_refusal};

    /// Counts an answer.
    #[inline(always)]
    fn count(&mut self, answer: Answer)
        requires { CountsHaveRoom self.old }
        ensures ops { self.new.ops ≡ self.old.ops + 1 }
        ensures refused { self.new.refused ≡ count_by is_refusal (answer ∷ []) + self.old.refused }
    {
        self.ops += 1;
        if is_refusal(answer) {
            self.refused += 1;
        }
    }

    /// Counts an answer that refuses nothing.
    #[inline(always)]
    fn count_accepted(&mut self, _answer: Answer)
        requires room { CountsHaveRoom self.old }
        requires accepted { is_refusal _answer ≡ false }
        ensures ops { self.new.ops ≡ self.old.ops + 1 }
        ensures refused { self.new.refused ≡ count_by is_refusal (_answer ∷ []) + self.old.refused }
    {
        self.ops += 1;
    }
}

/// Answers the operation that waits, and counts the answer. It may refuse, and something may be printed.
#[inline(always)]
fn take_any_answer(
    alloc: Global,
    feed: &mut Feed,
    counts: &mut Counts,
    answer: Answer,
) -> Result<(), NoMemory>
    requires waiting { IsWaiting feed.old }
    requires room { CountsHaveRoom counts.old }
    ensures takes { OnOk result
        (ScriptTakesAnswer answer (script_of feed.old counts.old) (script_of feed.new counts.new)) }
    ensures nearer { OnOk result (work_left feed.new < work_left feed.old) }
{
    feed.answer_ahead(alloc, answer)?;
    counts.count(answer);
    Ok(())
}

/// Answers the operation that waits, and counts the answer. Mostly the next operation comes at once. Then the answer
/// refuses nothing, so it needn't be looked at again.
#[inline(always)]
fn take_answer(
    alloc: Global,
    feed: &mut Feed,
    counts: &mut Counts,
    answer: Answer,
) -> Result<(), NoMemory>
    requires waiting { IsWaiting feed.old }
    requires room { CountsHaveRoom counts.old }
    ensures takes { OnOk result
        (ScriptTakesAnswer answer (script_of feed.old counts.old) (script_of feed.new counts.new)) }
    ensures nearer { OnOk result (work_left feed.new < work_left feed.old) }
{
    if feed.answer_at_once(answer) {
        counts.count_accepted(answer);
        return Ok(());
    }
    take_any_answer(alloc, feed, counts, answer)
}

/// Answers an operation that was put off, as `take_answer` does. Mostly it was done, which is told before all else.
#[inline(always)]
fn take_late_answer(
    alloc: Global,
    feed: &mut Feed,
    counts: &mut Counts,
    answer: Answer,
) -> Result<(), NoMemory>
    requires waiting { IsWaiting feed.old }
    requires room { CountsHaveRoom counts.old }
    ensures takes { OnOk result
        (ScriptTakesAnswer answer (script_of feed.old counts.old) (script_of feed.new counts.new)) }
    ensures nearer { OnOk result (work_left feed.new < work_left feed.old) }
{
    if let Answer::Done = answer {
        return take_answer(alloc, feed, counts, Answer::Done);
    }
    take_any_answer(alloc, feed, counts, answer)
}

/// The text of a script so far.
fn text_of(alloc: Global, feed: &Feed, counts: Counts) -> Result<Text, NoMemory>
    ensures bytes { (program : List Item) (k : ℕ) (answers : List Answer)
        → IsFedWith program k answers (script_of feed.now counts)
        → IfOk result (λ text. text.bytes.items ≡ (feed_with program k answers).text) }
    ensures counts { IfOk result (λ text. (text.ops ≡ counts.ops) × (text.refused ≡ counts.refused)) }
{
    Ok(Text {
        bytes: feed.text().to_vec(alloc)?,
        ops: counts.ops,
        refused: counts.refused,
    })
}

/// Runs a script to its end, or up to where no memory is left, between two calls. A call that finds its gate held is
/// tried again.
pub fn run_script<E: Engine, P: Pace, R: Threads + Wait + Sync>(
    rt: &R,
    alloc: Global,
    caller: &mut Caller,
    ready: ReadyScript<E>,
    program: &Checked,
    k: u64,
    pace: &P,
) -> Result<Text, NoMemory>
    requires home { caller.old.home ≡ true }
    requires number { caller_of_pass caller.old.pass ≡ k }
    requires alone { caller.old.pass.seats ≡ caller.old.pass.seat ∷ [] }
    requires script { IsScript program.now k }
    requires config { caller.old.pass.table.config ≡ config_of program.now caller.old.pass.table.config.markers }
    requires follows { FollowsScript E.ways.on program.now k caller.old.pass.table.config caller.old.pass.seen }
    requires no_call { answers_in caller.old.pass.table.config k caller.old.pass.seen ≡ [] }
    requires ready { IsReadyScript E.made_for program.now caller.old.pass.table.config.pages k ready }
    ensures home { caller.new.home ≡ true }
    ensures pass { caller.new.pass ≡ record caller.old.pass { seen = caller.new.pass.seen } }
    ensures follows { FollowsScript E.ways.on program.now k caller.new.pass.table.config caller.new.pass.seen }
    ensures ends { IfOk result (λ text. EndsScript program.now k caller.new.pass.table.config caller.new.pass.seen) }
    ensures text { IfOk result (IsTextOf program.now k caller.new.pass.table.config caller.new.pass.seen) }
    ensures keeps { PassKeeps false E.ways caller.old.pass caller.new.pass }
{
    // The program is well typed, so its scripts ask for nothing that isn't admitted.
    let _well_typed = program.program();
    let ReadyScript {
        mut feed,
        mut engine,
    } = ready;
    let mut counts = Counts { ops: 0, refused: 0 };
    'instructions: while let Some(op) = feed.op() {
        let instruction = counts.ops;
        pace.before(k, instruction);
        // Matched here and not by `answer_to`, so that each kind of answer goes on to the script by a way of its own.
        match answer_at_once(caller, op) {
            Some(answer) => {
                pace.answered(k, instruction);
                take_answer(alloc, &mut feed, &mut counts, answer)?;
            }
            None => {
                let answer = answer_put_off(rt, caller, &mut engine, op);
                pace.answered(k, instruction);
                take_late_answer(alloc, &mut feed, &mut counts, answer)?;
            }
        }
    }
    text_of(alloc, &feed, counts)
}
