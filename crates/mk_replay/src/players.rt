//! A script that takes part in a run.
ghost use Rattle.std.specs.Prelude.{◌≡◌, ◌<◌, ◌+◌, ℕ, [], ◌∷◌, length, count_by, IfOk, OnOk, None};
ghost use Rattle.mk_check.specs.{Feed.is_refusal, Laws.IsScript, Declarations.config_of};
ghost use Rattle.mk_replay.specs.Replays.{IsReplayedText, Served, served_to, IsPlayerOf, TakesStep, FeedsOn};
ghost use Rattle.mk_replay.specs.Replays.{PlayerHasRoom};

use mk_check::{Checked, Feed, Text, is_refusal};
use mk_core::Answer;
use mk_never::NoMemory;
use std::alloc::Global;

/// A script, the answer that was decided in its call in flight, and the counts of its answers and of
/// those that refuse.
#[derive(Drop)]
pub(crate) struct Player {
    pub(crate) feed: Feed,
    pub(crate) kept: Option<Answer>,
    pub(crate) ops: u64,
    pub(crate) refused: u64,
}

/// Answers a script's operation; one that has ended takes none.
fn feed_on(feed: &mut Feed, alloc: Global, answer: Answer) -> Result<(), NoMemory>
    ensures { OnOk result (FeedsOn answer feed.old feed.new) }
{
    if feed.op().is_none() {
        return Ok(());
    }
    feed.answer(alloc, answer)
}

impl Player {
    ghost use Rattle.std.specs.Prelude.{List};
    ghost use Rattle.mk_core.specs.declared.events.Event.{Event};
    ghost use Rattle.mk_script.specs.declared.items.Item.{Item};

    /// Script `script` of a program, before its first answer.
    pub(crate) fn start(alloc: Global, program: &Checked, script: u64) -> Result<Player, NoMemory>
        requires { IsScript program.now script }
        ensures { IfOk result (IsPlayerOf program.now script (record { answers = []; kept = None })) }
    {
        Ok(Player {
            feed: Feed::start(alloc, program, script)?,
            kept: None,
            ops: 0,
            refused: 0,
        })
    }

    /// Counts an answer.
    fn count(&mut self, answer: Answer)
        requires { PlayerHasRoom self.old }
        ensures { self.new ≡ record self.old {
          ops = self.old.ops + 1;
          refused = count_by is_refusal (answer ∷ []) + self.old.refused;
        } }
    {
        self.ops += 1;
        if is_refusal(answer) {
            self.refused += 1;
        }
    }

    /// One of its steps, which may be its call's last one, and may decide an answer.
    pub(crate) fn follow(
        &mut self,
        alloc: Global,
        decided: Option<Answer>,
        is_last: bool,
    ) -> Result<(), NoMemory>
        requires { PlayerHasRoom self.old }
        ensures { OnOk result (TakesStep is_last decided self.old self.new) }
    {
        let kept = decided.or(self.kept);
        if !is_last {
            self.kept = kept;
            return Ok(());
        }
        self.kept = None;
        let Some(answer) = kept else {
            return Ok(());
        };
        feed_on(&mut self.feed, alloc, answer)?;
        self.count(answer);
        Ok(())
    }

    /// Its text so far.
    pub(crate) fn text(&self, alloc: Global) -> Result<Text, NoMemory>
        ensures { (program : List Item) (es : List Event) (k : ℕ)
            → IsPlayerOf program k (served_to (config_of program 8) es k) self.now
            → IfOk result (IsReplayedText program es k) }
    {
        Ok(Text {
            bytes: self.feed.text().to_vec(alloc)?,
            ops: self.ops,
            refused: self.refused,
        })
    }
}
