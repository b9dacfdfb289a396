//! A script that is fed with answers.
ghost use Rattle.std.specs.Prelude.{◌≡◌, ◌<◌, ◌↔◌, [], IsTrue, IsNone, IfOk, OnOk, OnErr};
ghost use Rattle.mk_check.specs.Laws.{IsScript};

mod building;
pub mod instructions;
mod running;
mod tree;

use crate::Checked;
use crate::numbering::NumberedScript;
use crate::scripts::script_at;
use building::tree_of;
use mk_core::Answer;
use mk_never::{NoMemory, Op};
use mk_script::Item;
use running::Running;
use std::alloc::Global;
use std::marker::Model;
use tree::{Node, Tree};

/// A script of a program that runs on given answers: it is at an operation that waits for its answer,
/// or at its end.
#[derive(Drop)]
pub struct Feed {
    tree: Tree,
    running: Running,
    /// Runs on in place of the script, so that no memory leaves that as it was.
    ahead: Running,
}

impl Model for Feed {
    ghost use Rattle.mk_check.specs.Feeding.{FeedState, IsFeed};

    ghost Value = { FeedState };

    ghost view = { λ f. record { nodes = f.tree; place = f.running } };

    ghost invariant = { λ f. IsFeed (record { nodes = f.tree; place = f.running }) };
}

impl Feed {
    ghost use Rattle.std.specs.Prelude.{ℕ, List, false};
    ghost use Rattle.mk_core.specs.declared.events.Answer.{Answer};
    ghost use Rattle.mk_script.specs.{declared.items.Item.Item, Grammar.IsOfSomeText};
    ghost use Rattle.mk_check.specs.Feed.{feed, has_ended, is_refusal};
    ghost use Rattle.mk_check.specs.Feeding.{next_op, work_left, FeedStandsFor, IsWaiting, TakesAnswer};
    ghost use Rattle.mk_check.specs.Feeding.{elements_of_script};

    /// Script `script` of a program, from 0 on, which has no answer yet.
    pub fn start(alloc: Global, program: &Checked, script: u64) -> Result<Feed, NoMemory>
        requires { IsScript program.now script }
        ensures { IfOk result (λ f. FeedStandsFor program.now script f []) }
    {
        let items = program.program().items();
        let numbered = NumberedScript::of_program(alloc, items, script)?;
        Feed::begin(alloc, items, script, &numbered)
    }

    fn begin(
        alloc: Global,
        items: &[Item],
        script: u64,
        numbered: &NumberedScript,
    ) -> Result<Feed, NoMemory>
        requires exists { IsScript items.now script }
        requires text { IsOfSomeText items.now }
        requires numbered { numbered.now ≡ elements_of_script items.now script }
        ensures { IfOk result (λ f. FeedStandsFor items.now script f []) }
    {
        let Some(lines) = script_at(items, script) else {
            unreachable!()
        };
        let (tree, at) = tree_of(alloc, lines.line, numbered.lines())?;
        let mut running = Running::begin(alloc, at, lines.name)?;
        running.run(alloc, &tree)?;
        Ok(Feed {
            tree,
            running,
            ahead: Running::empty(alloc),
        })
    }

    /// The operation that waits for its answer, with `full` false in a `New`; none at the end.
    #[inline(always)]
    pub fn op(&self) -> Option<Op>
        ensures next { (program : List Item) (k : ℕ) (answers : List Answer)
            → FeedStandsFor program k self.now answers → result ≡ next_op program k answers }
        ensures none { (program : List Item) (k : ℕ) (answers : List Answer)
            → FeedStandsFor program k self.now answers
            → IsNone result ↔ IsTrue (has_ended (feed program k answers)) }
    {
        let instruction = self.tree.instruction(self.running.at());
        self.running.asked(instruction)
    }

    /// Answers the operation that waits, and runs on to the next, or to the end.
    #[inline(always)]
    pub fn answer(&mut self, alloc: Global, answer: Answer) -> Result<(), NoMemory>
        requires { IsWaiting self.old }
        ensures ok { OnOk result (TakesAnswer self.old answer self.new) }
        ensures nearer { OnOk result (work_left self.new < work_left self.old) }
        ensures err { OnErr result (self.new ≡ self.old) }
    {
        if self.answer_at_once(answer) {
            return Ok(());
        }
        self.answer_ahead(alloc, answer)
    }

    /// Answers the operation that waits, if that refuses nothing, and the next one comes before anything is printed,
    /// with at most one block left. Returns whether it does. No memory is taken.
    #[inline(always)]
    pub fn answer_at_once(&mut self, answer: Answer) -> bool
        requires { IsWaiting self.old }
        ensures taken { IsTrue result → TakesAnswer self.old answer self.new }
        ensures nearer { IsTrue result → work_left self.new < work_left self.old }
        ensures accepted { IsTrue result → is_refusal answer ≡ false }
        ensures refused { result ≡ false → self.new ≡ self.old }
    {
        // Each kind has a way of its own, so that it is chosen where the answer is given, and not again.
        match answer {
            Answer::Num(_) => self.answer_silently(answer),
            Answer::Done => self.answer_silently(answer),
            Answer::Word(_) => self.answer_silently(answer),
            _ => false,
        }
    }

    /// Takes an answer and runs on, where the next operation comes before anything is printed, with at most one block
    /// left. Returns whether it does. No memory is taken.
    #[inline(always)]
    fn answer_silently(&mut self, answer: Answer) -> bool
        requires { IsWaiting self.old }
        ensures taken { IsTrue result → TakesAnswer self.old answer self.new }
        ensures nearer { IsTrue result → work_left self.new < work_left self.old }
        ensures refused { result ≡ false → self.new ≡ self.old }
    {
        let sequels = self.tree.sequels(self.running.at());
        self.running.answer_silently(&self.tree, sequels, answer)
    }

    /// Takes an answer and runs on, on a copy first, so that no memory leaves the script as it was.
    #[inline(never)]
    pub fn answer_ahead(&mut self, alloc: Global, answer: Answer) -> Result<(), NoMemory>
        requires { IsWaiting self.old }
        ensures ok { OnOk result (TakesAnswer self.old answer self.new) }
        ensures nearer { OnOk result (work_left self.new < work_left self.old) }
        ensures err { OnErr result (self.new ≡ self.old) }
    {
        let Node::Line {
            line,
            instruction,
            next,
        } = self.tree.node(self.running.at())
        else {
            unreachable!()
        };
        self.ahead.copy_at(&self.running, next);
        self.ahead.print_refusal(alloc, line, answer)?;
        self.ahead.take(instruction, answer)?;
        self.ahead.run(alloc, &self.tree)?;
        self.running.follow(&self.ahead)
    }

    /// The text so far.
    pub fn text(&self) -> &[u8]
        ensures { (program : List Item) (k : ℕ) (answers : List Answer)
            → FeedStandsFor program k self.now answers → result.now ≡ (feed program k answers).text }
    {
        self.running.text()
    }
}
