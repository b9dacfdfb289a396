//! A script that goes on after an answer at which nothing is printed. No memory is taken.
ghost use Rattle.std.specs.Prelude.{◌≡◌, ◌<◌, length, false, IsTrue};
ghost use Rattle.mk_check.specs.{Feeding.{ClosesToOp, LeavesToOp, MayTake, TakesLine}, Trees.sequels_of};
ghost use Rattle.mk_check.specs.Trees.{FramesAreWithin, HasStopped, IsTree, PlaceFits, PlaceIsWithin, node_at};
ghost use Rattle.mk_core.specs.declared.events.Answer.TheVariants as answer;

use crate::feeding::running::Running;
use crate::feeding::tree::{Frame, Node, Sequel, Sequels, Tree};
use mk_core::Answer;

impl Running {
    /// Leaves the innermost block for this node, if it asks for an operation. Returns whether it does.
    #[inline(never)]
    fn close_to_op(&mut self, tree: &Tree, next: usize) -> bool
        requires { next < length tree.now }
        ensures closed { IsTrue result → ClosesToOp tree.now next self.old self.new }
        ensures refused { result ≡ false → self.new ≡ self.old }
    {
        if !tree.asks(next) {
            return false;
        }
        self.close(next);
        true
    }

    /// Begins the next round of the innermost block, where that is a `repeat`, or leaves it where no round is left, if
    /// an operation comes next. Returns whether that is so.
    #[inline(always)]
    fn leave_to_op(&mut self, tree: &Tree) -> bool
        requires { FramesAreWithin (length tree.now) self.old.frames }
        ensures left { IsTrue result → LeavesToOp tree.now self.old self.new }
        ensures refused { result ≡ false → self.new ≡ self.old }
    {
        let Some(Frame::Rounds { rounds, body, next }) = self.innermost() else {
            return false;
        };
        if rounds == 0 {
            return self.close_to_op(tree, next);
        }
        if !tree.asks(body) {
            return false;
        }
        self.go_round(rounds - 1, body, next);
        true
    }

    /// Begins the first round of the `repeat` at this node, if an operation comes first in it. Returns whether that is
    /// so.
    #[inline(always)]
    fn begin_to_op(&mut self, tree: &Tree, next: usize) -> bool
        requires within { PlaceIsWithin (length tree.now) (record self.old { at = next }) }
        requires fits { PlaceFits tree.now (record self.old { at = next }) }
        ensures begun { IsTrue result → HasStopped tree.now (record self.old { at = next }) self.new }
        ensures refused { result ≡ false → self.new ≡ self.old }
    {
        let Node::Rounds {
            rounds,
            body,
            next: after,
        } = tree.node(next)
        else {
            return false;
        };
        if rounds == 0 || !tree.asks(body) {
            return false;
        }
        self.enter(rounds, body, after);
        true
    }

    /// Takes the number that is answered and goes on, where a register keeps it, and an operation or the end of a block
    /// comes next. Returns whether that is so.
    #[inline(always)]
    fn take_number_at_once(&mut self, tree: &Tree, sequels: &Sequels, value: u64) -> bool
        requires tree { IsTree tree.now }
        requires within { PlaceIsWithin (length tree.now) self.old }
        requires sequels { sequels.now ≡ sequels_of tree.now (node_at tree.now self.old.at) }
        ensures taken { IsTrue result → TakesLine tree.now (answer.Num value) self.old self.new }
        ensures refused { result ≡ false → self.new ≡ self.old }
    {
        if let Sequel::Ends = sequels.kept {
            let left = self.leave_to_op(tree);
            if left {
                self.set(sequels.register, value);
            }
            return left;
        }
        let Sequel::Asks = sequels.kept else {
            return false;
        };
        self.set(sequels.register, value);
        self.at = sequels.next;
        true
    }

    /// Goes on after an answer that no register keeps, where an operation, the end of a block, or a `repeat` whose
    /// rounds begin with an operation comes next. Returns whether that is so.
    #[inline(always)]
    fn go_on_at_once(&mut self, tree: &Tree, sequels: &Sequels, answer: Answer) -> bool
        requires tree { IsTree tree.now }
        requires may { MayTake tree.now answer self.old }
        requires sequels { sequels.now ≡ sequels_of tree.now (node_at tree.now self.old.at) }
        ensures taken { IsTrue result → TakesLine tree.now answer self.old self.new }
        ensures refused { result ≡ false → self.new ≡ self.old }
    {
        if let Sequel::Ends = sequels.unkept {
            return self.leave_to_op(tree);
        }
        if let Sequel::Begins = sequels.unkept {
            return self.begin_to_op(tree, sequels.next);
        }
        let Sequel::Asks = sequels.unkept else {
            return false;
        };
        self.at = sequels.next;
        true
    }

    /// Takes an answer and goes on to the next operation, also where other lines come before it. Returns whether it
    /// does. Few answers are such.
    #[inline(never)]
    fn go_on_further(&mut self, tree: &Tree, answer: Answer) -> bool
        requires may { MayTake tree.now answer self.old }
        ensures taken { IsTrue result → TakesLine tree.now answer self.old self.new }
        ensures refused { result ≡ false → self.new ≡ self.old }
    {
        let Node::Line {
            instruction,
            next,
            ..
        } = tree.node(self.at())
        else {
            return false;
        };
        if instruction.shows() {
            return false;
        }
        self.take_to_op(tree, next, instruction, answer)
    }

    /// Takes an answer and goes on to the next operation, where that comes before anything is printed, with at most one
    /// block left. Returns whether it does. Mostly an operation or the end of a block comes next, which `sequels` tell.
    #[inline(always)]
    pub fn answer_silently(&mut self, tree: &Tree, sequels: &Sequels, answer: Answer) -> bool
        requires tree { IsTree tree.now }
        requires within { PlaceIsWithin (length tree.now) self.old }
        requires fits { PlaceFits tree.now self.old }
        requires sequels { sequels.now ≡ sequels_of tree.now (node_at tree.now self.old.at) }
        ensures taken { IsTrue result → TakesLine tree.now answer self.old self.new }
        ensures refused { result ≡ false → self.new ≡ self.old }
    {
        match answer {
            Answer::Num(value) => {
                if self.take_number_at_once(tree, sequels, value) {
                    return true;
                }
                self.go_on_further(tree, answer)
            }
            Answer::Done | Answer::Word(_) => {
                if self.go_on_at_once(tree, sequels, answer) {
                    return true;
                }
                self.go_on_further(tree, answer)
            }
            _ => false,
        }
    }
}
