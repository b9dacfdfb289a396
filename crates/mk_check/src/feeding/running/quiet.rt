//! A script that runs on to an operation that comes before anything is printed. No memory is taken.
ghost use Rattle.std.specs.Prelude.{◌≡◌, ◌<◌, length, true, false, IsTrue};
ghost use Rattle.mk_check.specs.{Steps.asks_first, Trees.{kept_in, with_kept, PlaceIsWithin, resumed_node, steps_at}};
ghost use Rattle.mk_check.specs.Trees.{trees, MovesOn, MovesToOp, HasStopped, PlaceFits};
ghost use Rattle.mk_check.specs.Steps as steps;

use crate::feeding::instructions::Instruction;
use crate::feeding::running::{Running, answered_number};
use crate::feeding::tree::{Node, Tree};
use mk_core::Answer;

impl Running {
    /// The instruction takes an answer at which it prints nothing, and the script is at another node. No memory is
    /// taken.
    fn take_at(&mut self, at: usize, instruction: Instruction, answer: Answer)
        requires { steps.is_silent instruction answer ≡ true }
        ensures { self.new ≡ with_kept (record self.old { at = at })
            (steps.after_answer instruction answer (kept_in self.old)) }
    {
        match instruction {
            Instruction::GetNum { number, .. }
            | Instruction::CasPtr { number, .. }
            | Instruction::Same { number, .. }
            | Instruction::IsNull { number, .. } => {
                self.set(number, answered_number(answer));
            }
            _ => {}
        }
        self.at = at;
    }

    /// The node where a script at this one goes on: at the end of a block, where it goes on after that.
    #[inline(always)]
    fn resumed_node(&self, tree: &Tree, at: usize) -> usize
        requires { at < length tree.now }
        ensures { result ≡ resumed_node tree.now (record self.now { at = at }) }
    {
        match tree.node(at) {
            Node::Done => match self.innermost() {
                Some(frame) => frame.node_after(),
                None => at,
            },
            _ => at,
        }
    }

    /// Leaves the block that ends here, if one does.
    #[inline(always)]
    fn resume(&mut self, tree: &Tree)
        requires within { PlaceIsWithin (length tree.now) self.old }
        requires first { asks_first (steps_at (trees tree.now) (resumed_node tree.now self.old)) ≡ true }
        ensures { MovesToOp tree.now self.old self.new }
    {
        match tree.node(self.at) {
            Node::Done => {
                self.leave();
            }
            _ => {}
        }
    }

    /// Runs a line that asks for no operation, or begins a block.
    #[tactic(auto, using(crate::proofs::AsksFirst::step_to_op_facts))]
    fn step_to_op(&mut self, tree: &Tree) -> bool
        requires within { PlaceIsWithin (length tree.now) self.old }
        requires fits { PlaceFits tree.now self.old }
        requires first { asks_first (steps_at (trees tree.now) self.old.at) ≡ true }
        ensures goes_on { IsTrue result → MovesOn tree.now self.old self.new }
        ensures first { IsTrue result → asks_first (steps_at (trees tree.now) self.new.at) ≡ true }
        ensures stops { result ≡ false → HasStopped tree.now self.old self.new }
    {
        match tree.node(self.at) {
            Node::Line {
                instruction,
                next,
                ..
            } => {
                if instruction.asks() {
                    return false;
                }
                self.at = next;
                self.calculate(instruction);
                true
            }
            Node::Done => unreachable!(),
            block => {
                self.begin_block(block);
                true
            }
        }
    }

    /// Runs to the operation that comes first.
    fn run_to_op(&mut self, tree: &Tree)
        requires within { PlaceIsWithin (length tree.now) self.old }
        requires fits { PlaceFits tree.now self.old }
        requires first { asks_first (steps_at (trees tree.now) self.old.at) ≡ true }
        ensures { HasStopped tree.now self.old self.new }
    {
        while self.step_to_op(tree) {}
    }

    /// Whether the script comes from this node to an operation before anything is printed, with at most one block left.
    #[inline(always)]
    fn comes_to_op(&self, tree: &Tree, at: usize) -> bool
        requires { PlaceIsWithin (length tree.now) (record self.now { at = at }) }
        ensures { result ≡ asks_first (steps_at (trees tree.now)
            (resumed_node tree.now (record self.now { at = at }))) }
    {
        tree.asks_first(self.resumed_node(tree, at))
    }

    /// Runs on to that operation. No memory is taken.
    #[inline(always)]
    fn run_on_to_op(&mut self, tree: &Tree)
        requires within { PlaceIsWithin (length tree.now) self.old }
        requires fits { PlaceFits tree.now self.old }
        requires first { asks_first (steps_at (trees tree.now) (resumed_node tree.now self.old)) ≡ true }
        ensures { HasStopped tree.now self.old self.new }
    {
        self.resume(tree);
        self.run_to_op(tree);
    }

    /// Takes an answer at which nothing is printed and runs on from the node after it to the next operation, if that
    /// comes before anything is printed, with at most one block left. Returns whether it does. No memory is taken.
    pub fn take_to_op(
        &mut self,
        tree: &Tree,
        next: usize,
        instruction: Instruction,
        answer: Answer,
    ) -> bool
        requires within { PlaceIsWithin (length tree.now) (record self.old { at = next }) }
        requires fits { PlaceFits tree.now (record self.old { at = next }) }
        requires silent { steps.is_silent instruction answer ≡ true }
        ensures taken { IsTrue result → HasStopped tree.now (with_kept (record self.old { at = next })
            (steps.after_answer instruction answer (kept_in self.old))) self.new }
        ensures refused { result ≡ false → self.new ≡ self.old }
    {
        if !self.comes_to_op(tree, next) {
            return false;
        }
        self.take_at(next, instruction, answer);
        self.run_on_to_op(tree);
        true
    }
}
