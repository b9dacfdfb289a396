//! A script that runs.
ghost use Rattle.std.specs.Prelude.{◌≡◌, ◌+◌, ◌-◌, ◌<◌, ◌≤◌, ◌++◌, [], ◌∷◌, true, false, length, slice_index};
ghost use Rattle.std.specs.Prelude.{slice_set, take, IsTrue, IfOk, OnOk, OnErr, is_some, replicate, codes};
ghost use Rattle.mk_check.specs.{Feed.{newline, answered_number}, Trees.{kept_in, with_kept, PlaceIsWithin}};
ghost use Rattle.mk_check.specs.Trees.{place_in_rounds, innermost, place_in_block, place_in_branch, LeavesBlock};
ghost use Rattle.mk_check.specs.Trees.{HasStopped, MovesOn, PlaceFits};
ghost use Rattle.mk_check.specs.Steps as steps;
ghost use Rattle.mk_check.specs.declared.feeding.tree.Frame.TheVariants as frame;

mod at_once;
mod printing;
mod quiet;

use crate::feeding::instructions::{Instruction, NUMBER_REGISTERS, NumberRegister};
use crate::feeding::tree::{Frame, Node, Tree};
use arrayvec::ArrayVec;
use mk_core::Answer;
use mk_never::{NoMemory, Op};
use mk_script::Name;
use std::alloc::Global;
use std::marker::Model;

/// Where a script is: its node, its open blocks, the outermost first, its number registers, and its
/// text so far.
#[derive(Drop)]
pub struct Running {
    at: usize,
    frames: ArrayVec<Frame, 32>,
    numbers: [u64; NUMBER_REGISTERS],
    text: Vec<u8>,
}

impl Model for Running {
    ghost use Rattle.mk_check.specs.Trees.{Place};

    ghost Value = { Place };

    ghost view = { λ r. record { at = r.at; frames = r.frames.items; numbers = r.numbers; text = r.text.items } };
}

fn answered_number(answer: Answer) -> u64
    ensures { result ≡ answered_number answer }
{
    match answer {
        Answer::Num(number) => number,
        _ => 0,
    }
}

fn copy_frames(to: &mut ArrayVec<Frame, 32>, from: &ArrayVec<Frame, 32>)
    ensures { to.new.items ≡ from.now.items }
{
    to.clear();
    if to.try_extend_from_slice(from.as_slice()).is_err() {
        unreachable!()
    }
}

impl Running {
    /// A script before its first line.
    pub fn begin(alloc: Global, at: usize, name: &Name) -> Result<Running, NoMemory>
        ensures { IfOk result (λ r. r ≡ record {
          at = at;
          frames = [];
          numbers = replicate 9 0;
          text = codes "script " ++ (name.now ++ newline);
        }) }
    {
        let mut running = Running {
            at,
            frames: ArrayVec::new(),
            numbers: [0; NUMBER_REGISTERS],
            text: Vec::new(alloc),
        };
        running.print(b"script ")?;
        running.print(name.as_bytes())?;
        running.print(b"\n")?;
        Ok(running)
    }

    /// Room for a script, which takes no memory yet.
    pub fn empty(alloc: Global) -> Running
        ensures { result ≡ record { at = 0; frames = []; numbers = replicate 9 0; text = [] } }
    {
        Running {
            at: 0,
            frames: ArrayVec::new(),
            numbers: [0; NUMBER_REGISTERS],
            text: Vec::new(alloc),
        }
    }

    /// Goes to where another is, with its own text. No memory is taken.
    fn go_to(&mut self, other: &Running)
        ensures { self.new ≡ record other.now { text = self.old.text } }
    {
        self.at = other.at;
        copy_frames(&mut self.frames, &other.frames);
        self.numbers = other.numbers;
    }

    /// Becomes a copy of another at another node, with no text. No memory is taken.
    pub fn copy_at(&mut self, other: &Running, at: usize)
        ensures { self.new ≡ record other.now { at = at; text = [] } }
    {
        self.go_to(other);
        self.at = at;
        self.text.clear();
    }

    /// Goes to where another is, with its text after the text so far.
    pub fn follow(&mut self, later: &Running) -> Result<(), NoMemory>
        ensures ok { OnOk result (self.new ≡ record later.now { text = self.old.text ++ later.now.text }) }
        ensures err { OnErr result (self.new ≡ self.old) }
    {
        self.print(&later.text)?;
        self.go_to(later);
        Ok(())
    }

    /// The node that comes next.
    #[inline(always)]
    pub fn at(&self) -> usize
        ensures { result ≡ self.now.at }
    {
        self.at
    }

    #[inline(always)]
    fn number(&self, number: NumberRegister) -> u64
        ensures { result ≡ slice_index self.now.numbers number }
    {
        self.numbers[number.place()]
    }

    #[inline(always)]
    fn set(&mut self, number: NumberRegister, value: u64)
        ensures { self.new ≡ record self.old { numbers = slice_set self.old.numbers number value } }
    {
        self.numbers[number.place()] = value;
    }

    /// The operation that an instruction asks for.
    #[inline(always)]
    pub fn asked(&self, instruction: &Instruction) -> Option<Op>
        ensures { result ≡ steps.op_asked self.now.numbers instruction.now }
    {
        match *instruction {
            Instruction::New { d, ty } => Some(Op::New { d, ty, full: false }),
            Instruction::Free { p } => Some(Op::Free { p }),
            Instruction::GetPtr { d, q, i } => Some(Op::GetPtr { d, q, i }),
            Instruction::SetPtr { q, i, p } => Some(Op::SetPtr { q, i, p }),
            Instruction::Lea { d, q, i } => Some(Op::Lea { d, q, i }),
            Instruction::Move { d, q } => Some(Op::Move { d, q }),
            Instruction::Clear { d } => Some(Op::Clear { d }),
            Instruction::GetGlobal { d, g } => Some(Op::GetGlobal { d, g }),
            Instruction::SetGlobal { g, p } => Some(Op::SetGlobal { g, p }),
            Instruction::SetNum { q, number, i } => Some(Op::SetNum {
                q,
                i,
                n: self.number(number),
            }),
            Instruction::GetNum { q, i, .. } => Some(Op::GetNum { q, i }),
            Instruction::CasPtr { q, p, r, i, .. } => Some(Op::CasPtr { q, i, p, r }),
            Instruction::Same { p, q, .. } => Some(Op::Same { p, q }),
            Instruction::IsNull { p, .. } => Some(Op::IsNull { p }),
            Instruction::Show { p } => Some(Op::IsNull { p }),
            _ => None,
        }
    }

    /// Runs an instruction that prints nothing.
    fn calculate(&mut self, instruction: Instruction)
        requires { steps.is_print instruction ≡ false }
        ensures { self.new ≡ with_kept self.old (steps.after_line instruction (kept_in self.old)) }
    {
        match instruction {
            Instruction::Const { number, value } => self.set(number, value),
            Instruction::Add {
                number,
                left,
                right,
            } => self.set(number, self.number(left).wrapping_add(self.number(right))),
            Instruction::Sub {
                number,
                left,
                right,
            } => self.set(number, self.number(left).wrapping_sub(self.number(right))),
            _ => {}
        }
    }

    /// Runs an instruction that asks for no operation.
    fn run_line(&mut self, alloc: Global, instruction: Instruction) -> Result<(), NoMemory>
        ensures { OnOk result (self.new ≡ with_kept self.old (steps.after_line instruction (kept_in self.old))) }
    {
        match instruction {
            Instruction::Print { number } => {
                self.print_number(alloc, self.number(number))?;
                self.print(b"\n")?;
            }
            _ => self.calculate(instruction),
        }
        Ok(())
    }

    fn open(&mut self, frame: Frame)
        requires { length self.old.frames < 32 }
        ensures { self.new ≡ record self.old { frames = self.old.frames ++ frame ∷ [] } }
    {
        self.frames.push(frame);
    }

    /// Begins a round, or goes on after the `repeat` where no round is left.
    fn enter(&mut self, rounds: u64, body: usize, next: usize)
        requires { length self.old.frames < 32 }
        ensures { self.new ≡ place_in_rounds self.old rounds body next }
    {
        if rounds == 0 {
            self.at = next;
            return;
        }
        self.open(Frame::Rounds {
            rounds: rounds - 1,
            body,
            next,
        });
        self.at = body;
    }

    /// Begins a branch.
    fn choose(&mut self, number: NumberRegister, first: usize, second: usize, next: usize)
        requires { length self.old.frames < 32 }
        ensures { self.new ≡ place_in_branch self.old number first second next }
    {
        self.at = if self.number(number) == 0 {
            second
        } else {
            first
        };
        self.open(Frame::Branch { next });
    }

    /// Begins the block of the node, if there is one.
    fn begin_block(&mut self, node: Node)
        requires { length self.old.frames < 32 }
        ensures { self.new ≡ place_in_block self.old node }
    {
        match node {
            Node::Rounds { rounds, body, next } => self.enter(rounds, body, next),
            Node::Choice {
                number,
                first,
                second,
                next,
            } => self.choose(number, first, second, next),
            _ => {}
        }
    }

    /// The innermost open block goes on with these rounds left, after its node.
    #[inline(always)]
    fn go_round(&mut self, rounds: u64, body: usize, next: usize)
        requires { 0 < length self.old.frames }
        ensures { self.new ≡ record self.old {
          at = body;
          frames = slice_set self.old.frames (length self.old.frames - 1) (frame.Rounds rounds body next);
        } }
    {
        let innermost = self.frames.len() - 1;
        self.frames[innermost] = Frame::Rounds { rounds, body, next };
        self.at = body;
    }

    /// The innermost open block ends.
    fn close(&mut self, next: usize)
        ensures { self.new ≡ record self.old { at = next; frames = take (length self.old.frames - 1) self.old.frames } }
    {
        self.frames.pop();
        self.at = next;
    }

    /// The innermost open block.
    #[inline(always)]
    fn innermost(&self) -> Option<Frame>
        ensures { result ≡ innermost self.now.frames }
    {
        self.frames.last().copied()
    }

    /// Leaves the innermost open block, if there is one, or begins its next round. No memory is taken.
    fn leave(&mut self) -> bool
        ensures left { IsTrue result → LeavesBlock self.old self.new }
        ensures none { result ≡ false → (self.old.frames ≡ []) × (self.new ≡ self.old) }
    {
        match self.innermost() {
            Some(Frame::Rounds { rounds, body, next }) if rounds > 0 => {
                self.go_round(rounds - 1, body, next);
                true
            }
            Some(Frame::Rounds { next, .. }) => {
                self.close(next);
                true
            }
            Some(Frame::Branch { next }) => {
                self.close(next);
                true
            }
            None => false,
        }
    }

    /// Moves on, unless it is at an operation or at the end.
    #[tactic(auto, using(crate::proofs::TreeNodes::found_block, crate::proofs::Moves::block_finds_room))]
    fn step(&mut self, alloc: Global, tree: &Tree) -> Result<bool, NoMemory>
        requires within { PlaceIsWithin (length tree.now) self.old }
        requires fits { PlaceFits tree.now self.old }
        ensures goes_on { IfOk result (λ more. IsTrue more → MovesOn tree.now self.old self.new) }
        ensures stops { IfOk result (λ more. more ≡ false → HasStopped tree.now self.old self.new) }
    {
        match tree.node(self.at) {
            Node::Done => Ok(self.leave()),
            Node::Line {
                instruction,
                next,
                ..
            } => {
                if self.asked(&instruction).is_some() {
                    return Ok(false);
                }
                self.at = next;
                self.run_line(alloc, instruction)?;
                Ok(true)
            }
            block => {
                self.begin_block(block);
                Ok(true)
            }
        }
    }

    /// Runs on to the next operation, or to the end.
    pub fn run(&mut self, alloc: Global, tree: &Tree) -> Result<(), NoMemory>
        requires within { PlaceIsWithin (length tree.now) self.old }
        requires fits { PlaceFits tree.now self.old }
        ensures { OnOk result (HasStopped tree.now self.old self.new) }
    {
        while self.step(alloc, tree)? {}
        Ok(())
    }

    /// The instruction takes its answer.
    pub fn take(&mut self, instruction: Instruction, answer: Answer) -> Result<(), NoMemory>
        ensures { OnOk result (self.new ≡ with_kept self.old
            (steps.after_answer instruction answer (kept_in self.old))) }
    {
        match instruction {
            Instruction::GetNum { number, .. }
            | Instruction::CasPtr { number, .. }
            | Instruction::Same { number, .. }
            | Instruction::IsNull { number, .. } => self.set(number, answered_number(answer)),
            Instruction::Show { .. } => {
                let shown: &[u8] = if answered_number(answer) == 0 {
                    b"ptr\n"
                } else {
                    b"null\n"
                };
                self.print(shown)?;
            }
            _ => {}
        }
        Ok(())
    }
}
