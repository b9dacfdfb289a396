//! A script's tree, built from its last line on.
ghost use Rattle.std.specs.Prelude.{◌≡◌, ℕ, ◌+◌, ◌<◌, ◌^◌, ◌++◌, [], ◌∷◌, length, IfOk, OnOk};
ghost use Rattle.mk_check.specs.{Building.steps_before, Steps.Done};
ghost use Rattle.mk_check.specs.Trees.{IsBelow, steps_at, trees};
ghost use Rattle.mk_check.specs.declared.feeding.instructions.Element.TheVariants as element;

use crate::feeding::instructions::{Element, Instruction, NumberRegister};
use crate::feeding::tree::{Node, Tree};
use mk_never::NoMemory;
use std::alloc::Global;
use std::marker::Model;

/// An open block by its nodes: its first line, and the first line of its second branch.
#[derive(Clone, Copy)]
pub struct Part {
    steps: usize,
    second: usize,
}

/// The node of a block that has no line.
const END: usize = 0;

/// A tree that is being built, with the open blocks, the outermost first.
#[derive(Drop)]
pub struct Builder {
    tree: Tree,
    parts: Vec<Part>,
}

impl Model for Builder {
    ghost use Rattle.mk_check.specs.Building.{Built};

    ghost Value = { Built };

    ghost view = { λ b. record { nodes = b.tree; parts = b.parts.items } };
}

impl Builder {
    ghost use Rattle.mk_check.specs.Building.{Built, IsSoundlyBuilt, parts_in, with_part, with_node_and_part, AddsLine};
    ghost use Rattle.mk_check.specs.Building.{innermost_steps};

    fn put(&mut self, part: Part) -> Result<(), NoMemory>
        ensures { OnOk result (self.new ≡ with_part self.old part.steps part.second) }
    {
        Ok(self.parts.push(part)?)
    }

    /// Adds a node, with which a block begins.
    fn grow(&mut self, node: Node, second: usize) -> Result<(), NoMemory>
        requires { IsBelow (length self.old.nodes) node }
        ensures { OnOk result (self.new ≡ with_node_and_part self.old node second) }
    {
        let steps = self.tree.count();
        self.tree.push(node)?;
        self.put(Part { steps, second })
    }

    /// No lines.
    pub fn start(alloc: Global) -> Result<Builder, NoMemory>
        ensures sound { IfOk result (λ b. IsSoundlyBuilt b) }
        ensures parts { IfOk result (λ b. parts_in b ≡ record { steps = Done; second = Done } ∷ []) }
    {
        let mut builder = Builder {
            tree: Tree::new(alloc),
            parts: Vec::new(alloc),
        };
        builder.grow(Node::Done, END)?;
        Ok(builder)
    }

    fn add_line(&mut self, line: u64, instruction: Instruction) -> Result<(), NoMemory>
        requires { IsSoundlyBuilt self.old }
        ensures { OnOk result (AddsLine line (element.Line instruction) self.old self.new) }
    {
        let Some(part) = self.parts.pop() else {
            return Ok(());
        };
        let node = Node::Line {
            line,
            instruction,
            next: part.steps,
        };
        self.grow(node, part.second)
    }

    fn add_repeat(&mut self, rounds: u64) -> Result<(), NoMemory>
        requires { IsSoundlyBuilt self.old }
        ensures { OnOk result ((line : ℕ) → AddsLine line (element.Repeat rounds) self.old self.new) }
    {
        let Some(body) = self.parts.pop() else {
            return Ok(());
        };
        let Some(part) = self.parts.pop() else {
            return Ok(());
        };
        let node = Node::Rounds {
            rounds,
            body: body.steps,
            next: part.steps,
        };
        self.grow(node, part.second)
    }

    fn add_if(&mut self, number: NumberRegister) -> Result<(), NoMemory>
        requires { IsSoundlyBuilt self.old }
        ensures { OnOk result ((line : ℕ) → AddsLine line (element.If number) self.old self.new) }
    {
        let Some(branches) = self.parts.pop() else {
            return Ok(());
        };
        let Some(part) = self.parts.pop() else {
            return Ok(());
        };
        let node = Node::Choice {
            number,
            first: branches.steps,
            second: branches.second,
            next: part.steps,
        };
        self.grow(node, part.second)
    }

    fn add_else(&mut self) -> Result<(), NoMemory>
        requires { IsSoundlyBuilt self.old }
        ensures { OnOk result ((line : ℕ) → AddsLine line element.Else self.old self.new) }
    {
        let Some(branch) = self.parts.pop() else {
            return Ok(());
        };
        self.put(Part {
            steps: END,
            second: branch.steps,
        })
    }

    fn add_end(&mut self) -> Result<(), NoMemory>
        requires { IsSoundlyBuilt self.old }
        ensures { OnOk result ((line : ℕ) → AddsLine line element.End self.old self.new) }
    {
        self.put(Part {
            steps: END,
            second: END,
        })
    }

    /// Adds a line before those that were added.
    pub fn add(&mut self, line: u64, element: Element) -> Result<(), NoMemory>
        requires { IsSoundlyBuilt self.old }
        ensures { OnOk result (AddsLine line element self.old self.new) }
    {
        match element {
            Element::Line(instruction) => self.add_line(line, instruction),
            Element::Repeat(rounds) => self.add_repeat(rounds),
            Element::If(number) => self.add_if(number),
            Element::Else => self.add_else(),
            Element::End => self.add_end(),
        }
    }

    /// The tree, and the node of its first line.
    pub fn finish(self) -> (Tree, usize)
        requires { IsSoundlyBuilt self }
        ensures steps { steps_at (trees result.0) result.1 ≡ innermost_steps (parts_in self) }
        ensures within { result.1 < length result.0 }
    {
        let Builder { tree, mut parts } = self;
        let first = match parts.pop() {
            Some(part) => part.steps,
            None => END,
        };
        (tree, first)
    }
}

/// The tree of a script's lines, the first of which has this number, and the node of its first line.
pub fn tree_of(alloc: Global, line: u64, elements: &[Element]) -> Result<(Tree, usize), NoMemory>
    requires lines { line + length elements.now < 2 ^ 64 }
    ensures steps { IfOk result (λ t. steps_at (trees t.0) t.1 ≡ steps_before line elements.now) }
    ensures within { IfOk result (λ t. t.1 < length t.0) }
{
    let mut builder = Builder::start(alloc)?;
    for index in (0..elements.len()).rev() {
        builder.add(line + index as u64, elements[index])?;
    }
    Ok(builder.finish())
}
