//! A script's lines as a tree, whose nodes name one another by their places.
ghost use Rattle.std.specs.Prelude.{◌≡◌, ◌<◌, ◌++◌, [], ◌∷◌, length, OnOk};

use crate::feeding::instructions::{Instruction, NumberRegister};
use mk_never::NoMemory;
use std::alloc::Global;
use std::marker::Model;

/// Where a script is: a line, a `repeat` or an `if`, and the node after it; or the end of a block.
#[derive(Clone, Copy)]
pub enum Node {
    Done,
    Line {
        line: u64,
        instruction: Instruction,
        next: usize,
    },
    Rounds {
        rounds: u64,
        body: usize,
        next: usize,
    },
    Choice {
        number: NumberRegister,
        first: usize,
        second: usize,
        next: usize,
    },
}

/// What runs after a block: more rounds of a `repeat`, or what stands after it.
#[derive(Clone, Copy, Drop)]
pub enum Frame {
    Rounds {
        rounds: u64,
        body: usize,
        next: usize,
    },
    Branch {
        next: usize,
    },
}

impl Default for Frame {
    fn default() -> Self {
        Frame::Branch { next: 0 }
    }
}

impl Frame {
    ghost use Rattle.mk_check.specs.Trees.{node_after};

    /// The node where a script goes on once the block's end is reached.
    pub fn node_after(self) -> usize
        ensures { result ≡ node_after self }
    {
        match self {
            Frame::Rounds { rounds, body, next } => { if rounds == 0 { next } else { body } }
            Frame::Branch { next } => next,
        }
    }
}

/// What comes next: a line that asks for an operation, the end of a block, or a `repeat`.
#[derive(Clone, Copy)]
pub enum Sequel {
    Asks,
    Ends,
    Begins,
    /// Something else.
    Other,
}

impl Sequel {
    ghost use Rattle.mk_check.specs.Trees.{sequel_to};

    /// What comes where this node is the next one.
    fn to(node: Node) -> Sequel
        ensures { result ≡ sequel_to node }
    {
        match node {
            Node::Line { instruction, .. } => {
                if instruction.asks() {
                    Sequel::Asks
                } else {
                    Sequel::Other
                }
            }
            Node::Done => Sequel::Ends,
            Node::Rounds { .. } => Sequel::Begins,
            Node::Choice { .. } => Sequel::Other,
        }
    }
}

/// What comes after a line that is answered and shows nothing, apart for an answer that a register keeps. Each is told
/// in one look, and the next node stands beside it.
#[derive(Clone, Copy)]
pub struct Sequels {
    pub next: usize,
    pub register: NumberRegister,
    /// After an answer that no register keeps.
    pub unkept: Sequel,
    /// After one that the register keeps.
    pub kept: Sequel,
}

impl Sequels {
    ghost use Rattle.mk_check.specs.Trees.{no_sequels, sequels_before};

    fn unknown() -> Sequels
        ensures { result ≡ no_sequels }
    {
        Sequels {
            next: 0,
            register: NumberRegister::at(0),
            unkept: Sequel::Other,
            kept: Sequel::Other,
        }
    }

    /// What comes after an instruction before this node.
    fn before(next: usize, node: Node, instruction: Instruction) -> Sequels
        ensures { result ≡ sequels_before next node instruction }
    {
        if instruction.shows() {
            return Sequels::unknown();
        }
        let sequel = Sequel::to(node);
        match instruction.keeping_register() {
            Some(register) => Sequels {
                next,
                register,
                unkept: Sequel::Other,
                kept: sequel,
            },
            None => Sequels {
                next,
                register: NumberRegister::at(0),
                unkept: sequel,
                kept: Sequel::Other,
            },
        }
    }
}

impl Node {
    ghost use Rattle.mk_check.specs.Trees.{instruction_of_node};

    /// The instruction of a line. Another node has none that asks for an operation.
    fn instruction(self) -> Instruction
        ensures { result ≡ instruction_of_node self }
    {
        match self {
            Node::Line { instruction, .. } => instruction,
            _ => Instruction::Nothing,
        }
    }
}

/// A node, its instruction, which is told there without a look at what the node is, what comes after it, and whether a
/// script there comes to an operation first.
#[derive(Clone, Copy)]
pub struct Spot {
    instruction: Instruction,
    node: Node,
    sequels: Sequels,
    asks_first: bool,
}

/// The nodes, each of which names those before it alone.
#[derive(Drop)]
pub struct Tree {
    spots: Vec<Spot>,
}

impl Model for Tree {
    ghost use Rattle.std.specs.Prelude.{List};
    ghost use Rattle.mk_check.specs.{declared.feeding.tree.Node.Node, Trees.{nodes_of, IsMarkedTree}};

    ghost Value = { List Node };

    ghost view = { λ t. nodes_of t.spots.items };

    ghost invariant = { λ t. IsMarkedTree t.spots.items };
}

impl Tree {
    ghost use Rattle.mk_check.specs.{Trees.{asks_at, instruction_of_node, sequels_of}, Steps.asks_first};
    ghost use Rattle.mk_check.specs.Trees.{IsTree, IsBelow, node_at, steps_at, steps_from, trees};

    /// A tree without nodes.
    pub fn new(alloc: Global) -> Tree
        ensures { result ≡ [] }
    {
        Tree {
            spots: Vec::new(alloc),
        }
    }

    /// How many nodes there are.
    pub fn count(&self) -> usize
        ensures { result ≡ length self.now }
    {
        self.spots.len()
    }

    /// One node more, which goes on with nodes before it.
    pub fn push(&mut self, node: Node) -> Result<(), NoMemory>
        requires { IsBelow (length self.old) node }
        ensures { OnOk result (self.new ≡ self.old ++ node ∷ []) }
    {
        let spot = Spot {
            instruction: node.instruction(),
            node,
            sequels: self.sequels_from(node),
            asks_first: self.asks_first_from(node),
        };
        Ok(self.spots.push(spot)?)
    }

    /// The node at this place.
    #[inline(always)]
    pub fn node(&self, at: usize) -> Node
        requires { at < length self.now }
        ensures value { result ≡ node_at self.now at }
        ensures tree { IsTree self.now }
    {
        self.spots[at].node
    }

    /// The instruction at a node, to be read in place.
    #[inline(always)]
    pub fn instruction(&self, at: usize) -> &Instruction
        requires { at < length self.now }
        ensures value { result.now ≡ instruction_of_node (node_at self.now at) }
        ensures tree { IsTree self.now }
    {
        &self.spots[at].instruction
    }

    /// Whether the node is a line that asks for an operation, which doesn't depend on the number registers.
    #[inline(always)]
    pub fn asks(&self, at: usize) -> bool
        requires { at < length self.now }
        ensures { result ≡ asks_at (node_at self.now at) }
    {
        self.instruction(at).asks()
    }

    /// What comes after a node that names these alone.
    fn sequels_from(&self, node: Node) -> Sequels
        requires { IsBelow (length self.now) node }
        ensures { result ≡ sequels_of self.now node }
    {
        match node {
            Node::Line {
                instruction,
                next,
                ..
            } => Sequels::before(next, self.node(next), instruction),
            _ => Sequels::unknown(),
        }
    }

    /// What comes after a node, to be read in place.
    #[inline(always)]
    pub fn sequels(&self, at: usize) -> &Sequels
        requires { at < length self.now }
        ensures value { result.now ≡ sequels_of self.now (node_at self.now at) }
        ensures tree { IsTree self.now }
    {
        &self.spots[at].sequels
    }

    /// Whether a script at a node that names these alone comes to an operation before it prints, and before a block
    /// ends.
    fn asks_first_from(&self, node: Node) -> bool
        requires { IsBelow (length self.now) node }
        ensures { result ≡ asks_first (steps_from (trees self.now) node) }
    {
        match node {
            Node::Done => false,
            Node::Line {
                instruction,
                next,
                ..
            } => instruction.asks() || (!instruction.prints() && self.asks_first(next)),
            Node::Rounds {
                rounds: 0,
                next,
                ..
            } => self.asks_first(next),
            Node::Rounds { body, .. } => self.asks_first(body),
            Node::Choice { first, second, .. } => self.asks_first(first) && self.asks_first(second),
        }
    }

    /// Whether a script at this node comes to an operation before it prints, and before a block ends.
    #[inline(always)]
    pub fn asks_first(&self, at: usize) -> bool
        requires { at < length self.now }
        ensures { result ≡ asks_first (steps_at (trees self.now) at) }
    {
        self.spots[at].asks_first
    }
}
