//! The stack as points: the operation of each, and where its answers lead.
ghost use Rattle.std.specs.Prelude.{ℕ, List, []};
ghost use Rattle.mk_never.specs.NeverHeap.{NeverState};
ghost use Rattle.mk_stack.specs.Stack.{stack_is_typed, stack_plan, HasNumbers, left_by};

use crate::jobs::{Done, Job};
use crate::points::Point;
use mk_core::GlobalTable;
use mk_jobs::{
    LINK, Linearizable, NODE_TYPE, NUMBER, Object, ROOT_TYPE, Step, exchange, free, if_null,
    linked_types, load, load_global, load_number, new, root_global, store, store_global,
    store_number, to_node,
};
use mk_never::{NoMemory, TypeTable};
use std::alloc::Global;

/// The register that points to the top, to the node that is pushed, to the one below the uppermost, and to that itself
const TOP: u8 = 0;

const NODE: u8 = 1;

const BELOW: u8 = 1;

const UPPERMOST: u8 = 2;

/// The global that points to the top
const STACK: u8 = 0;

/// The word of the top that points to the uppermost node
const FIRST: u64 = 0;

/// A stack of numbers.
pub struct Stack;

impl Object for Stack {
    type Job = Job;

    type Done = Done;

    type Point = Point;

    ghost State = { List ℕ };

    ghost plan = { stack_plan };

    ghost first = { [] };

    ghost left_by = { left_by };

    ghost content = { HasNumbers };

    fn types(alloc: Global) -> Result<TypeTable, NoMemory> {
        linked_types(alloc, vec![in alloc; to_node()]?)
    }

    fn globals(alloc: Global) -> Result<GlobalTable, NoMemory> {
        root_global(alloc)
    }

    fn registers() -> u8 {
        3
    }

    fn founding() -> Point {
        Point::Founding
    }

    fn starting(job: Job) -> Point {
        Point::Starting(job)
    }

    fn step(point: Point) -> Step<Point, Done> {
        use Point::*;
        match point {
            Founding => new(TOP, ROOT_TYPE, Placing, Founded),
            Placing => store_global(STACK, TOP, Founded),
            Founded => Step::End(Done::Empty),
            Starting(job) => load_global(TOP, STACK, Checking(job)),
            Checking(Job::Push(n)) => if_null(TOP, Ended(Done::Full), Making(n)),
            Checking(Job::Pop) => if_null(TOP, Ended(Done::Empty), Peeking),

            Making(n) => new(NODE, NODE_TYPE, Filling(n), Ended(Done::Full)),
            Filling(n) => store_number(NODE, NUMBER, n, Looking(n)),
            Looking(n) => load(UPPERMOST, TOP, FIRST, Linking(n)),
            Linking(n) => store(NODE, LINK, UPPERMOST, Publishing(n)),
            Publishing(n) => exchange(TOP, FIRST, UPPERMOST, NODE, Ended(Done::Pushed), Looking(n)),

            Peeking => load(UPPERMOST, TOP, FIRST, Testing),
            Testing => if_null(UPPERMOST, Ended(Done::Empty), Following),
            Following => load(BELOW, UPPERMOST, LINK, Taking),
            Taking => exchange(TOP, FIRST, UPPERMOST, BELOW, Freeing, Peeking),
            Freeing => free(UPPERMOST, Reading),
            Reading => load_number(UPPERMOST, NUMBER, Ended(Done::Popped(0))),
            Ended(done) => Step::End(done),
        }
    }

    fn with_number(point: Point, n: u64) -> Point {
        match point {
            Point::Ended(Done::Popped(_)) => Point::Ended(Done::Popped(n)),
            other => other,
        }
    }

    ghost typed = { stack_is_typed };
}

impl Linearizable for Stack {
    #[tactic(auto, using(crate::proofs::Kept::stack_is_explained))]
    fn explained() {}
}
