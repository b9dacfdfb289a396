//! The queue as points: the operation of each, and where its answers lead.
//!
//! A dequeue looks at head once a try. It loads head, and then the link of the node that it found; if that is null, it
//! answers Empty. Elsewhere a second look at head is needed, since the node could be freed in between, and its storage
//! be another node's. Here a register that points to a node keeps its storage from being used again, so the link that
//! is loaded is that node's. Head leaves a node only along its link, and a link that isn't null never changes. So if
//! the link is null, head still points to the node, and the queue is empty at that very load. The same is why an
//! exchange of head or tail needs no count beside the pointer.
//!
//! A caller that is stopped with an old dummy in a register keeps that node, and by the links all that were enqueued
//! since, from being released. So an enqueue may be Full while few numbers are queued.
ghost use Rattle.std.specs.Prelude.{ℕ, List, []};
ghost use Rattle.mk_never.specs.NeverHeap.{NeverState};
ghost use Rattle.mk_queue.specs.Queue.{queue_is_typed, queue_plan, HasNumbers, left_by};

use crate::jobs::{Done, Job};
use crate::points::Point;
use mk_core::GlobalTable;
use mk_jobs::{
    LINK, Linearizable, NODE_TYPE, NUMBER, Object, ROOT_TYPE, Step, exchange, free, if_null,
    linked_types, load, load_global, load_number, new, root_global, store, store_global,
    store_number, to_node,
};
use mk_never::{NoMemory, TypeTable};
use std::alloc::Global;

/// The register that points to the ends, to the node that is enqueued, to the head or tail that was loaded, and to what
/// its link points to
const ENDS: u8 = 0;

const NODE: u8 = 1;

const OLD: u8 = 2;

const NEXT: u8 = 3;

/// The global that points to the ends
const QUEUE: u8 = 0;

/// The words of the ends
const HEAD: u64 = 0;

const TAIL: u64 = 1;

/// A queue of numbers.
pub struct Queue;

impl Object for Queue {
    type Job = Job;

    type Done = Done;

    type Point = Point;

    ghost State = { List ℕ };

    ghost plan = { queue_plan };

    ghost first = { [] };

    ghost left_by = { left_by };

    ghost content = { HasNumbers };

    fn types(alloc: Global) -> Result<TypeTable, NoMemory> {
        linked_types(alloc, vec![in alloc; to_node(), to_node()]?)
    }

    fn globals(alloc: Global) -> Result<GlobalTable, NoMemory> {
        root_global(alloc)
    }

    fn registers() -> u8 {
        4
    }

    fn founding() -> Point {
        Point::Founding
    }

    fn starting(job: Job) -> Point {
        Point::Starting(job)
    }

    fn step(point: Point) -> Step<Point, Done> {
        use Point::*;
        match point {
            Founding => new(ENDS, ROOT_TYPE, Grounding, Founded),
            Grounding => new(NODE, NODE_TYPE, FirstHead, Dropping),
            Dropping => free(ENDS, Founded),
            FirstHead => store(ENDS, HEAD, NODE, FirstTail),
            FirstTail => store(ENDS, TAIL, NODE, Placing),
            Placing => store_global(QUEUE, ENDS, Founded),
            Founded => Step::End(Done::Empty),
            Starting(job) => load_global(ENDS, QUEUE, Checking(job)),
            Checking(Job::Enqueue(n)) => if_null(ENDS, Ended(Done::Full), Making(n)),
            Checking(Job::Dequeue) => if_null(ENDS, Ended(Done::Empty), Heading),

            Making(n) => new(NODE, NODE_TYPE, Filling(n), Ended(Done::Full)),
            Filling(n) => store_number(NODE, NUMBER, n, Loading(n)),
            Loading(n) => load(OLD, ENDS, TAIL, Following(n)),
            Following(n) => load(NEXT, OLD, LINK, Testing(n)),
            Testing(n) => if_null(NEXT, Linking(n), Helping(n)),
            Linking(n) => exchange(OLD, LINK, NEXT, NODE, Swinging, Loading(n)),
            Swinging => {
                let done = Ended(Done::Enqueued);
                exchange(ENDS, TAIL, OLD, NODE, done, done)
            }
            Helping(n) => exchange(ENDS, TAIL, OLD, NEXT, Loading(n), Loading(n)),

            Heading => load(OLD, ENDS, HEAD, Peeking),
            Peeking => load(NEXT, OLD, LINK, Asking),
            Asking => if_null(NEXT, Ended(Done::Empty), Taking),
            Taking => exchange(ENDS, HEAD, OLD, NEXT, Freeing, Heading),
            Freeing => free(OLD, Reading),
            Reading => load_number(NEXT, NUMBER, Ended(Done::Dequeued(0))),
            Ended(done) => Step::End(done),
        }
    }

    fn with_number(point: Point, n: u64) -> Point {
        match point {
            Point::Ended(Done::Dequeued(_)) => Point::Ended(Done::Dequeued(n)),
            other => other,
        }
    }

    ghost typed = { queue_is_typed };
}

impl Linearizable for Queue {
    #[tactic(auto, using(crate::proofs::Kept::queue_explained))]
    fn explained() {}
}
