//! Small programs over the calls of the heap.
//! What each call asks, earlier ones ensure; so a program knows what it gets back, whatever others do.
//! Start with `lives`: a caller's whole life, in one thread; then `moves` and `numbers`.
#![tactic(auto)]

mod accesses;
mod callers_at_once;
mod calls;
mod clearing;
mod engines;
mod hosts;
mod laws;
mod lives;
mod making;
mod markers;
mod marking;
mod moves;
mod numbers;
mod outcomes;
mod runs;
mod side_by_side;
mod stops;
mod sweeps;
mod turns;

pub use callers_at_once::clear_at_once;
pub use laws::owned_numbers_stay;
pub use making::make_number;
pub use moves::{
    first_register_is_null, moves_through_global, moves_through_memory, moves_through_registers,
    takes_out_of_global,
};
pub use numbers::{load, number_in_new_object, store, store_and_load};
pub use outcomes::{Loaded, Unfinished};
pub use runs::{TwoNumbers, two_numbers};
pub use side_by_side::numbers_at_once;
