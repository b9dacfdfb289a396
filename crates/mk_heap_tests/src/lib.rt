//! Tests of the running heap, with real threads.
//! It promises nothing: the tests try what no clause says.
//! Start with `rows`, then `lists` and `shared`.
#![tactic(auto)]

#[cfg(test)]
mod beginnings;
#[cfg(test)]
mod callers;
#[cfg(test)]
mod configs;
#[cfg(test)]
mod cores;
#[cfg(test)]
mod frees;
#[cfg(test)]
mod gates;
#[cfg(test)]
mod large_runs;
#[cfg(test)]
mod late_markers;
#[cfg(test)]
mod lists;
#[cfg(test)]
mod moves;
#[cfg(test)]
mod objects;
#[cfg(test)]
mod queues;
#[cfg(test)]
mod reports;
#[cfg(test)]
mod retiring;
#[cfg(test)]
mod rows;
#[cfg(test)]
mod runs;
#[cfg(test)]
mod shared;
#[cfg(test)]
mod stacks;
#[cfg(test)]
mod turns;
