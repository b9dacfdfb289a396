//! The outcome of a run.

use mk_check::Text;
use mk_heap::Report;

/// The scripts' texts, in the order of the program, and the report on the heap, which is closed.
#[derive(Drop)]
pub struct Outcome {
    pub texts: Vec<Text>,
    pub report: Report,
}
