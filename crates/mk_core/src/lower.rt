//! What stands on this crate finds here the crates below it.
pub use mk_books as books;
