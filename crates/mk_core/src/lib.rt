//! The events of a heap's history over plain words: which may come next, what each leaves, and what callers see.
//! `Core` is a machine of one thread that does just what the definitions say, on which all promises rest.
//! Start with `events`, the steps of all seats; then `specs/History.antt` and `specs/Enabled.antt`.
#![tactic(auto)]

mod accesses;
mod bounded;
mod calls;
mod cells;
mod config;
mod effects;
mod events;
mod failing;
mod gates;
mod history_laws;
mod laws;
pub mod lower;
mod machine;
mod marker_conditions;
mod order;
mod phases;
mod placing;
mod ranges;
mod reaching;
mod scans;
mod seats;
mod stepping;
mod stop_conditions;
mod storage_laws;
mod table;
mod turn_conditions;

pub use accesses::{Access, TableWord};
pub use calls::is_under_turn;
pub use cells::{
    bit, bit_for, cells_under, has_bit, has_cell, has_no_pointers, lowest_bit, without,
    words_scanned, words_under,
};
pub use config::{Config, GlobalTable};
pub use events::{Answer, Event, NotEnabled, Seat, Step, Tally, Word};
pub use gates::Gate;
pub use history_laws::{
    bits_and_sizes_agree, enabled_events_meet_all_conditions, histories_are_of_two_parts,
    what_is_touched,
};
pub use laws::{line_groups_stand_apart, words_are_one_list, words_have_indexes_of_their_own};
pub use machine::Core;
pub use mk_books::QuarantineWord;
pub use phases::{Phase, markers_in, phase_bits};
pub use reaching::{next_word, scan_bit, scan_page, seen_bit, seen_page, tally_word};
pub use scans::{cell_seen, marker_behind};
pub use seats::{
    Flight, Hand, Holding, Marker, OwnCycle, Placing, Presence, RunPages, Scan, SeenHeader, Source,
    Stage,
};
pub use storage_laws::{
    an_allocation_has_its_cell, headers_show_their_objects, unreleased_storage_is_of_allocations,
};
