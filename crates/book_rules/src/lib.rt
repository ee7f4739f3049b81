//! The rules of the book of an analysis, whoever keeps it. A book is a machine whose events are claims, posts and give-backs
//! (`specs/Machine.antt`), and what contracts see of one is its journal (`specs/Kept.antt`). The laws are functions that do
//! nothing, over any legal journal: nodes stay and rise boundedly, what is claimed comes home, and a finished book without opens
//! is a closed table.
#![tactic(auto)]

mod event;
mod laws;
mod same;
mod versions;

pub use event::Event;
pub use laws::{
    claims_are_answered, claims_are_bounded, closed_book_has_closed_table,
    finished_book_is_its_table, finished_is_a_fixpoint, finished_is_the_end, first_is_one,
    journals_grow, live_pairs_are_units, live_works_are_of_units, nodes_stay,
    outs_have_their_nodes, outs_stay, outs_stay_beside, rises_are_bounded,
    sound_books_are_their_tables, sound_books_stay, turns_bring_home, turns_come_home,
    units_come_again, works_are_of_locations,
};
pub use same::tests_tell_which_are_one;
pub use versions::Versions;
