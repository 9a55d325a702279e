//! The graph of a program: its points and edges, which take the steps of the program.
//!
//! Graphs themselves are those of `pc_flow`; what this crate owns is how they are made. The crate
//! `pc_lower` is another thing: it finds the rows that the points of a graph need.
#![tactic(auto)]

mod assembly;
mod assignment;
mod draft;
mod laws;
mod lowering;
mod row;
mod side;

pub use laws::{
    checks_stand_alone, choices_drive, graphs_are_kept, loop_free_graphs, loops_are_marked,
    loops_have_their_heads, owed_is_violated, paid_programs_are_safe, places_are_theirs,
    rests_are_safe, steps_correspond, straight_graphs, straight_is_loop_free,
};
pub use lowering::lower;
