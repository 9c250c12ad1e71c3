// What the filters are made of: the tap tables, one step, lines of steps, and copies of rows and rectangles.
// A list is handed over whole with a place in it, whose bounds are clauses: `step_at`, `laid` and `written`, of which contracts and theorems speak,
// take whole lists.
#![tactic(auto)]

pub mod lines;
pub mod rect;
pub mod step;
pub mod tables;
pub mod tally;
pub mod taps;
pub mod view;
pub mod way;

// as in the Rust
pub use tables::{BILINEAR_FILTERS, SIXTAP_FILTERS};
