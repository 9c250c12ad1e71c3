// The entries for Rattle: prediction over a record that holds the three lent planes, as in the Rust, and over a lent list of vectors.
#![tactic(auto)]

pub mod lists;
pub mod planes;
pub mod sixteen;
