// Bundle in, listing out: what the lister reads and what it prints, in lent buffers. docs/LAYOUT.md says what a record holds.
#![tactic(auto)]

mod bundle;
mod lines;
mod list;
mod names;
mod page;
mod walk;

pub use bundle::{Decoded, decode};
pub use list::{
    Counts, LENT_ERRORS, LENT_EXPECTED, LENT_NODES, LENT_OUT, lent_listing, listing, refusal,
};
