// Literals, names, types, patterns and parameters.
#![tactic(auto)]

pub mod items;
pub mod lits;
pub mod patterns;
pub mod types;
