// Expressions, blocks and statements: the rest of parser.rs. Its functions call one another in one cycle over all the files but program and
// suffix. Depth is used up by `exprs` and `prec` alone.
#![tactic(auto)]

mod assignments;
mod atoms;
pub mod exprs;
mod primary;
pub mod program;
mod statements;
mod suffix;
mod tables;
