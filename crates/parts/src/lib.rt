// What expressions and statements are made of, apart from the cycle that they are.
#![tactic(auto)]

pub mod effects;
pub mod forms;
pub mod imports;
pub mod records;
pub mod recovery;
pub mod steps;
pub mod values;
