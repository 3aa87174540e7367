// The walk's functions for the blocks that no chain links: texts, sources, conversions and data. Each does to the walker what the
// definition's step of the same name does.
#![tactic(auto)]

pub mod regions;
pub mod texts;
