// The walk along the chains of data groups, channel groups and channels, the Rust's `impl Walker`: each function does to the walker's
// tables what the definition's step of the same name does.
#![tactic(auto)]

pub mod channels;
pub mod data_groups;
pub mod groups;
pub mod header;
