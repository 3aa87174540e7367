// The Rust's error.rs and blocks/*.rs: a module for each file. Each block's struct has its mark, its least length and a parser
// that answers the block's fields or a refusal. Document 01's kinds are in kind.rt.
#![tactic(auto)]

pub mod channel_block;
pub mod channel_group_block;
pub mod common;
pub mod data_block;
pub mod data_group_block;
pub mod data_list_block;
pub mod data_type;
pub mod error;
pub mod extent;
pub mod header_block;
pub mod identification_block;
pub mod kind;
pub mod metadata_block;
pub mod reader;
pub mod source_block;
pub mod text_block;
