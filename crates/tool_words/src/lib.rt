//! The words of the programs `shextool` and `typing_session`, read with `clap` and checked as those of `shex` are.
#![tactic(auto)]

mod call;
mod commands;
mod laws;
mod requests;
mod session;
mod shard_requests;
mod shards;
mod tool;

pub use call::{
    Converting, Covering, Editing, Explaining, Following, Lining, Listing, Reaching, ShardCall,
    ShardFiles, ToolCall,
};
pub use laws::answers_are_one;
pub use session::read_session;
pub use tool::read_tool;
