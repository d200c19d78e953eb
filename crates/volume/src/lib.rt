// A volume: a tree of files and directories on a store.
#![tactic(auto)]

pub mod changing;
pub mod format;
pub mod opening;
mod parts;
pub mod reading;
pub mod sectors;
pub mod types;
