// The four tables of a volume: how they lie in sectors, when they are sound, how items are found in them, and each call
// worked out on them in memory.
#![tactic(auto)]

pub mod changes;
mod checks;
pub mod claims;
pub mod consistent;
pub mod entries;
pub mod finding;
pub mod layout;
pub mod listing;
pub mod lookup;
pub mod making;
pub mod marks;
pub mod names;
pub mod outcomes;
pub mod paths;
mod pieces;
pub mod pruning;
pub mod removing;
pub mod renaming;
pub mod rows;
mod sectors;
pub mod sizes;
pub mod slots;
pub mod soundness;
mod subtree;
#[cfg(test)]
mod tests;
pub mod types;
pub mod writing;
