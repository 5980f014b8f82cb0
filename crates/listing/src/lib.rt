// Differences listed in a lent list: entries.rt puts one, members.rt those of members, owners.rt those of two owners.
// Each function that lists does so from entry n on, where there is room, and answers the entry after its differences.
#![tactic(auto)]

pub mod entries;
pub mod members;
pub mod owners;
pub mod rows;
