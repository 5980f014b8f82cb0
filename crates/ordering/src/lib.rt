// The order in which two tables are compared: records by name, tags rising. An array is filled from its end, each number put before the first that does not precede it.
#![tactic(auto)]

pub mod names;
mod places;
pub mod rows;
pub mod tags;
