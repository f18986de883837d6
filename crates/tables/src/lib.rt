// Tables of records that tell their transaction: the search by first match, what one call can change in a table, and how many
// of it pass a test. Both sides' calls rest on the code, their rules and the law over runs on the definitions (specs/).

#![tactic(auto)]

pub mod records;

pub use records::{due, remove, standing, update};
