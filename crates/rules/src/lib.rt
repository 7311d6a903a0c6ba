// The rules of document 01: the twelve families, what a rule list must be to be accepted, and the full test of one rule.
#![tactic(auto)]

pub mod facts;
pub mod families;
pub mod lists;
pub mod lowest;
pub mod rights;
pub mod sessions;
pub mod tests;

pub use facts::Facts;
pub use families::Rule;
pub use lists::{RuleList, Slot};
pub use lowest::lowest_broken;
pub use rights::{Right, RightSlot};
pub use sessions::Session;
