// Two rule lists joined into one: by value, and into a list of rules that the caller lends.
#![tactic(auto)]

mod equality;
mod lent;
mod lists;
mod refusals;
mod right_lines;

pub use equality::equal_rules;
pub use lent::{JoinedInto, join_into};
pub use lists::join;
pub use refusals::Refusal;
