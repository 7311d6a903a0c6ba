// Rule lists as texts: read, and written.
#![tactic(auto)]

mod guesses;
mod lines;
mod reading;
mod refusals;
mod rights;
mod writing;

pub use lines::{Line, filler, line_of, narrow, short_line};
pub use reading::{Parsed, Prefix, no_rules, read_prefix, read_rules, rule_read};
pub use refusals::{BadLine, Refusal};
pub use rights::line_count;
pub use writing::{rules_length, write_rules};
