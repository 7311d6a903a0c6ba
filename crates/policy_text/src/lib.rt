// Rule lists as policies of GEMRBAC-DSL, the language of source 001: the five lines of it that the gate has rules for, read and written.
#![tactic(auto)]

mod lines;
mod reading;
mod refusals;
mod writing;

pub use reading::read_policies;
pub use refusals::WriteRefusal;
pub use writing::write_policies;
