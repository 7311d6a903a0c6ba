// Steps as texts, and the answers to them.
#![tactic(auto)]

mod answers;
mod batches;
mod lines;
mod running;

pub use answers::{put_answer, put_bad};
pub use lines::{StepLine, read_step};
pub use running::{Answered, first_bad_step, put_answers};
