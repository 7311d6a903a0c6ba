// Document 01, 'State and steps': a step as it is handed in and with its numbers in range, its answer and why it is refused, and what both
// gates share of active pairs.
#![tactic(auto)]

pub mod acting;
pub mod actions;
pub mod answers;
pub mod pairs;
pub mod refusals;
pub mod steps;

pub use acting::Acting;
pub use actions::Action;
pub use answers::Answer;
pub use refusals::Refusal;
pub use steps::Step;
