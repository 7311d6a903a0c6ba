// Which rules a step selects, and what is decided of them without a state.
#![tactic(auto)]

pub mod judging;
pub mod rounds;
pub mod selection;

pub use judging::{Judged, judge};
pub use selection::Choice;
