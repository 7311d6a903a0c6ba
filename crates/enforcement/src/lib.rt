// The gate of document 01, 'State and steps': the state, the steps, and what a step answers.
#![tactic(auto)]

mod acceptance;
pub mod batches;
mod deciding;
mod events;
mod methods;
mod plans;
mod requests;
mod runs;
pub mod states;

pub use batches::{Batch, BatchRun, Entry};
pub use rules::Session;
pub use runs::{Ran, run};
pub use states::{Next, State};
