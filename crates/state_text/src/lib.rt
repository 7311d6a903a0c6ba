// The saved state of document 01, 'Texts': a state as a text, and a text as a state.
#![tactic(auto)]

mod causes;
mod entries;
mod judging;
mod lines;
mod measuring;
mod reading;
mod writing;

pub use causes::{LineRefusal, Refusal};
pub use measuring::saved_length;
pub use reading::read_state;
pub use writing::write_state;
