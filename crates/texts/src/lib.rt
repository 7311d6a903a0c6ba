// Texts in, texts out: the program's whole work on slices, steps run over a saved state, rule lists from policies and back, and two of them
// joined.
#![tactic(auto)]

mod joined_rules;
mod policies;
mod responses;
mod saved_runs;

pub use joined_rules::join_rules;
pub use policies::{policies_from_rules, rules_from_policies};
pub use responses::{MOST_BYTES, ROOM, respond, response_length};
pub use saved_runs::{
    LoadedTexts, Refused, Text, Written, copy_rules, copy_state, fresh_state, load, run_saved,
};
