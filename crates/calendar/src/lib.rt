// The calendar of document 01: days and dates of the years 2000 to 2099, and the terms over them.
#![tactic(auto)]

pub mod days;
pub mod terms;

pub use days::Date;
pub use terms::Term;
