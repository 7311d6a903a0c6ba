// Lines of text: one scanner, one range test and one writer for every form that a table of forms has. A table is a text too: each of its
// lines is a form, in which a mark stands for a number of its kind and any other byte for itself.
#![tactic(auto)]

mod kinds;
mod numbers;
mod scanning;
mod tables;
mod writing;

pub use kinds::{Kind, Syntax};
pub use numbers::{Number, coordinate, signed_code, signed_value};
pub use tables::{Found, find, find_likely, line_in_range, write_line};
pub use writing::WriteRefusal;
