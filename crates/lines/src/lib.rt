// A line of any form: reading, measuring and writing, each over the line's key and its form.
#![tactic(auto)]

pub mod form;
pub mod read;
pub mod write;
