// The text of tables: read text, write text.
#![tactic(auto)]

pub mod forms;
pub mod read;
pub mod write;
