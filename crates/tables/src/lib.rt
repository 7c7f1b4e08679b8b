// The tables that a history is lent as: instants, labels, rows, sizes, and the rules that they obey (codes 1 to 5).
#![tactic(auto)]

pub mod joins;
pub mod judge;
pub mod kinds;
pub mod label;
pub mod lent;
pub mod rows;
pub mod rules;
pub mod sizes;
