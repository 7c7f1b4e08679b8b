// The faults at one instant, and how long nothing changes after it.
#![tactic(auto)]

pub mod judge;
pub mod leaves;
pub mod refs;
pub mod slots;
pub mod spans;
pub mod until;
pub mod walk;
