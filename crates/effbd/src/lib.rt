// Function flow block diagrams, their nets and the bus between panel and controller: document 01 as definitions (specs/).
// Of the code there belong to them the answer that every call gives, and the numbers that document 01 fixes, by name.
#![tactic(auto)]

pub mod limits;
pub mod moves;
pub mod refusals;

pub use refusals::{Reason, Refusal};

// What a call answers: the value that it returns, or why it is turned away. `said` in specs/Answers.antt states document 01's number and value.
pub type Answer = Result<u32, Refusal>;
