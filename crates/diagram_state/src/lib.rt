// A diagram's state: what stands in its words. Every function is total: what the state does not hold is read as 0.
#![tactic(auto)]

pub mod cells;
