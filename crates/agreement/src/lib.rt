// Diagram and net agree, and demand 3 holds: theorems on the definitions of crate effbd (specs/). There is no code here.
#![tactic(auto)]
