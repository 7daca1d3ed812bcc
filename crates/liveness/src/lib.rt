// Which transition fires, and that no diagram locks: theorems on the definitions of crate effbd (specs/). There is no code here.
#![tactic(auto)]
