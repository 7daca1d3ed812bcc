// What the definitions of logs say: theorems on crate effbd (specs/). There is no code here.
#![tactic(auto)]
