// Runs of telegrams in the old and the new edition give each other back: theorems on crate effbd's Editions (specs/). There is no code here.
#![tactic(auto)]
