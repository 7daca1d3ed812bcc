// The moves of a diagram over its table and the words of its state, in the program's order (specs/), and the proof that they are document 01's.
#![tactic(auto)]
