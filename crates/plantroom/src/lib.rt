// Document 01's plant-room examples marked *, as one table that the definitions are proved to meet, and a list of calls as demand 3 has them (specs/).
#![tactic(auto)]
