// The algebra of cuts and joins (demand 3), in specs/Algebra.antt. There is no code here.

#![tactic(auto)]
