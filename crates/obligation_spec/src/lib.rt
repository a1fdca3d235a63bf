#![tactic(auto)]

// The obligations (R7) have their definitions and the theorems of demand 3 (R11) here; crate `obligation` has the functions.
