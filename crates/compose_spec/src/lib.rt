// R8 has its definitions here, and demand 3 for compositions its theorems; crate `compose` has the functions.
#![tactic(auto)]

// The inputs of the model, or its latches: they are the variables before + 1 to before + count.
#[derive(Clone, Copy)]
pub struct ModelLeaves {
    pub before: usize,
    pub count: usize,
}

// What an input or a latch of a witness maps to: nothing, a literal of the model, or a literal that R9.16 refuses.
#[derive(Clone, Copy)]
pub enum Mapping {
    Private,
    Onto(u64),
    Wrong,
}
