// The calls of the library under plain C signatures, and nothing else. Each takes any bytes, words, numbers and lengths, and answers a
// struct whose first field is 0, or the number of the first reason (R9) that applies; then every other field is 0.
// include/nitrasovy.h has them for C.
#![tactic(auto)]

pub mod compositions;
pub mod gate_records;
pub mod literals;
pub mod models;
pub mod obligations;
pub mod witnesses;
