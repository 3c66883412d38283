// The library that C and Rust link.

#![tactic(auto)]

pub mod c;
