#![tactic(auto)]

pub mod operators;
