#![tactic(auto)]

pub mod code_point;
pub mod sink;
pub mod span;
