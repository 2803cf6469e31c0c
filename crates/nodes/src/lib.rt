#![tactic(auto)]

pub mod check;
pub mod count;
pub mod kind;
pub mod put;
pub mod shape;
pub mod spine;
pub mod step;
