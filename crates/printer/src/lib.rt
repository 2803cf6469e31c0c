#![tactic(auto)]

pub mod node;
mod number;
pub mod print;
mod row;
mod shape;
mod sign;
pub mod view;
