#![tactic(auto)]

mod build;
mod calls;
mod marks;
mod name;
mod open;
mod present;
mod print;
mod read;
pub mod refusal;
mod root;
mod store;
pub mod tree;
