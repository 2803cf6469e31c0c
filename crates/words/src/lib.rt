#![tactic(auto)]

pub mod reserved;
pub mod text;
