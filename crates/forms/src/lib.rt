#![tactic(auto)]

pub mod examples;
pub mod numeral;
pub mod parens;
pub mod quote;
