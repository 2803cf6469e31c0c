// Numbers of ECMA-262 as integers: 32-bit words, the operators on their bits, safe integers and decimal digits.
#![tactic(auto)]

pub mod bitwise;
pub mod digits;
pub mod safe;
pub mod shift;
pub mod word;
