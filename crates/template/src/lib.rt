// The raw text between the backticks and substitutions of a JavaScript template literal, as 16-bit
// code units: which texts are raw parts, and what they cook to.
#![tactic(auto)]

mod cooking;
mod machine;
mod recogniser;
mod worked;

pub use cooking::cook;
pub use recogniser::is_raw_part;
pub use worked::worked_examples;
