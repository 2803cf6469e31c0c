// How numbers are written: an interface, and two writers of it.
#![tactic(auto)]

mod digits;
pub mod examples;
pub mod number_writer;
pub mod plain;
pub mod short;

pub use number_writer::{NumberText, NumberWriter, writes};
pub use plain::Plain;
pub use short::Short;
