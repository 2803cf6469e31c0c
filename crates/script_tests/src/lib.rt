// Lines of a script, and what is read of them.
#![tactic(auto)]

#[cfg(test)]
mod shown;
#[cfg(test)]
mod table;
