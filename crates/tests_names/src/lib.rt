//! Each call of the specification by its own name and crate (`names`), compiled, proved and run.
#![tactic(auto)]

#[cfg(test)]
mod names;
