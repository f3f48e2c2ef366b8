//! The call that each README shows (`readmes`), compiled, proved and run.
#![tactic(auto)]

#[cfg(test)]
mod readmes;
