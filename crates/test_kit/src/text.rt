//! What is displayed.
use std::alloc::Global;
use std::fmt;

/// Whether this is what a value displays. Also `false` if an allocation fails.
pub fn displays(alloc: Global, value: &impl fmt::Display, want: &str) -> bool {
    match format!(in alloc; "{value}") {
        Ok(text) => text.as_str() == want,
        Err(_) => false,
    }
}
