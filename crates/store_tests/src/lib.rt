//! Street: worked rows.
//!
//! Worked rows of `cov_history`, as tests of what it hands on.
#![tactic(auto)]

#[cfg(test)]
mod covering;
