//! Street: worked rows.
//!
//! Worked rows of `cov_tree`, `cov_lexer`, `cov_options`, as tests of what these crates hand on.
#![tactic(auto)]

#[cfg(test)]
mod lexing;
#[cfg(test)]
mod options;
#[cfg(test)]
mod trees;
