//! Street: worked rows.
//!
//! Tests of what threads and connections show: turns (`turn_lock`), and connections of this machine to itself (`cov_net`).
#![tactic(auto)]

#[cfg(test)]
mod doors;
#[cfg(test)]
mod turns;
