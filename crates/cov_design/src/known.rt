//! What was declared so far.
use cov_tree::List;
use design_data::{GroupInfo, InstInfo};
use elab_decls::Outside;
use elab_members::Counts;

/// What is declared outside groups, and what the design has so far. Its bins aren't numbered yet.
#[derive(Drop)]
pub struct Known {
    pub outside: Outside,
    pub groups: List<GroupInfo>,
    pub instances: List<InstInfo>,
    pub counts: Counts,
}
