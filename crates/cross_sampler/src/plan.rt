//! What is worked out of a cross once for a design.

use cov_tree::List;
use value_index::Rows;

/// What is worked out of a cross once for a design. It serves any number of records.
pub struct CrossPlan {
    /// How many coverage bins each of its points has.
    pub sizes: List<u32>,
    /// For each point how many products there are of the points behind it.
    pub weights: List<u32>,
    /// From this index on there is no declared bin.
    pub declared: u32,
    /// From this index on no bin has a guard.
    pub guards: u32,
    pub table: Table,
}

impl Drop for CrossPlan {
    fn drop(self) {
        let CrossPlan {
            sizes: _,
            weights: _,
            declared: _,
            guards: _,
            table: _,
        } = self;
    }
}

/// The bins of a cross's products.
#[derive(Drop)]
pub enum Table {
    /// The bins of each product, by its number: the bins of the last point run fastest.
    Rows(Rows),
    /// A product's bins are worked out where it is hit, and then kept with the record's state as long as there is room.
    Scan,
    /// There are no products: one of the points has no coverage bin.
    Nothing,
}
