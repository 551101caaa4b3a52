//! How many products a cross has.
ghost use Rattle.std.specs.Prelude.{◌≡◌};
ghost use Rattle.cross_select.specs.Products.{product_count};

use cov_ground::limits::MOST_PRODUCTS;

/// The number of products of points with so many bins each, or None where it exceeds `MOST_PRODUCTS`. There is one
/// product of no points. It takes no memory.
pub fn count_products(sizes: &[u32]) -> Option<u32>
    ensures { result ≡ product_count sizes.now }
{
    if sizes.contains(&0) {
        return Some(0);
    }
    let mut count = 1u64;
    for size in sizes {
        count *= u64::from(*size);
        if count > MOST_PRODUCTS {
            return None;
        }
    }
    Some(count as u32)
}
