//! Products by their numbers.
ghost use Rattle.std.specs.Prelude.{◌≡◌, ℕ, ◌+◌, ◌<◌, ◌≤◌, IfOk, drop};
ghost use Rattle.cov_ground.specs.Limits.{most_products};
ghost use Rattle.cross_select.specs.Products.{product_of};
ghost use Rattle.product_bits.specs.Numbers.{product_at};

use cov_ground::Memory;
use cov_tree::List;
use std::alloc::Global;

/// The product of a number, `count` being how many there are.
pub(crate) fn product(
    alloc: Global,
    sizes: &[u32],
    count: usize,
    number: usize,
) -> Result<List<u32>, Memory>
    requires some { 1 ≤ count }
    requires count { count ≡ product_of sizes.now }
    ensures { IfOk result (λ product. product ≡ product_at sizes.now number) }
{
    let mut product = List::new(alloc);
    let mut stride = count;
    for size in sizes {
        stride /= *size as usize;
        product.push((number / stride % *size as usize) as u32)?;
    }
    Ok(product)
}

/// How many products stand one after the other for each bin of an axis, `count` being how many there are.
pub(crate) fn stride(sizes: &[u32], count: usize, axis: usize) -> usize
    requires some { 1 ≤ count }
    requires count { count ≡ product_of sizes.now }
    ensures { result ≡ product_of (drop (axis + 1) sizes.now) }
{
    let mut stride = count;
    let mut left = axis;
    for size in sizes {
        stride /= *size as usize;
        if left == 0 {
            return stride;
        }
        left -= 1;
    }
    stride
}
