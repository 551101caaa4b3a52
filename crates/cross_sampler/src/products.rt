//! Products and their numbers.
ghost use Rattle.std.specs.Prelude.{◌≡◌, ◌<◌, ◌≤◌, ◌-◌, ◌^◌, IfOk, OnOk};
ghost use Rattle.std.specs.List.{All};
ghost use Rattle.cross_select.specs.Products.{product_of};
ghost use Rattle.design_data.specs.Crosses.{IsProduct};
ghost use Rattle.cross_sampler.specs.Numbers.{number_of, product_by, weights_of};

use cov_base::Memory;
use cov_tree::List;
use std::alloc::Global;

/// For each point how many products there are of the points behind it; there are `count` of all.
pub(crate) fn weights(alloc: Global, sizes: &[u32], count: u32) -> Result<List<u32>, Memory>
    requires count { count ≡ product_of sizes.now }
    requires some { All (λ size. 0 < size) sizes.now }
    ensures { IfOk result (λ weights. weights ≡ weights_of sizes.now) }
{
    let mut weights = List::new(alloc);
    let mut left = count;
    for size in sizes {
        left /= *size;
        weights.push(left)?;
    }
    Ok(weights)
}

/// Puts the product of the number into `product`.
pub(crate) fn put_product(
    weights: &[u32],
    number: u32,
    product: &mut Vec<u32>,
) -> Result<(), Memory>
    requires { All (λ weight. 0 < weight) weights.now }
    ensures { OnOk result (product.new.items ≡ product_by weights.now number) }
{
    product.clear();
    let mut left = number;
    for weight in weights {
        product.push(left / *weight)?;
        left %= *weight;
    }
    Ok(())
}

/// The number of a product.
pub(crate) fn number(sizes: &[u32], product: &[u32]) -> u32
    requires product { IsProduct sizes.now product.now }
    requires few { product_of sizes.now ≤ 2 ^ 32 - 1 }
    ensures { result ≡ number_of 0 sizes.now product.now }
{
    let mut number = 0;
    for k in 0..sizes.len() {
        number = number * sizes[k] + product[k];
    }
    number
}
