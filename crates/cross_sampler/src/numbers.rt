//! The products that are hit at a sample, by their numbers.
ghost use Rattle.std.specs.Prelude.{◌≡◌, ◌<◌, ◌≤◌, ◌^◌, ◌+◌, ◌*◌, ◌++◌, ◌∷◌, [], map, length, OnOk, IfSome};
ghost use Rattle.std.specs.List.{All};
ghost use Rattle.cross_select.specs.Products.{product_of};
ghost use Rattle.cross_sampler.specs.Numbers.{below, extended, numbers_of, row_at, hits_of};

use cov_base::Memory;
use std::mem::swap;

/// Appends the numbers from `start` on that the bins below the size give.
fn push_row(hit: &[u32], size: u32, start: u32, out: &mut Vec<u32>) -> Result<(), Memory>
    requires { start + size ≤ 2 ^ 32 }
    ensures { OnOk result (out.new.items ≡ out.old.items ++ map (λ bin. start + bin) (below size hit.now)) }
{
    for bin in hit {
        if *bin < size {
            out.push(start + *bin)?;
        }
    }
    Ok(())
}

/// Appends the numbers of the products so far, each with each bin that is hit of one more point.
fn push_rows(numbers: &[u32], size: u32, hit: &[u32], out: &mut Vec<u32>) -> Result<(), Memory>
    requires fits { All (λ n. n * size + size ≤ 2 ^ 32) numbers.now }
    requires some { 0 < size }
    ensures { OnOk result (out.new.items ≡ out.old.items ++ extended size hit.now numbers.now) }
{
    for number in numbers {
        push_row(hit, size, *number * size, out)?;
    }
    Ok(())
}

/// Puts each product so far with each bin that is hit of one more point into `numbers`.
fn extend(
    size: u32,
    hit: &[u32],
    numbers: &mut Vec<u32>,
    spare: &mut Vec<u32>,
) -> Result<(), Memory>
    requires fits { All (λ n. n * size + size ≤ 2 ^ 32) numbers.old.items }
    requires some { 0 < size }
    ensures { OnOk result (numbers.new.items ≡ extended size hit.now numbers.old.items) }
{
    spare.clear();
    push_rows(numbers.as_slice(), size, hit, spare)?;
    swap(numbers, spare);
    Ok(())
}

/// The row of the point at this index.
fn row(rows: &[Vec<u32>], axis: u32) -> &[u32]
    ensures { result.now ≡ row_at rows.now axis }
{
    match rows.get(axis as usize) {
        Some(row) => row.as_slice(),
        None => &[],
    }
}

/// The bin that is hit, where there is one alone, and the point has it.
fn one_bin(hit: &[u32], size: u32) -> Option<u32>
    ensures below { IfSome result (λ bin. bin < size) }
    ensures alone { IfSome result (λ bin. hit.now ≡ bin ∷ []) }
{
    if hit.len() != 1 {
        return None;
    }
    let bin = hit[0];
    if bin >= size {
        return None;
    }
    Some(bin)
}

/// The number of the product that is hit, where one bin of each point is hit.
pub(crate) fn one_number(sizes: &[u32], axes: &[u32], rows: &[Vec<u32>]) -> Option<u32>
    requires same { length sizes.now ≡ length axes.now }
    requires some { All (λ size. 0 < size) sizes.now }
    requires few { product_of sizes.now ≤ 2 ^ 32 }
    ensures below { IfSome result (λ number. number < product_of sizes.now) }
    ensures number { IfSome result (λ number. numbers_of (0 ∷ []) sizes.now (hits_of rows.now axes.now) ≡ number ∷ []) }
{
    let mut number = 0;
    for k in 0..sizes.len() {
        let Some(bin) = one_bin(row(rows, axes[k]), sizes[k]) else {
            return None;
        };
        number = number * sizes[k] + bin;
    }
    Some(number)
}

/// Puts the numbers of all products that are hit into `numbers`. `spare` is room.
pub(crate) fn product_numbers(
    sizes: &[u32],
    axes: &[u32],
    rows: &[Vec<u32>],
    numbers: &mut Vec<u32>,
    spare: &mut Vec<u32>,
) -> Result<(), Memory>
    requires same { length sizes.now ≡ length axes.now }
    requires some { All (λ size. 0 < size) sizes.now }
    requires few { product_of sizes.now ≤ 2 ^ 32 }
    ensures numbers { OnOk result (numbers.new.items ≡ numbers_of (0 ∷ []) sizes.now (hits_of rows.now axes.now)) }
    ensures below { OnOk result (All (λ n. n < product_of sizes.now) numbers.new.items) }
{
    numbers.clear();
    numbers.push(0)?;
    for k in 0..sizes.len() {
        extend(sizes[k], row(rows, axes[k]), numbers, spare)?;
    }
    Ok(())
}
