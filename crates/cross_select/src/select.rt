//! Selections of cross products (IEEE 1800-2017, 19.6.1).
ghost use Rattle.std.specs.Prelude.{◌≡◌};
ghost use Rattle.cross_select.specs.Selections.{is_selected, is_chosen_at};

use cov_tree::{Boxed, List};

/// A selection of products. A product is one bin of each crossed point, by its number.
#[derive(Drop)]
pub enum Select {
    /// The products whose bin at the index `axis` is chosen; `chosen` says so for each bin number of that point.
    Bins { axis: u16, chosen: List<bool> },
    /// The products that the selection doesn't select.
    Not(Boxed<Select>),
    /// The products that both select.
    And(Boxed<Select>, Boxed<Select>),
    /// The products that at least one selects.
    Or(Boxed<Select>, Boxed<Select>),
}

/// Whether the selection selects the product. A `Bins` whose axis is no index of the product, or for which the bin
/// number there is no index of `chosen`, selects nothing. It takes no memory.
pub fn selects(select: &Select, product: &[u32]) -> bool
    ensures { result ≡ is_selected select.now product.now }
{
    match select {
        Select::Bins { axis, chosen } => is_chosen(*axis, chosen.as_slice(), product),
        Select::Not(inner) => !selects(inner.get(), product),
        Select::And(left, right) => selects(left.get(), product) && selects(right.get(), product),
        Select::Or(left, right) => selects(left.get(), product) || selects(right.get(), product),
    }
}

/// Whether the product's bin at the axis is a chosen one.
fn is_chosen(axis: u16, chosen: &[bool], product: &[u32]) -> bool
    ensures { result ≡ is_chosen_at axis chosen.now product.now }
{
    let Some(bin) = product.get(axis as usize) else {
        return false;
    };
    match chosen.get(*bin as usize) {
        Some(is_chosen) => *is_chosen,
        None => false,
    }
}
