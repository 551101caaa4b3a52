//! Sets of products.
ghost use Rattle.std.specs.Prelude.{◌≡◌, ℕ, ◌+◌, ◌*◌, ◌<◌, ◌≤◌, List, length, filter, not, ◌&&◌, ◌||◌, Bool, true, false, IfOk};
ghost use Rattle.std.specs.List.{list_any};
ghost use Rattle.cov_ground.specs.Limits.{most_products};
ghost use Rattle.cross_select.specs.Products.{product_of};
ghost use Rattle.cross_select.specs.Selections.{is_selected, is_chosen_at};
ghost use Rattle.design_data.specs.Crosses.{products as products_of};
ghost use Rattle.product_bits.specs.Numbers.{product_at, at_most};
ghost use Rattle.product_bits.specs.Marks.{Marks, is_marked, word_count};

use crate::numbers::{product, stride};
use crate::runs::axis_bits;
use crate::words::{BITS, first_marked, first_shared, flip, meet, unite};
use cov_ground::Memory;
use cov_tree::List;
use cross_select::Select;
use std::alloc::Global;
use std::marker::Model;

/// A set of products of a cross: a bit for each product, in order. Contracts see the words, of which `Marks` says which
/// products they hold.
#[derive(Drop)]
pub struct ProductBits {
    words: Vec<u64>,
}

impl Model for ProductBits {
    ghost use Rattle.std.specs.Prelude.{ℕ, List};

    ghost Value = { List ℕ };

    ghost view = { λ bits. bits.words.items };
}

impl ProductBits {
    /// No product of so many.
    pub fn none(alloc: Global, count: u32) -> Result<ProductBits, Memory>
        requires { count ≤ most_products }
        ensures { IfOk result (λ bits. (sizes : List ℕ) → product_of sizes ≡ count → Marks sizes
            (λ product. false) bits) }
    {
        let words = vec![in alloc; 0u64; (count as usize + 63) / BITS]?;
        Ok(ProductBits { words })
    }

    /// The products of an axis' chosen bins.
    fn of_axis(
        alloc: Global,
        sizes: &[u32],
        count: u32,
        axis: u16,
        chosen: &[bool],
    ) -> Result<ProductBits, Memory>
        requires count { count ≡ product_of sizes.now }
        requires few { count ≤ most_products }
        ensures { IfOk result (Marks sizes.now (is_chosen_at axis chosen.now)) }
    {
        let count = count as usize;
        let axis = axis as usize;
        if count == 0 || axis >= sizes.len() {
            return ProductBits::none(alloc, count as u32);
        }
        let stride = stride(sizes, count, axis);
        let words = axis_bits(
            alloc,
            (count + 63) / BITS,
            stride,
            sizes[axis] as usize,
            chosen,
        )?;
        Ok(ProductBits { words })
    }

    /// The products that a selection selects, of points with so many coverage bins, `count` being how many products
    /// these have.
    pub fn selected(
        alloc: Global,
        sizes: &[u32],
        count: u32,
        select: &Select,
    ) -> Result<ProductBits, Memory>
        requires count { count ≡ product_of sizes.now }
        requires few { count ≤ most_products }
        ensures { IfOk result (Marks sizes.now (is_selected select.now)) }
    {
        match select {
            Select::Bins { axis, chosen } => ProductBits::of_axis(
                alloc,
                sizes,
                count,
                *axis,
                chosen.as_slice(),
            ),
            Select::Not(inner) => {
                let mut bits = ProductBits::selected(alloc, sizes, count, inner.get())?;
                bits.flip();
                Ok(bits)
            }
            Select::And(left, right) => {
                let mut bits = ProductBits::selected(alloc, sizes, count, left.get())?;
                bits.meet(&ProductBits::selected(alloc, sizes, count, right.get())?);
                Ok(bits)
            }
            Select::Or(left, right) => {
                let mut bits = ProductBits::selected(alloc, sizes, count, left.get())?;
                bits.unite(&ProductBits::selected(alloc, sizes, count, right.get())?);
                Ok(bits)
            }
        }
    }

    /// Adds the products of another set.
    pub fn unite(&mut self, other: &ProductBits)
        requires { length other.now ≡ length self.old }
        ensures len { length self.new ≡ length self.old }
        ensures marks { (sizes : List ℕ) (one two : List ℕ → Bool)
            → Marks sizes one self.old → Marks sizes two other.now
            → Marks sizes (λ product. one product || two product) self.new }
    {
        unite(self.words.as_mut_slice(), other.words.as_slice());
    }

    /// Keeps the products that another set has too.
    pub fn meet(&mut self, other: &ProductBits)
        requires { length other.now ≡ length self.old }
        ensures len { length self.new ≡ length self.old }
        ensures marks { (sizes : List ℕ) (one two : List ℕ → Bool)
            → Marks sizes one self.old → Marks sizes two other.now
            → Marks sizes (λ product. one product && two product) self.new }
    {
        meet(self.words.as_mut_slice(), other.words.as_slice());
    }

    /// Takes the products that aren't in the set, in place of those that are.
    pub fn flip(&mut self)
        ensures len { length self.new ≡ length self.old }
        ensures marks { (sizes : List ℕ) (meant : List ℕ → Bool) → Marks sizes meant self.old
            → Marks sizes (λ product. not (meant product)) self.new }
    {
        flip(self.words.as_mut_slice());
    }

    /// Whether both sets have a product, of so many.
    pub fn shares(&self, other: &ProductBits, count: u32) -> bool
        requires len { length self.now ≡ word_count count }
        requires other_len { length other.now ≡ word_count count }
        ensures { (sizes : List ℕ) (one two : List ℕ → Bool) → product_of sizes ≡ count
            → Marks sizes one self.now → Marks sizes two other.now
            → result ≡ list_any (λ product. one product && two product) (products_of sizes) }
    {
        let count = count as usize;
        first_shared(self.words.as_slice(), other.words.as_slice(), 0, count) < count
    }

    /// Its products in order, if they are `most` at most.
    pub fn products(
        &self,
        alloc: Global,
        sizes: &[u32],
        count: u32,
        most: usize,
    ) -> Result<Option<List<List<u32>>>, Memory>
        requires len { length self.now ≡ word_count count }
        requires count { count ≡ product_of sizes.now }
        ensures { IfOk result (λ found. (meant : List ℕ → Bool) → Marks sizes.now meant self.now
            → found ≡ at_most most (filter meant (products_of sizes.now))) }
    {
        let words = self.words.as_slice();
        let count = count as usize;
        let mut found = List::new(alloc);
        let mut at = first_marked(words, 0, count);
        while at < count {
            if found.as_slice().len() >= most {
                return Ok(None);
            }
            found.push(product(alloc, sizes, count, at)?)?;
            at = first_marked(words, at + 1, count);
        }
        Ok(Some(found))
    }
}
