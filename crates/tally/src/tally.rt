//! Rows of bins and their counts.
ghost use Rattle.std.specs.Prelude.{◌≡◌, ℕ, ◌<◌, ◌≤◌, ◌^◌, length, slice_index, count_by, nat_lt, IfOk, All};
ghost use Rattle.tally.specs.Rows.{rows_from, count_in, count_from, IsAscendingFrom, Adds, HasRoom};

use cov_ground::Memory;
use std::alloc::Global;
use std::marker::Model;

/// How often each bin was hit in a test. Bins are numbered from 0; those that were never hit have no row.
pub struct Tally {
    rows: Vec<(u32, u64)>,
}

impl Drop for Tally {
    fn drop(self) {
        let Tally { rows: _ } = self;
    }
}

impl Model for Tally {
    ghost use Rattle.std.specs.Prelude.{ℕ, List};
    ghost use Rattle.tally.specs.Rows.{IsAscendingFrom};

    ghost Value = { List (ℕ × ℕ) };

    ghost view = { λ tally. tally.rows.items };

    ghost invariant = { λ tally. IsAscendingFrom 0 tally.rows.items };
}

impl Tally {
    /// The tally of the counts of all bins, in order.
    pub fn of(alloc: Global, counts: &[u64]) -> Result<Tally, Memory>
        requires { length counts.now < 2 ^ 32 }
        ensures rows { IfOk result (λ tally. tally ≡ rows_from 0 counts.now) }
        ensures counts { IfOk result (λ tally. (bin : ℕ)
            → count_in tally bin ≡ slice_index counts.now bin) }
        ensures size { IfOk result (λ tally. length tally ≡ count_by (nat_lt 0) counts.now) }
    {
        let rows = rows_of(alloc, counts)?;
        Ok(Tally { rows })
    }

    /// The count of a bin. It takes time in the logarithm of the number of rows.
    pub fn get(&self, bin: u32) -> u64
        ensures { result ≡ count_in self.now bin }
    {
        count_of(self.rows.as_slice(), bin)
    }

    /// A row for each bin with a count, ascending.
    pub fn rows(&self) -> &[(u32, u64)]
        ensures rows { result.now ≡ self.now }
        ensures ascending { IsAscendingFrom 0 result.now }
    {
        self.rows.as_slice()
    }

    /// Adds the count of each bin to the number of its index. It takes no memory.
    pub fn add_into(&self, counts: &mut [u64])
        requires inside { All (λ row. row.0 < length counts.old) self.now }
        requires room { HasRoom (count_in self.now) counts.old }
        ensures { Adds (count_in self.now) counts.old counts.new }
    {
        add_rows(self.rows.as_slice(), 0, counts);
    }

    /// Adds the counts of the bins from `first` on, as many as there are numbers. It takes no memory, and time in the
    /// rows of those bins and in the logarithm of the number of all.
    pub fn add_part(&self, first: u32, counts: &mut [u64])
        requires { HasRoom (count_from self.now first) counts.old }
        ensures { Adds (count_from self.now first) counts.old counts.new }
    {
        add_rows(rows_after(self.rows.as_slice(), first), first, counts);
    }
}

fn rows_of(alloc: Global, counts: &[u64]) -> Result<Vec<(u32, u64)>, Memory>
    requires { length counts.now < 2 ^ 32 }
    ensures { IfOk result (λ rows. rows.items ≡ rows_from 0 counts.now) }
{
    let mut rows = Vec::new(alloc);
    for (bin, count) in counts.iter().enumerate() {
        if *count > 0 {
            rows.push((bin as u32, *count))?;
        }
    }
    Ok(rows)
}

fn count_of(rows: &[(u32, u64)], bin: u32) -> u64
    requires { IsAscendingFrom 0 rows.now }
    ensures { result ≡ count_in rows.now bin }
{
    match rows.binary_search_by_key(&bin, |row| row.0) {
        Ok(at) => rows[at].1,
        Err(_) => 0,
    }
}

/// The rows from the bin on.
fn rows_after(rows: &[(u32, u64)], bin: u32) -> &[(u32, u64)]
    requires { IsAscendingFrom 0 rows.now }
    ensures ascends { IsAscendingFrom bin result.now }
    ensures same { (later : ℕ) → bin ≤ later → count_in result.now later ≡ count_in rows.now later }
{
    match rows.binary_search_by_key(&bin, |row| row.0) {
        Ok(at) => &rows[at..],
        Err(at) => &rows[at..],
    }
}

fn add_rows(rows: &[(u32, u64)], first: u32, counts: &mut [u64])
    requires ascending { IsAscendingFrom first rows.now }
    requires room { HasRoom (count_from rows.now first) counts.old }
    ensures { Adds (count_from rows.now first) counts.old counts.new }
{
    for (bin, count) in rows {
        let index = (*bin - first) as usize;
        if index >= counts.len() {
            return;
        }
        counts[index] += *count;
    }
}
