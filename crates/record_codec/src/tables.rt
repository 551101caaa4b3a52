//! Rows of one kind, one after the other.
ghost use Rattle.std.specs.Prelude.{◌≡◌, ◌+◌, ◌<◌, OnOk, vec_len, vec_capacity};
ghost use Rattle.record_codec.specs.Reading.{Gives, Reader, appended, counted};

use crate::fault::Fault;
use cov_tree::List;
use std::alloc::Global;

/// How rows of one kind are read.
pub(crate) trait Rows {
    type Row: Drop;

    ghost row_at: { Self → Reader Self.Row };

    /// The row at the front of the bytes.
    fn row<'a>(&self, alloc: Global, bytes: &'a [u8]) -> Result<(Self::Row, &'a [u8]), Fault>
        ensures { Gives (λ x. (x.0, x.1.now)) result (row_at self.now bytes.now) };

    /// Puts the row at the front of the bytes behind the rows, which have room for it.
    #[inline(always)]
    fn append<'a>(
        &self,
        alloc: Global,
        bytes: &'a [u8],
        rows: &mut Vec<Self::Row>,
    ) -> Result<&'a [u8], Fault>
        requires { vec_len rows.old < vec_capacity rows.old }
        ensures row { Gives (λ rest. (rows.new.items, rest.now)) result (appended rows.old.items (row_at self.now bytes.now)) }
        ensures room { OnOk result (vec_capacity rows.new ≡ vec_capacity rows.old) }
        ensures long { OnOk result (vec_len rows.new ≡ vec_len rows.old + 1) }
    {
        let (row, rest) = self.row(alloc, bytes)?;
        rows.push_reserved(row);
        Ok(rest)
    }
}

/// So many rows.
pub(crate) fn counted<'a, R: Rows>(
    alloc: Global,
    rows: &R,
    count: u32,
    bytes: &'a [u8],
) -> Result<(List<R::Row>, &'a [u8]), Fault>
    ensures { Gives (λ x. (x.0, x.1.now)) result (counted (R.row_at rows.now) count bytes.now) }
{
    let mut read = Vec::with_capacity(alloc, count as usize)?;
    let mut rest = bytes;
    for _ in 0..count {
        rest = rows.append(alloc, rest, &mut read)?;
    }
    Ok((List::of(read), rest))
}
