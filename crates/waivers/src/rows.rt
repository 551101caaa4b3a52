//! Which ends of a path fit the end of a pattern.
ghost use Rattle.std.specs.Prelude.{◌≡◌, ◌++◌, ◌∷◌, ◌+◌, ◌≤◌, ◌&&◌, [], List, length, drop, map, slice_index_or, nat_eq, OnOk, false};
ghost use Rattle.std.specs.List.{starts_with};
ghost use Rattle.waivers.specs.Patterns.{Part, Byte, WithinName, Anything, fits};
ghost use Rattle.waivers.specs.Pieces.{spelled, IsRow};

use crate::pieces::Piece;
use cov_ground::Memory;

/// The row of a pattern of no parts, which fits a path's end alone.
pub(crate) fn begin_row(row: &mut Vec<bool>, path: &[u8]) -> Result<(), Memory>
    ensures { OnOk result (IsRow (fits []) path.now row.new.items) }
{
    row.clear();
    row.resize(path.len(), false)?;
    row.push(true)?;
    Ok(())
}

/// Whether what is left of a path from a place on begins with bytes, behind which the rest fits by the row.
fn begins_literal(row: &[bool], path: &[u8], literal: &[u8], place: usize) -> bool
    requires long { length row.now ≡ length path.now + 1 }
    requires within { place ≤ length path.now }
    ensures { result ≡ (slice_index_or row.now (place + length literal.now) false
        && starts_with nat_eq (drop place path.now) literal.now) }
{
    let end = place + literal.len();
    end < row.len() && row[end] && path[place..].starts_with(literal)
}

/// Puts bytes that stand for themselves before the parts of a row.
fn put_literal(row: &mut [bool], path: &[u8], literal: &[u8])
    requires { length row.old ≡ length path.now + 1 }
    ensures { (more : List Part) → IsRow (fits more) path.now row.old
        → IsRow (fits (map Byte literal.now ++ more)) path.now row.new }
{
    for place in 0..row.len() {
        row[place] = begins_literal(row, path, literal, place);
    }
}

/// Puts a part that stands for any bytes of a name before the parts of a row.
fn put_within_name(row: &mut [bool], path: &[u8])
    requires { length row.old ≡ length path.now + 1 }
    ensures { (more : List Part) → IsRow (fits more) path.now row.old
        → IsRow (fits (WithinName ∷ more)) path.now row.new }
{
    let mut i = path.len();
    while i > 0 {
        i -= 1;
        if row[i + 1] && path[i] != b'/' {
            row[i] = true;
        }
    }
}

/// Puts a part that stands for any bytes before the parts of a row.
fn put_anything(row: &mut [bool], path: &[u8])
    requires { length row.old ≡ length path.now + 1 }
    ensures { (more : List Part) → IsRow (fits more) path.now row.old
        → IsRow (fits (Anything ∷ more)) path.now row.new }
{
    let mut i = path.len();
    while i > 0 {
        i -= 1;
        if row[i + 1] {
            row[i] = true;
        }
    }
}

/// Puts a piece before the parts of a row.
pub(crate) fn put_piece(row: &mut [bool], path: &[u8], piece: &Piece)
    requires { length row.old ≡ length path.now + 1 }
    ensures { (more : List Part) → IsRow (fits more) path.now row.old
        → IsRow (fits (spelled piece.now ++ more)) path.now row.new }
{
    match piece {
        Piece::Literal(literal) => put_literal(row, path, literal.as_slice()),
        Piece::WithinName => put_within_name(row, path),
        Piece::Anything => put_anything(row, path),
    }
}
