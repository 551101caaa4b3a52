//! Patterns of paths.
ghost use Rattle.std.specs.Prelude.{◌≡◌, ◌↔◌, [], IfOk, IsTrue, false};
ghost use Rattle.waivers.specs.Patterns.{parts, IsMatch, fits, is_match};
ghost use Rattle.waivers.specs.Pieces.{parts_of, IsRow};

use crate::pieces::{Piece, pieces_of};
use crate::rows::{begin_row, put_piece};
use cov_ground::Memory;
use std::alloc::Global;
use std::marker::Model;

/// A pattern of paths. In it `*` stands for any bytes of a name, `**` for any bytes, and each other byte for itself.
/// Contracts see its parts.
pub struct Pattern {
    pieces: Vec<Piece>,
}

impl Drop for Pattern {
    fn drop(self) {
        let Pattern { pieces: _ } = self;
    }
}

impl Model for Pattern {
    ghost use Rattle.std.specs.Prelude.{List};
    ghost use Rattle.waivers.specs.Patterns.{Part};
    ghost use Rattle.waivers.specs.Pieces.{parts_of};

    ghost Value = { List Part };

    ghost view = { λ pattern. parts_of pattern.pieces.items };
}

/// Whether a path may fit pieces, by the bytes that they begin with.
fn may_fit(pieces: &[Piece], path: &[u8]) -> bool
    ensures { result ≡ false → fits (parts_of pieces.now) path.now ≡ false }
{
    match pieces.first() {
        Some(Piece::Literal(front)) => path.starts_with(front.as_slice()),
        _ => true,
    }
}

/// Whether a path fits pieces, by a row that is begun.
fn is_fit_by(row: &mut [bool], path: &[u8], pieces: &[Piece]) -> bool
    requires { IsRow (fits []) path.now row.old }
    ensures { result ≡ fits (parts_of pieces.now) path.now }
{
    let mut next = pieces.len();
    while next > 0 {
        next -= 1;
        put_piece(row, path, &pieces[next]);
    }
    row[0]
}

/// Whether a path fits pieces.
fn are_fit(pieces: &[Piece], row: &mut Vec<bool>, path: &[u8]) -> Result<bool, Memory>
    ensures { IfOk result (λ is. is ≡ fits (parts_of pieces.now) path.now) }
{
    if !may_fit(pieces, path) {
        return Ok(false);
    }
    begin_row(row, path)?;
    Ok(is_fit_by(row.as_mut_slice(), path, pieces))
}

impl Pattern {
    ghost use Rattle.std.specs.Prelude.{◌≡◌, ◌↔◌, IfOk, IsTrue};
    ghost use Rattle.waivers.specs.Patterns.{parts, Fits, fits};

    /// The pattern that is written so, of any bytes.
    pub fn of(alloc: Global, pattern: &[u8]) -> Result<Pattern, Memory>
        ensures { IfOk result (λ made. made ≡ parts pattern.now) }
    {
        Ok(Pattern {
            pieces: pieces_of(alloc, pattern)?,
        })
    }

    /// Whether it matches a path, in at most as many steps as the product of their lengths. `row` is room for a byte
    /// for each of the path and one more; what stands in it before and afterwards is of no matter.
    pub fn matches(&self, row: &mut Vec<bool>, path: &[u8]) -> Result<bool, Memory>
        ensures tested { IfOk result (λ is. is ≡ fits self.now path.now) }
        ensures meant { IfOk result (λ is. IsTrue is ↔ Fits self.now path.now) }
    {
        let is = are_fit(self.pieces.as_slice(), row, path)?;
        Ok(is)
    }
}

/// Whether a pattern matches a path.
pub fn matches(alloc: Global, pattern: &[u8], path: &[u8]) -> Result<bool, Memory>
    ensures tested { IfOk result (λ is. is ≡ is_match pattern.now path.now) }
    ensures meant { IfOk result (λ is. IsTrue is ↔ IsMatch pattern.now path.now) }
{
    let mut row = Vec::new(alloc);
    Pattern::of(alloc, pattern)?.matches(&mut row, path)
}
