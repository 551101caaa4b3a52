//! Pieces of patterns.
ghost use Rattle.std.specs.Prelude.{◌≡◌, ◌<◌, ◌++◌, length, IfOk};
ghost use Rattle.std.specs.List.{position_or_len};
ghost use Rattle.waivers.specs.Patterns.{parts};
ghost use Rattle.waivers.specs.Pieces.{is_star, parts_of};

use cov_ground::Memory;
use cov_tree::Name;
use std::alloc::Global;

/// A piece of a pattern.
#[derive(Drop)]
pub(crate) enum Piece {
    /// Bytes that stand for themselves.
    Literal(Name),
    /// Any bytes of a name.
    WithinName,
    /// Any bytes.
    Anything,
}

/// How many bytes stand before the first star.
fn literal_end(pattern: &[u8]) -> usize
    ensures { result ≡ position_or_len is_star pattern.now }
{
    let mut end = 0;
    for byte in pattern {
        if *byte == b'*' {
            return end;
        }
        end += 1;
    }
    end
}

/// Adds the first piece of a pattern; what stands behind it.
#[tactic(auto, using(crate::proofs::Splits::piece_steps))]
fn add_first<'a>(
    alloc: Global,
    pieces: &mut Vec<Piece>,
    pattern: &'a [u8],
) -> Result<&'a [u8], Memory>
    requires { 0 < length pattern.now }
    ensures parts { IfOk result (λ rest. parts_of pieces.new.items ++ parts rest.now
        ≡ parts_of pieces.old.items ++ parts pattern.now) }
    ensures shorter { IfOk result (λ rest. length rest.now < length pattern.now) }
{
    if pattern[0] != b'*' {
        let (literal, rest) = pattern.split_at(literal_end(pattern));
        pieces.push(Piece::Literal(Name::of(alloc, literal)?))?;
        return Ok(rest);
    }
    if pattern.starts_with(b"**") {
        pieces.push(Piece::Anything)?;
        return Ok(&pattern[2..]);
    }
    pieces.push(Piece::WithinName)?;
    Ok(&pattern[1..])
}

/// The pieces of a pattern.
pub(crate) fn pieces_of(alloc: Global, pattern: &[u8]) -> Result<Vec<Piece>, Memory>
    ensures { IfOk result (λ pieces. parts_of pieces.items ≡ parts pattern.now) }
{
    let mut pieces = Vec::new(alloc);
    let mut rest = pattern;
    while !rest.is_empty() {
        rest = add_first(alloc, &mut pieces, rest)?;
    }
    Ok(pieces)
}
