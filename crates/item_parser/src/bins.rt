//! Declarations of bins of a coverpoint (IEEE 1800-2017, 19.5).
ghost use Rattle.std.specs.Prelude.{◌≡◌, ◌&&◌, not, refl, IfOk, IfErr};
ghost use Rattle.cov_grammar.specs.Parses.{Parses};
ghost use Rattle.cov_grammar.specs.Bins.{bins, bins_head, size, right, bins_word, bins_word_of, is_some, is_fixed, is_scalar, default_of};
ghost use Rattle.cov_grammar.proofs.BinsLaws.{bins_lawful};
ghost use Rattle.cov_grammar.proofs.GroupLaws.{point_entry_lawful};
ghost use Rattle.token_reader.specs.Reading.{FailsAlways, ParsesAlways, ReadsAlways, Took, over};
ghost use Rattle.item_parser.specs.Heads.{head_seen};
ghost use Rattle.item_parser.specs.Parts.{default_end, listed, maybe_wildcard};

use crate::bodies::Declared;
use crate::options::guard;
use crate::steps::sequences;
use cov_grammar::{Kind, Place, Room, Standing, Stop};
use cov_tree::{BinsDecl, Name, Right, Size, Word};
use range_parser::{values, whole_expr};
use token_reader::{Held, Reader};

/// What stands before the size of bins.
#[derive(Drop)]
struct Head {
    wildcard: bool,
    word: Word,
    name: Name,
    start: u32,
}

/// A declaration of bins.
fn bins(reader: Reader<'_>, place: Place, room: Room) -> Result<(Held<BinsDecl>, Place), Stop>
    ensures { Parses (over reader.entry bins) room place result }
{
    let (head, at) = bins_head(reader, place)?;
    let (size, at) = size(reader, at, room)?;
    let (_, at) = reader.word(at, Kind::Assign)?;
    let (right, at) = right(reader, at, room, head.wildcard, size.get())?;
    let (guard, at) = guard(reader, at, room)?;
    let (_, after) = reader.word(at, Kind::Semi)?;
    let Head {
        wildcard,
        word,
        name,
        start,
    } = head;
    let declaration = BinsDecl {
        wildcard,
        word,
        name,
        size: size.put(),
        right: right.put(),
        guard: guard.put(),
        at: start,
    };
    Ok((Held::of(declaration), after))
}

/// `wildcard` or not, the word of bins and their name.
fn bins_head(reader: Reader<'_>, place: Place) -> Result<(Head, Place), Stop>
    ensures read { IfOk result (λ x.
        ReadsAlways (over reader.entry bins_head) place (head_seen x.0, x.1)) }
    ensures fails { IfErr result (FailsAlways (over reader.entry bins_head) place) }
{
    let start = reader.start_at(place.at);
    let (wildcard, at) = wildcard(reader, place);
    let (word, at) = bins_word(reader, at)?;
    let (name, after) = reader.ident(at)?;
    let head = Head {
        wildcard,
        word,
        name,
        start,
    };
    Ok((head, after))
}

/// Whether `wildcard` stands, and the place behind it.
fn wildcard(reader: Reader<'_>, place: Place) -> (bool, Place)
    ensures { Took (over reader.entry maybe_wildcard) (λ t. is_some t ≡ result.0) place result.1 }
{
    match reader.take(place, &[Kind::WildcardWord]) {
        Some((_, after)) => (true, after),
        None => (false, place),
    }
}

/// The word of a declaration of bins.
fn bins_word(reader: Reader<'_>, place: Place) -> Result<(Word, Place), Stop>
    ensures { ParsesAlways (over reader.entry bins_word) place result }
{
    let Some((token, after)) = reader.take(
        place,
        &[Kind::BinsWord, Kind::IllegalBinsWord, Kind::IgnoreBinsWord],
    ) else {
        return Err(Stop::Syntax(place.at));
    };
    Ok((bins_word_of(token.kind), after))
}

/// The word of bins that the token is.
pub(crate) fn bins_word_of(kind: Kind) -> Word
    ensures { result ≡ bins_word_of kind }
{
    match kind {
        Kind::BinsWord => Word::Bins,
        Kind::IllegalBinsWord => Word::Illegal,
        _ => Word::Ignore,
    }
}

/// `[]`, a number in brackets, or nothing.
fn size(reader: Reader<'_>, place: Place, room: Room) -> Result<(Held<Size>, Place), Stop>
    ensures { Parses (over reader.entry size) room place result }
{
    let Some((_, next)) = reader.take(place, &[Kind::OpenIndex, Kind::OpenSquare]) else {
        return Ok((Held::of(Size::Scalar), place));
    };
    if let Some((_, after)) = reader.take(next, &[Kind::CloseSquare]) {
        return Ok((Held::of(Size::Open), after));
    }
    let (count, at) = whole_expr(reader, next, room, Standing::Plain)?;
    let (_, after) = reader.word(at, Kind::CloseSquare)?;
    Ok((Held::of(Size::Fixed(count.put())), after))
}

/// What bins count. Wildcard bins and bins of a given number have no `default`.
fn right(
    reader: Reader<'_>,
    place: Place,
    room: Room,
    wildcard: bool,
    size: &Size,
) -> Result<(Held<Right>, Place), Stop>
    ensures { Parses (over reader.entry right wildcard size.now) room place result }
{
    if !may_default(wildcard, size) {
        return listed(reader, place, room, size);
    }
    let Some((_, next)) = reader.take(place, &[Kind::DefaultWord]) else {
        return listed(reader, place, room, size);
    };
    Ok(default_end(reader, next, size))
}

/// Values or sequences. Bins of a given number have no sequences.
fn listed(
    reader: Reader<'_>,
    place: Place,
    room: Room,
    size: &Size,
) -> Result<(Held<Right>, Place), Stop>
    ensures { Parses (over reader.entry listed size.now) room place result }
{
    if is_fixed(size) {
        return values(reader, place, room);
    }
    let Some(_) = reader.take(place, &[Kind::OpenParen]) else {
        return values(reader, place, room);
    };
    let (sequences, after) = sequences(reader, place, room)?;
    Ok((Held::of(Right::Trans(sequences)), after))
}

fn may_default(wildcard: bool, size: &Size) -> bool
    ensures { result ≡ (not wildcard && not (is_fixed size.now)) }
{
    if wildcard {
        return false;
    }
    !is_fixed(size)
}

fn is_fixed(size: &Size) -> bool
    ensures { result ≡ is_fixed size.now }
{
    match size {
        Size::Fixed(_) => true,
        Size::Open => false,
        Size::Scalar => false,
    }
}

fn is_scalar(size: &Size) -> bool
    ensures { result ≡ is_scalar size.now }
{
    match size {
        Size::Scalar => true,
        Size::Open => false,
        Size::Fixed(_) => false,
    }
}

/// What stands behind `default`: `sequence`, where there is one bin, or nothing.
fn default_end(reader: Reader<'_>, place: Place, size: &Size) -> (Held<Right>, Place)
    ensures { Took (over reader.entry default_end size.now)
        (λ t. default_of t ≡ result.0) place result.1 }
{
    if !is_scalar(size) {
        return (Held::of(Right::Default), place);
    }
    match reader.take(place, &[Kind::SequenceWord]) {
        Some((_, after)) => (Held::of(Right::DefaultSequence), after),
        None => (Held::of(Right::Default), place),
    }
}

impl Declared for BinsDecl {
    ghost rule = { bins };

    fn read(reader: Reader<'_>, place: Place, room: Room) -> Result<(Held<BinsDecl>, Place), Stop> {
        bins(reader, place, room)
    }

    ghost beside = { λ text tokens. record {
      lawful = bins_lawful text tokens;
      full = refl;
      other = refl;
      entries = point_entry_lawful text tokens;
      filled = refl;
      again = refl;
      shut = refl;
      closed = refl;
    } };
}
