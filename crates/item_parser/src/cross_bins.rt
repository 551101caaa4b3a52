//! Bins of crosses (IEEE 1800-2017, 19.6).
ghost use Rattle.std.specs.Prelude.{refl};
ghost use Rattle.cov_grammar.specs.Parses.{Parses};
ghost use Rattle.cov_grammar.specs.Groups.{cross_bins};
ghost use Rattle.cov_grammar.proofs.GroupLaws.{cross_bins_lawful, cross_entry_lawful};
ghost use Rattle.token_reader.specs.Reading.{over};

use crate::bins::bins_word_of;
use crate::bodies::Declared;
use crate::options::guard;
use cov_grammar::{Kind, Place, Room, Stop};
use cov_tree::CrossBins;
use range_parser::selection;
use token_reader::{Held, Reader};

/// A bin of a cross.
fn cross_bins(
    reader: Reader<'_>,
    place: Place,
    room: Room,
) -> Result<(Held<CrossBins>, Place), Stop>
    ensures { Parses (over reader.entry cross_bins) room place result }
{
    let Some((token, next)) = reader.take(
        place,
        &[Kind::BinsWord, Kind::IllegalBinsWord, Kind::IgnoreBinsWord],
    ) else {
        return Err(Stop::Syntax(place.at));
    };
    let (name, at) = reader.ident(next)?;
    let (_, at) = reader.word(at, Kind::Assign)?;
    let (sel, at) = selection(reader, at, room)?;
    let (guard, at) = guard(reader, at, room)?;
    let (_, after) = reader.word(at, Kind::Semi)?;
    let declaration = CrossBins {
        word: bins_word_of(token.kind),
        name,
        sel: sel.put(),
        guard: guard.put(),
        at: token.at,
    };
    Ok((Held::of(declaration), after))
}

impl Declared for CrossBins {
    ghost rule = { cross_bins };

    fn read(
        reader: Reader<'_>,
        place: Place,
        room: Room,
    ) -> Result<(Held<CrossBins>, Place), Stop> {
        cross_bins(reader, place, room)
    }

    ghost beside = { λ text tokens. record {
      lawful = cross_bins_lawful text tokens;
      full = refl;
      other = refl;
      entries = cross_entry_lawful text tokens;
      filled = refl;
      again = refl;
      shut = refl;
      closed = refl;
    } };
}
