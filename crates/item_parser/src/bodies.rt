//! The bodies of coverpoints and crosses: options, and bins of one kind (IEEE 1800-2017, 19.5 and 19.6).
ghost use Rattle.std.specs.Prelude.{◌≡◌, ℕ, List, IfOk, IfErr};
ghost use Rattle.cov_grammar.specs.declared.marked.Marked.{Marked};
ghost use Rattle.cov_grammar.specs.declared.place.Room.{Room};
ghost use Rattle.cov_grammar.specs.Rule.{Rule};
ghost use Rattle.cov_grammar.specs.Parses.{Reads, Fails, Parses};
ghost use Rattle.cov_grammar.specs.Groups.{Entry, put};
ghost use Rattle.token_reader.specs.Reading.{over};
ghost use Rattle.item_parser.specs.Bodies.{body_of, entry_of, BesideOptions};

use crate::options::option;
use cov_grammar::{Kind, Place, Room, Stop};
use cov_tree::{List, OptDecl};
use token_reader::{Held, Reader, add};

/// What a body declares beside options.
pub(crate) trait Declared: Drop + Sized {
    ghost rule: { List ℕ → List Marked → Room → Rule Self };

    /// The declaration at this place.
    fn read(reader: Reader<'_>, place: Place, room: Room) -> Result<(Held<Self>, Place), Stop>
        ensures { Parses (over reader.entry rule) room place result };

    ghost beside: { (text : List ℕ) (tokens : List Marked) →
        BesideOptions text tokens (rule text tokens) };
}

/// `;`, or options and declarations in braces.
pub(crate) fn body<D: Declared>(
    reader: Reader<'_>,
    place: Place,
    room: Room,
) -> Result<((List<OptDecl>, List<D>), Place), Stop>
    ensures { Parses (over reader.entry (body_of D.rule)) room place result }
{
    let mut options = List::new(reader.alloc);
    let mut declarations = List::new(reader.alloc);
    if let Some((_, after)) = reader.take(place, &[Kind::Semi]) {
        return Ok(((options, declarations), after));
    }
    let (_, mut at) = reader.word(place, Kind::OpenBrace)?;
    loop {
        if let Some((_, after)) = reader.take(at, &[Kind::CloseBrace]) {
            return Ok(((options, declarations), after));
        }
        at = read_entry(reader, at, room, &mut options, &mut declarations)?;
    }
}

/// An option or a declaration, put behind those that were read.
fn read_entry<D: Declared>(
    reader: Reader<'_>,
    place: Place,
    room: Room,
    options: &mut List<OptDecl>,
    declarations: &mut List<D>,
) -> Result<Place, Stop>
    ensures read { IfOk result (λ after. (entry : Entry D) ×
        Reads (over reader.entry (entry_of D.rule)) room place entry after ×
        ((options.new, declarations.new) ≡ put (options.old, declarations.old) entry)) }
    ensures fails { IfErr result (Fails (over reader.entry (entry_of D.rule)) room place) }
{
    if let Some(_) = reader.take(place, &[Kind::OptionWord, Kind::TypeOptionWord]) {
        let (option, after) = option(reader, place, room)?;
        add(options, option)?;
        return Ok(after);
    }
    let (declaration, after) = D::read(reader, place, room)?;
    add(declarations, declaration)?;
    Ok(after)
}
