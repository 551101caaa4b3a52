//! Lists with separators.
ghost use Rattle.std.specs.Prelude.{◌≡◌, ℕ, List};
ghost use Rattle.cov_lexer.specs.declared.kind.Kind.{Kind};
ghost use Rattle.cov_grammar.specs.declared.marked.Marked.{Marked};
ghost use Rattle.cov_grammar.specs.declared.place.Room.{Room};
ghost use Rattle.cov_grammar.specs.Rule.{Rule};
ghost use Rattle.cov_grammar.specs.Parses.{Parses};
ghost use Rattle.token_reader.specs.Reading.{over};
ghost use Rattle.token_reader.specs.Listing.{Added, Puts, list_of, more_of, Separable};

use crate::held::{Held, add};
use crate::reader::Reader;
use cov_grammar::{Kind, Place, Room, Stop};
use cov_tree::List;

/// The room that names need: none.
pub const NO_ROOM: Room = Room {
    levels: 0,
    operators: 0,
};

/// What the lists of one kind have between their separators.
pub trait Item {
    type Tree: Drop;

    ghost Written: { Type 0 };

    ghost rule: { Self → List ℕ → List Marked → Room → Rule Written };

    ghost put: { List Self.Tree → Written → List Self.Tree };

    ghost separators: { List Kind };

    /// What stands between two items.
    fn separators(&self) -> &'static [Kind]
        ensures { result.now ≡ separators };

    /// The item at this place, put to those before it. Answers the place behind it.
    fn read(
        &self,
        reader: Reader<'_>,
        place: Place,
        room: Room,
        list: &mut List<Self::Tree>,
    ) -> Result<Place, Stop>
        ensures { Puts (over reader.entry (rule self.now)) put room place list.old list.new
            result };

    ghost separable: { (item : Self) (text : List ℕ) (tokens : List Marked) →
        Separable tokens (rule item text tokens) separators };
}

impl Reader<'_> {
    /// Items with separators between them, one at least.
    pub fn list<I: Item>(
        self,
        place: Place,
        room: Room,
        item: &I,
    ) -> Result<(List<I::Tree>, Place), Stop>
        ensures { Parses (over self.entry (list_of (I.rule item.now) I.put I.separators))
            room place result }
    {
        let mut list = List::new(self.alloc);
        let at = item.read(self, place, room, &mut list)?;
        self.more(at, room, item, list)
    }

    /// Further items with separators before them, put to these; where there is none, these alone.
    pub fn more<I: Item>(
        self,
        place: Place,
        room: Room,
        item: &I,
        before: List<I::Tree>,
    ) -> Result<(List<I::Tree>, Place), Stop>
        ensures { Parses (over self.entry (more_of (I.rule item.now) I.put I.separators before))
            room place result }
    {
        let mut list = before;
        let mut at = place;
        while let Some((_, next)) = self.take(at, item.separators()) {
            at = item.read(self, next, room, &mut list)?;
        }
        Ok((list, at))
    }
}

/// What was read, put to the end of a list.
pub fn put_last<T: Drop>(
    list: &mut List<T>,
    read: Result<(Held<T>, Place), Stop>,
) -> Result<Place, Stop>
    ensures { Added read list.old list.new result }
{
    match read {
        Ok((part, after)) => {
            add(list, part)?;
            Ok(after)
        }
        Err(stop) => Err(stop),
    }
}
