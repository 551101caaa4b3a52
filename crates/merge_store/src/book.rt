//! A store under a lock.
ghost use Rattle.std.specs.Prelude.{◌≡◌, length};

use crate::Store;
use cov_base::Book;
use cov_history::Entry;
use design_data::Design;

impl Book for Store {
    ghost use Rattle.std.specs.Prelude.{map};
    ghost use Rattle.std.specs.Arc.{arc_value};
    ghost use Rattle.store_parts.specs.Words.{entry_of};
    ghost use Rattle.store_parts.specs.Sound.{IsSound};

    type Base = Design;

    type Entry = Entry;

    ghost base = { λ s. arc_value s.opening };

    ghost entries = { λ s. map entry_of s.entries.items };

    ghost number = { λ e. e.caller };

    ghost sound = { IsSound };

    ghost is_sound = { λ s. record {
      history = record { legal = s.keeps.legal; declared = s.keeps.declared };
      going = s.keeps.going;
    } };

    fn len(&self) -> u64 {
        self.entries.as_slice().len() as u64
    }
}
