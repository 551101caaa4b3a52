//! The words that a trace ends with.
ghost use Rattle.std.specs.Prelude.{◌++◌, ◌∷◌, [], List, IfOk, OnOk};
ghost use Rattle.word_table.specs.Placed.{AddsEnded};
ghost use Rattle.design_data.specs.Laws.{Value};
ghost use Rattle.point_sampler.specs.Points.{AreRecent};

use crate::state::Ending;
use cov_base::{Int, Memory};
use word_table::PlacedWords;

/// Keeps the next value of the trace, where there are words. Puts the places of the bins into `met` whose word the trace
/// ends with, and says whether there is one.
pub(crate) fn push_words(
    words: &PlacedWords,
    ending: &mut Ending,
    value: &Option<Int>,
    met: &mut Vec<u32>,
) -> Result<bool, Memory>
    ensures recent { OnOk result ((w : List Value) → AreRecent words.now ending.old.recent w
        → AreRecent words.now ending.new.recent (w ++ value.now ∷ [])) }
    ensures adds { IfOk result (AddsEnded words.now ending.new.recent met.old.items met.new.items) }
{
    if words.is_empty() {
        return Ok(false);
    }
    ending.recent.push(*value)?;
    let some = words.add_ended(&ending.recent, &mut ending.hits, met)?;
    Ok(some)
}
