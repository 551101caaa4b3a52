//! The bins of values that have a value.
ghost use Rattle.std.specs.Prelude.{◌≡◌, ◌++◌, OnOk, IfSome, Some, slice_get};
ghost use Rattle.cov_base.specs.Sets.{is_within};
ghost use Rattle.design_data.specs.Limits.{IsPointRule};
ghost use Rattle.point_tables.specs.Tables.{IsPoint, IsLookupOf, IsWordOf, IsQuestionOf, AreQuestionsOf, places_from, has_value as has_value_of};

use crate::keys::key_of;
use crate::rules::{has_value, note};
use crate::tables::{Lookup, Question, Questions};
use const_eval::Typ;
use cov_base::{Int, Memory, highest_of, lowest_of, power_of_two};
use design_data::{BinInfo, ItemInfo};

/// The bits of a number of the type.
fn bits_of(typ: Typ, number: Int) -> Option<u64>
    ensures { IfSome result (IsWordOf typ (Some number)) }
{
    let width = typ.width();
    let low = lowest_of(width, typ.is_signed()).get();
    let high = highest_of(width, typ.is_signed()).get();
    let value = number.get();
    if value < low {
        return None;
    }
    if value > high {
        return None;
    }
    if value >= 0 {
        return Some(value as u64);
    }
    Some((power_of_two(width.get()) - value.unsigned_abs()) as u64)
}

/// The bits of a value, where it is a number of the type.
fn word_of(typ: Typ, value: &Option<Int>) -> Option<u64>
    ensures { IfSome result (IsWordOf typ value.now) }
{
    match value {
        None => None,
        Some(number) => bits_of(typ, *number),
    }
}

/// Whether the number lies between the ends.
#[inline(always)]
fn lies_in(low: Int, high: Int, number: Int) -> bool
    ensures { result ≡ is_within number (low, high) }
{
    low.get() <= number.get() && number.get() <= high.get()
}

/// What the bin answers to its question: whether its rule is met. `word` has the bits of the value, where it is a number
/// of the type.
#[inline(always)]
fn answer(
    typ: Typ,
    question: &Question,
    word: Option<u64>,
    item: &ItemInfo,
    bin: &BinInfo,
    value: &Option<Int>,
) -> bool
    requires point { IsPoint item.now }
    requires own { IsPointRule item.now bin.now.kind bin.now.rule }
    requires question { IsQuestionOf typ bin.now.rule question.now }
    requires word { IfSome word (IsWordOf typ value.now) }
    ensures { result ≡ has_value_of item.now.bins value.now bin.now.rule }
{
    let _ = typ;
    match question {
        Question::Bits { fixed, bits } => match word {
            Some(word) => (word ^ *bits) & *fixed == 0,
            None => has_value(item, bin, value),
        },
        Question::Range { low, high } => match value {
            Some(number) => lies_in(*low, *high, *number),
            None => has_value(item, bin, value),
        },
        Question::Rule => has_value(item, bin, value),
    }
}

/// Whether the rule of the bin at this place is met.
#[inline(always)]
fn is_met(
    questions: &Questions,
    place: usize,
    word: Option<u64>,
    item: &ItemInfo,
    bin: &BinInfo,
    value: &Option<Int>,
) -> bool
    requires point { IsPoint item.now }
    requires own { IsPointRule item.now bin.now.kind bin.now.rule }
    requires questions { AreQuestionsOf item.now.bins questions.now }
    requires place { slice_get item.now.bins place ≡ Some bin.now }
    requires word { IfSome word (IsWordOf questions.now.typ value.now) }
    ensures { result ≡ has_value_of item.now.bins value.now bin.now.rule }
{
    match questions.list.get(place) {
        Some(question) => answer(questions.typ, question, word, item, bin, value),
        None => has_value(item, bin, value),
    }
}

/// Appends the places of the bins of values whose rule is met, by asking each bin.
fn walk_values(
    questions: &Questions,
    item: &ItemInfo,
    value: &Option<Int>,
    met: &mut Vec<u32>,
) -> Result<(), Memory>
    requires point { IsPoint item.now }
    requires questions { AreQuestionsOf item.now.bins questions.now }
    ensures { OnOk result (met.new.items
        ≡ met.old.items ++ places_from (λ bin. has_value_of item.now.bins value.now bin.rule) 0 item.now.bins) }
{
    let word = word_of(questions.typ, value);
    for (place, bin) in item.bins.as_slice().iter().enumerate() {
        note(
            place as u32,
            is_met(questions, place, word, item, bin, value),
            met,
        )?;
    }
    Ok(())
}

/// Appends the places of the bins of values whose rule is met: those that the index finds, where it has the value.
pub fn add_values(
    lookup: &Option<Lookup>,
    questions: &Questions,
    item: &ItemInfo,
    value: &Option<Int>,
    met: &mut Vec<u32>,
) -> Result<(), Memory>
    requires point { IsPoint item.now }
    requires lookup { IfSome lookup.now (IsLookupOf item.now.bins) }
    requires questions { AreQuestionsOf item.now.bins questions.now }
    ensures { OnOk result (met.new.items
        ≡ met.old.items ++ places_from (λ bin. has_value_of item.now.bins value.now bin.rule) 0 item.now.bins) }
{
    let Some(lookup) = lookup else {
        walk_values(questions, item, value, met)?;
        return Ok(());
    };
    let Some(number) = value else {
        met.extend_from_slice(lookup.unknown.as_slice())?;
        return Ok(());
    };
    let Some(key) = key_of(lookup.least, *number) else {
        walk_values(questions, item, value, met)?;
        return Ok(());
    };
    met.extend_from_slice(lookup.index.hits(key))?;
    Ok(())
}
