//! Transition items as text.
ghost use Rattle.std.specs.Prelude.{◌≡◌, ◌++◌, false, OnOk};
ghost use Rattle.std.specs.List.{flat_map};
ghost use Rattle.std.specs.Ordering.{int_eq};
ghost use Rattle.std.specs.Fmt.{signed_decimal};
ghost use Rattle.ucis_elements.specs.Numbers.{interval_text, further_text, set_text, bounds_text, repeat_text, item_text};

use appending::{append, append_number};
use cov_base::{Int, Memory};
use itoa::Buffer;
use trans_seq::{Item, Repeat};

/// Adds a number, which may have a sign.
fn append_int(text: &mut Vec<u8>, number: Int) -> Result<(), Memory>
    ensures { OnOk result (text.new.items ≡ text.old.items ++ signed_decimal number) }
{
    let mut buffer = Buffer::new();
    append(text, buffer.format(number.get()).as_bytes())
}

/// Whether an interval has one number.
fn is_one(low: Int, high: Int) -> bool
    ensures { result ≡ int_eq low high }
{
    low.get() == high.get()
}

/// `[low:high]`
fn append_ends(text: &mut Vec<u8>, low: Int, high: Int) -> Result<(), Memory>
    requires { int_eq low high ≡ false }
    ensures { OnOk result (text.new.items ≡ text.old.items ++ interval_text (low, high)) }
{
    append(text, b"[")?;
    append_int(text, low)?;
    append(text, b":")?;
    append_int(text, high)?;
    append(text, b"]")
}

/// `v`, or `[low:high]`
fn append_interval(text: &mut Vec<u8>, low: Int, high: Int) -> Result<(), Memory>
    ensures { OnOk result (text.new.items ≡ text.old.items ++ interval_text (low, high)) }
{
    if is_one(low, high) {
        return append_int(text, low);
    }
    append_ends(text, low, high)
}

/// Intervals behind another.
fn append_further(text: &mut Vec<u8>, intervals: &[(Int, Int)]) -> Result<(), Memory>
    ensures { OnOk result (text.new.items ≡ text.old.items ++ flat_map further_text intervals.now) }
{
    for (low, high) in intervals {
        append(text, b",")?;
        append_interval(text, *low, *high)?;
    }
    Ok(())
}

/// The intervals of a set, with commas between them.
#[tactic(auto, unfolding(crate::specs::Numbers::set_text))]
fn append_set(text: &mut Vec<u8>, intervals: &[(Int, Int)]) -> Result<(), Memory>
    ensures { OnOk result (text.new.items ≡ text.old.items ++ set_text intervals.now) }
{
    let Some(((low, high), further)) = intervals.split_first() else {
        return Ok(());
    };
    append_interval(text, *low, *high)?;
    append_further(text, further)
}

/// `[MARKlow:high]`
fn append_bounds(text: &mut Vec<u8>, mark: &str, low: u32, high: u32) -> Result<(), Memory>
    ensures { OnOk result (text.new.items ≡ text.old.items ++ bounds_text mark.now low high) }
{
    append(text, b"[")?;
    append(text, mark.as_bytes())?;
    append_number(text, u64::from(low))?;
    append(text, b":")?;
    append_number(text, u64::from(high))?;
    append(text, b"]")
}

/// How often the values of an item stand.
fn append_repeat(text: &mut Vec<u8>, repeat: Repeat) -> Result<(), Memory>
    ensures { OnOk result (text.new.items ≡ text.old.items ++ repeat_text repeat) }
{
    match repeat {
        Repeat::Once => Ok(()),
        Repeat::Consec { low, high } => append_bounds(text, "*", low, high),
        Repeat::Goto { low, high } => append_bounds(text, "->", low, high),
        Repeat::NonConsec { low, high } => append_bounds(text, "=", low, high),
    }
}

/// An item of a transition sequence, as a design text has it.
#[tactic(auto, unfolding(crate::specs::Numbers::item_text))]
pub(crate) fn append_item(text: &mut Vec<u8>, item: &Item) -> Result<(), Memory>
    ensures { OnOk result (text.new.items ≡ text.old.items ++ item_text item.now) }
{
    append_set(text, item.set.intervals())?;
    append_repeat(text, item.repeat)
}
