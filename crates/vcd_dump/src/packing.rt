//! The times and changes of a dump in bytes, and read back from them.
ghost use Rattle.std.specs.Prelude.{◌≡◌, ◌++◌, ◌-◌, ◌∷◌, [], ◌<◌, length, OnOk, IfSome, MatchOption};
ghost use Rattle.vcd_dump.specs.Packing.{number_bytes, number_in, bit_number, bit_of, form_of, value_bytes, value_in, changes, item_bytes, item_in, items_in, IsItem};
ghost use Rattle.vcd_dump.specs.declared.packing.Item.TheVariants.{Begins, Changes};

use crate::{Bit4, Change};
use cov_ground::Memory;

/// How many bytes of a number stand behind its first at most.
const MORE: u8 = 9;

/// A time, which begins a step, or a change in the step that stands open: what contracts see in the bytes of steps.
#[derive(Clone, Copy)]
pub enum Item {
    /// The time, in the dump's own unit.
    Begins { time: u64 },
    Changes { change: Change },
}

/// Appends a number.
#[tactic(auto, using(crate::proofs::Unpacked::more_bytes), unfolding(crate::specs::Packing::number_bytes))]
fn append_number(bytes: &mut Vec<u8>, more: u8, n: u64) -> Result<(), Memory>
    ensures { OnOk result (bytes.new.items ≡ bytes.old.items ++ number_bytes more n) }
{
    if more == 0 {
        bytes.push((n % 256) as u8)?;
        return Ok(());
    }
    if n < 128 {
        bytes.push(n as u8)?;
        return Ok(());
    }
    bytes.push((128 + n % 128) as u8)?;
    append_number(bytes, more - 1, n / 128)?;
    Ok(())
}

/// The number that bytes begin with, and the bytes behind it.
#[tactic(auto, unfolding(crate::specs::Packing::number_in))]
fn number_in(more: u8, bytes: &[u8]) -> (u64, &[u8])
    ensures n { result.0 ≡ (number_in more bytes.now).n }
    ensures rest { result.1.now ≡ (number_in more bytes.now).rest }
{
    let Some((byte, rest)) = bytes.split_first() else {
        return (0, bytes);
    };
    if more == 0 {
        return (*byte as u64, rest);
    }
    if *byte < 128 {
        return (*byte as u64, rest);
    }
    let (n, rest) = number_in(more - 1, rest);
    let low = (*byte - 128) as u64;
    (low.wrapping_add(n.wrapping_mul(128)), rest)
}

fn bit_number(bit: Bit4) -> u64
    ensures { result ≡ bit_number bit }
{
    match bit {
        Bit4::Zero => 0,
        Bit4::One => 1,
        Bit4::X => 2,
        Bit4::Z => 3,
    }
}

fn bit_of(n: u64) -> Bit4
    ensures { result ≡ bit_of n }
{
    match n {
        0 => Bit4::Zero,
        1 => Bit4::One,
        2 => Bit4::X,
        _ => Bit4::Z,
    }
}

fn form_of(value: Option<u64>) -> u64
    ensures { result ≡ form_of value }
{
    match value {
        None => 0,
        Some(value) => if value < 2 { value + 1 } else { 3 },
    }
}

fn append_value(bytes: &mut Vec<u8>, value: Option<u64>) -> Result<(), Memory>
    ensures { OnOk result (bytes.new.items ≡ bytes.old.items ++ value_bytes value) }
{
    match value {
        None => Ok(()),
        Some(value) => {
            if value < 2 {
                return Ok(());
            }
            append_number(bytes, MORE, value)
        }
    }
}

/// Appends a time.
#[tactic(auto, unfolding(crate::specs::Packing::item_bytes))]
fn append_time(bytes: &mut Vec<u8>, time: u64) -> Result<(), Memory>
    ensures fits { OnOk result (IsItem (Begins time)) }
    ensures bytes { OnOk result (bytes.new.items ≡ bytes.old.items ++ item_bytes (Begins time)) }
{
    bytes.push(0)?;
    append_number(bytes, MORE, time)?;
    Ok(())
}

/// Appends a change.
#[tactic(auto, unfolding(crate::specs::Packing::item_bytes))]
fn append_change(bytes: &mut Vec<u8>, change: Change) -> Result<(), Memory>
    ensures fits { OnOk result (IsItem (Changes change)) }
    ensures bytes { OnOk result (bytes.new.items ≡ bytes.old.items ++ item_bytes (Changes change)) }
{
    let low = bit_number(change.low) * 4;
    let head = 1 + (change.code as u64 * 16 + (low + form_of(change.value)));
    append_number(bytes, MORE, head)?;
    append_value(bytes, change.value)?;
    Ok(())
}

/// Appends an item.
pub(crate) fn append_item(bytes: &mut Vec<u8>, item: Item) -> Result<(), Memory>
    ensures fits { OnOk result (IsItem item) }
    ensures bytes { OnOk result (bytes.new.items ≡ bytes.old.items ++ item_bytes item) }
{
    match item {
        Item::Begins { time } => append_time(bytes, time),
        Item::Changes { change } => append_change(bytes, change),
    }
}

/// A value of this form that bytes begin with, and the bytes behind it.
#[tactic(auto, unfolding(crate::specs::Packing::value_in))]
fn value_in(form: u64, bytes: &[u8]) -> (Option<u64>, &[u8])
    ensures value { result.0 ≡ (value_in form bytes.now).value }
    ensures rest { result.1.now ≡ (value_in form bytes.now).rest }
{
    if form == 0 {
        return (None, bytes);
    }
    if form == 3 {
        let (value, rest) = number_in(MORE, bytes);
        return (Some(value), rest);
    }
    (Some(form - 1), bytes)
}

/// The change of this head whose value bytes begin with, and the bytes behind it.
fn change_in(head: u64, bytes: &[u8]) -> (Item, &[u8])
    ensures item { result.0 ≡ (changes head bytes.now).item }
    ensures rest { result.1.now ≡ (changes head bytes.now).rest }
{
    let (value, rest) = value_in(head % 4, bytes);
    let change = Change {
        code: (head / 16 % 4_294_967_296) as u32,
        value,
        low: bit_of(head / 4 % 4),
    };
    (Item::Changes { change }, rest)
}

/// The item that bytes begin with, and the bytes behind it.
#[tactic(auto, unfolding(crate::specs::Packing::item_in))]
fn item_in(bytes: &[u8]) -> (Item, &[u8])
    ensures item { result.0 ≡ (item_in bytes.now).item }
    ensures rest { result.1.now ≡ (item_in bytes.now).rest }
{
    let (head, rest) = number_in(MORE, bytes);
    if head == 0 {
        let (time, rest) = number_in(MORE, rest);
        return (Item::Begins { time }, rest);
    }
    change_in(head - 1, rest)
}

/// The first item that bytes hold, and the bytes behind it.
pub(crate) fn next_item(bytes: &[u8]) -> Option<(Item, &[u8])>
    ensures item { MatchOption result (items_in bytes.now ≡ [])
        (λ x. items_in bytes.now ≡ x.0 ∷ items_in x.1.now) }
    ensures shorter { IfSome result (λ x. length x.1.now < length bytes.now) }
{
    if bytes.is_empty() {
        return None;
    }
    Some(item_in(bytes))
}
