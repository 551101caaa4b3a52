//! Numbers, names and bits of names.
ghost use Rattle.std.specs.Prelude.{◌≡◌, ◌<◌, ◌++◌, codes, slice_get, if◌then◌else◌, OnOk};
ghost use Rattle.std.specs.Fmt.{signed_decimal};
ghost use Rattle.const_eval.specs.Values.{bits_of};
ghost use Rattle.expr_text.specs.Expressions.{sized, number_text, name_of, signal_text, meaning_text, bits_text, part_text};

use appending::{append, append_number};
use bit_width::Width;
use const_eval::{ITEM, Meaning, Typ, cut_to};
use cov_base::Int;
use cov_ground::Memory;
use cov_ground::limits::MOST_SIGNALS;
use design_data::Signal;
use itoa::Buffer;

/// The signals and the arguments of a sample function that names stand for.
#[derive(Clone, Copy)]
pub(crate) struct Names<'a> {
    pub(crate) signals: &'a [Signal],
    pub(crate) arguments: &'a [Signal],
}

/// What stands before the digits of a number.
fn base(signed: bool) -> &'static str
    ensures { result.now ≡ if signed then codes "'sd" else codes "'d" }
{
    if signed { "'sd" } else { "'d" }
}

/// Adds a number of this type.
fn append_sized(text: &mut Vec<u8>, typ: Typ, number: i128) -> Result<(), Memory>
    ensures { OnOk result (text.new.items ≡ text.old.items ++ sized typ (signed_decimal number)) }
{
    let mut buffer = Buffer::new();
    append_number(text, u64::from(typ.width().get()))?;
    append(text, base(typ.is_signed()).as_bytes())?;
    append(text, buffer.format(number).as_bytes())
}

/// Adds a number by its bits.
pub(crate) fn append_bits(text: &mut Vec<u8>, typ: Typ, bits: u64) -> Result<(), Memory>
    ensures { OnOk result (text.new.items ≡ text.old.items ++ number_text typ bits) }
{
    append_sized(text, typ, i128::from(bits))
}

/// Adds a number by its value.
#[tactic(auto, unfolding(const_eval::specs::Values::cut))]
fn append_value(text: &mut Vec<u8>, typ: Typ, value: Int) -> Result<(), Memory>
    ensures { OnOk result (text.new.items ≡ text.old.items ++ number_text typ (bits_of typ.width value)) }
{
    let bits = cut_to(Typ::of(typ.width(), false), value);
    append_sized(text, typ, bits.get())
}

/// Adds the name of the signal at a place of a list, if there is one.
fn append_name(text: &mut Vec<u8>, signals: &[Signal], place: usize) -> Result<(), Memory>
    ensures { OnOk result (text.new.items ≡ text.old.items ++ name_of (slice_get signals.now place)) }
{
    match signals.get(place) {
        Some(signal) => append(text, signal.name.as_slice()),
        None => Ok(()),
    }
}

impl Names<'_> {
    /// Adds the name of the signal at this index.
    fn append_signal(&self, text: &mut Vec<u8>, index: u16) -> Result<(), Memory>
        ensures { OnOk result
            (text.new.items ≡ text.old.items ++ signal_text self.now.signals.now self.now.arguments.now index) }
    {
        if index == ITEM {
            return append(text, b"item");
        }
        let place = usize::from(index);
        if place < MOST_SIGNALS {
            append_name(text, self.signals, place)
        } else {
            append_name(text, self.arguments, place - MOST_SIGNALS)
        }
    }

    /// Adds what a name stands for.
    pub(crate) fn append_meaning(&self, text: &mut Vec<u8>, meaning: &Meaning) -> Result<(), Memory>
        ensures { OnOk result
            (text.new.items ≡ text.old.items ++ meaning_text self.now.signals.now self.now.arguments.now meaning.now) }
    {
        match meaning {
            Meaning::Signal { index, .. } => self.append_signal(text, *index),
            Meaning::Const { value, typ, .. } => append_value(text, *typ, *value),
        }
    }

    /// Adds bits of what a name stands for, from bit `skip` on.
    pub(crate) fn append_part(
        &self,
        text: &mut Vec<u8>,
        meaning: &Meaning,
        skip: u8,
        width: Width,
    ) -> Result<(), Memory>
        ensures { OnOk result (text.new.items
            ≡ text.old.items ++ part_text self.now.signals.now self.now.arguments.now meaning.now skip width) }
    {
        match meaning {
            Meaning::Signal { index, low, .. } => {
                self.append_signal(text, *index)?;
                append_span(text, u64::from(*low) + u64::from(skip), width)
            }
            Meaning::Const { value, typ, .. } => {
                append(text, b"{")?;
                append_value(text, *typ, *value)?;
                append(text, b"}")?;
                append_span(text, u64::from(skip), width)
            }
        }
    }
}

/// Adds the numbers of so many bits, of which the lowest is `low`.
fn append_span(text: &mut Vec<u8>, low: u64, width: Width) -> Result<(), Memory>
    requires { low < 65536 }
    ensures { OnOk result (text.new.items ≡ text.old.items ++ bits_text low width) }
{
    append(text, b"[")?;
    if width.get() != 1 {
        append_number(text, low + u64::from(width.get()) - 1)?;
        append(text, b":")?;
    }
    append_number(text, low)?;
    append(text, b"]")
}
