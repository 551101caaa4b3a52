//! What a bin counts, as elements.
ghost use Rattle.std.specs.Prelude.{◌≡◌, ◌++◌, OnOk};
ghost use Rattle.bin_spec.specs.Types.{domain};
ghost use Rattle.markup.specs.Trees.{each, markup_text};
ghost use Rattle.ucis_elements.specs.Words.{user_attr};
ghost use Rattle.ucis_elements.specs.Bins.{contents as contents_meant, range_element, pattern_element, pattern_attr, seq_value, item_element, seq_element, index_element, default_sequence, rule_elements, index_elements};

use crate::patterns::{append_pattern, greatest, least};
use crate::texts::append_item;
use crate::words::append_user_attr;
use const_eval::Typ;
use cov_base::{Int, Memory, highest_of, lowest_of};
use design_data::BinRule;
use itoa::Buffer;
use markup::{append_escaped, begin_tag, close, end_empty, end_tag, integer, number};
use std::alloc::Global;
use trans_seq::{Item, Seq};
use wildcard_bins::Pattern;

/// How often the bin was hit.
pub(crate) fn append_contents(text: &mut Vec<u8>, count: u64) -> Result<(), Memory>
    ensures { OnOk result (text.new.items ≡ text.old.items ++ markup_text (contents_meant count)) }
{
    begin_tag(text, "contents")?;
    number(text, "coverageCount", count)?;
    end_empty(text)
}

/// Values, with the bin's count.
#[tactic(auto, unfolding(crate::specs::Bins::range_element))]
fn append_range(text: &mut Vec<u8>, count: u64, low: i128, high: i128) -> Result<(), Memory>
    ensures { OnOk result (text.new.items ≡ text.old.items ++ markup_text (range_element count (low, high))) }
{
    begin_tag(text, "range")?;
    integer(text, "from", low)?;
    integer(text, "to", high)?;
    end_tag(text)?;
    append_contents(text, count)?;
    close(text, "range")
}

/// The intervals of a set.
fn append_ranges(text: &mut Vec<u8>, count: u64, intervals: &[(Int, Int)]) -> Result<(), Memory>
    ensures { OnOk result (text.new.items ≡ text.old.items ++ markup_text (each (range_element count) intervals.now)) }
{
    for (low, high) in intervals {
        append_range(text, count, low.get(), high.get())?;
    }
    Ok(())
}

/// From the least to the greatest number of each pattern.
fn append_spans(text: &mut Vec<u8>, count: u64, patterns: &[Pattern]) -> Result<(), Memory>
    ensures { OnOk result (text.new.items ≡ text.old.items ++ markup_text (each (pattern_element count) patterns.now)) }
{
    for pattern in patterns {
        append_range(text, count, least(pattern), greatest(pattern))?;
    }
    Ok(())
}

/// A pattern itself.
fn append_pattern_attr(alloc: Global, text: &mut Vec<u8>, pattern: &Pattern) -> Result<(), Memory>
    ensures { OnOk result (text.new.items ≡ text.old.items ++ markup_text (pattern_attr pattern.now)) }
{
    let mut literal = Vec::new(alloc);
    append_pattern(&mut literal, pattern)?;
    append_user_attr(text, "pattern", literal.as_slice())?;
    Ok(())
}

/// The patterns themselves.
fn append_pattern_attrs(
    alloc: Global,
    text: &mut Vec<u8>,
    patterns: &[Pattern],
) -> Result<(), Memory>
    ensures { OnOk result (text.new.items ≡ text.old.items ++ markup_text (each pattern_attr patterns.now)) }
{
    for pattern in patterns {
        append_pattern_attr(alloc, text, pattern)?;
    }
    Ok(())
}

/// A step of a sequence.
fn append_seq_value(text: &mut Vec<u8>, value: &[u8]) -> Result<(), Memory>
    ensures { OnOk result (text.new.items ≡ text.old.items ++ markup_text (seq_value value.now)) }
{
    begin_tag(text, "seqValue")?;
    end_tag(text)?;
    append_escaped(text, value)?;
    close(text, "seqValue")
}

/// An item of a sequence.
fn append_item_element(alloc: Global, text: &mut Vec<u8>, item: &Item) -> Result<(), Memory>
    ensures { OnOk result (text.new.items ≡ text.old.items ++ markup_text (item_element item.now)) }
{
    let mut value = Vec::new(alloc);
    append_item(&mut value, item)?;
    append_seq_value(text, value.as_slice())?;
    Ok(())
}

/// The items of a sequence.
fn append_items(alloc: Global, text: &mut Vec<u8>, items: &[Item]) -> Result<(), Memory>
    ensures { OnOk result (text.new.items ≡ text.old.items ++ markup_text (each item_element items.now)) }
{
    for item in items {
        append_item_element(alloc, text, item)?;
    }
    Ok(())
}

/// A sequence.
#[tactic(auto, unfolding(crate::specs::Bins::seq_element))]
fn append_seq(alloc: Global, text: &mut Vec<u8>, count: u64, seq: &Seq) -> Result<(), Memory>
    ensures { OnOk result (text.new.items ≡ text.old.items ++ markup_text (seq_element count seq.now)) }
{
    begin_tag(text, "sequence")?;
    end_tag(text)?;
    append_contents(text, count)?;
    append_items(alloc, text, seq.items.as_slice())?;
    close(text, "sequence")
}

/// The sequences of a transition bin.
fn append_seqs(alloc: Global, text: &mut Vec<u8>, count: u64, seqs: &[Seq]) -> Result<(), Memory>
    ensures { OnOk result (text.new.items ≡ text.old.items ++ markup_text (each (seq_element count) seqs.now)) }
{
    for seq in seqs {
        append_seq(alloc, text, count, seq)?;
    }
    Ok(())
}

/// The sequence of a bin `default sequence`.
fn append_default_sequence(text: &mut Vec<u8>, count: u64) -> Result<(), Memory>
    ensures { OnOk result (text.new.items ≡ text.old.items ++ markup_text (default_sequence count)) }
{
    begin_tag(text, "sequence")?;
    end_tag(text)?;
    append_contents(text, count)?;
    append_seq_value(text, b"default")?;
    close(text, "sequence")
}

/// All values of a type.
fn append_type(text: &mut Vec<u8>, count: u64, typ: Typ) -> Result<(), Memory>
    ensures { OnOk result (text.new.items ≡ text.old.items ++ markup_text (range_element count (domain typ.width typ.signed))) }
{
    let low = lowest_of(typ.width(), typ.is_signed());
    let high = highest_of(typ.width(), typ.is_signed());
    append_range(text, count, low.get(), high.get())
}

/// What a bin of a point of this type counts.
#[tactic(auto, unfolding(crate::specs::Bins::rule_elements))]
pub(crate) fn append_rule(
    alloc: Global,
    text: &mut Vec<u8>,
    typ: Typ,
    count: u64,
    rule: &BinRule,
) -> Result<(), Memory>
    ensures { OnOk result (text.new.items ≡ text.old.items ++ markup_text (rule_elements typ count rule.now)) }
{
    match rule {
        BinRule::Values(set) => append_ranges(text, count, set.intervals()),
        BinRule::Patterns(patterns) => {
            append_spans(text, count, patterns.as_slice())?;
            append_pattern_attrs(alloc, text, patterns.as_slice())
        }
        BinRule::Trans(seqs) => append_seqs(alloc, text, count, seqs.as_slice()),
        BinRule::Default => {
            append_type(text, count, typ)?;
            append_user_attr(text, "rule", b"default")
        }
        BinRule::DefaultValues(set) => {
            append_ranges(text, count, set.intervals())?;
            append_user_attr(text, "rule", b"default")
        }
        BinRule::DefaultSequence => append_default_sequence(text, count),
        BinRule::Picked(_) | BinRule::Product(_) => Ok(()),
    }
}

/// The place of a bin of one axis.
fn append_index(text: &mut Vec<u8>, index: u32) -> Result<(), Memory>
    ensures { OnOk result (text.new.items ≡ text.old.items ++ markup_text (index_element index)) }
{
    let mut buffer = Buffer::new();
    begin_tag(text, "index")?;
    end_tag(text)?;
    append_escaped(text, buffer.format(index).as_bytes())?;
    close(text, "index")
}

/// The places of the bins of a product.
fn append_members(text: &mut Vec<u8>, members: &[u32]) -> Result<(), Memory>
    ensures { OnOk result (text.new.items ≡ text.old.items ++ markup_text (each index_element members.now)) }
{
    for index in members {
        append_index(text, *index)?;
    }
    Ok(())
}

/// Of an automatic bin of a cross, the place of its bin among the coverage bins of each crossed point.
pub(crate) fn append_indexes(text: &mut Vec<u8>, rule: &BinRule) -> Result<(), Memory>
    ensures { OnOk result (text.new.items ≡ text.old.items ++ markup_text (index_elements rule.now)) }
{
    match rule {
        BinRule::Product(members) => append_members(text, members.as_slice()),
        _ => Ok(()),
    }
}
