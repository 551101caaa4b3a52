//! Bins as elements.
ghost use Rattle.std.specs.Prelude.{◌≡◌, ◌++◌, OnOk};
ghost use Rattle.markup.specs.Trees.{markup_text, start_text};
ghost use Rattle.ucis_elements.specs.Bins.{point_bin, point_element, cross_bin, bin_attributes};

use crate::rules::{append_contents, append_indexes, append_rule};
use crate::words::{append_named, kind_word};
use const_eval::Typ;
use cov_base::Memory;
use design_data::BinInfo;
use markup::{begin_tag, close, end_line, end_tag, value};
use std::alloc::Global;

/// The first tag of a bin.
fn begin_bin(
    text: &mut Vec<u8>,
    word: &str,
    key: u32,
    excluded: bool,
    bin: &BinInfo,
) -> Result<(), Memory>
    ensures { OnOk result (text.new.items ≡ text.old.items ++ start_text word.now (bin_attributes key excluded bin.now)) }
{
    begin_tag(text, word)?;
    append_named(text, bin.name.as_slice(), key, excluded)?;
    value(text, "type", kind_word(bin.kind).as_bytes())?;
    end_tag(text)
}

/// A bin of a point of this type.
#[tactic(auto, unfolding(crate::specs::Bins::point_element))]
fn append_point_element(
    alloc: Global,
    text: &mut Vec<u8>,
    typ: Typ,
    key: u32,
    excluded: bool,
    count: u64,
    bin: &BinInfo,
) -> Result<(), Memory>
    ensures { OnOk result (text.new.items ≡ text.old.items ++ markup_text (point_element typ key excluded count bin.now)) }
{
    begin_bin(text, "coverpointBin", key, excluded, bin)?;
    append_rule(alloc, text, typ, count, &bin.rule)?;
    close(text, "coverpointBin")
}

/// A bin of a point of this type, in a line of its own.
pub fn append_point_bin(
    alloc: Global,
    text: &mut Vec<u8>,
    typ: Typ,
    key: u32,
    excluded: bool,
    count: u64,
    bin: &BinInfo,
) -> Result<(), Memory>
    ensures { OnOk result (text.new.items ≡ text.old.items ++ markup_text (point_bin typ key excluded count bin.now)) }
{
    append_point_element(alloc, text, typ, key, excluded, count, bin)?;
    end_line(text)
}

/// A bin of a cross, in a line of its own.
#[tactic(auto, unfolding(crate::specs::Bins::cross_bin))]
pub fn append_cross_bin(
    text: &mut Vec<u8>,
    key: u32,
    excluded: bool,
    count: u64,
    bin: &BinInfo,
) -> Result<(), Memory>
    ensures { OnOk result (text.new.items ≡ text.old.items ++ markup_text (cross_bin key excluded count bin.now)) }
{
    begin_bin(text, "crossBin", key, excluded, bin)?;
    append_indexes(text, &bin.rule)?;
    append_contents(text, count)?;
    close(text, "crossBin")?;
    end_line(text)
}
