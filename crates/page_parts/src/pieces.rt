//! Numbers, bars and figures.
ghost use Rattle.std.specs.Prelude.{◌≡◌, [], ◌∷◌, ◌++◌, ◌+◌, codes, OnOk};
ghost use Rattle.markup.specs.Trees.{markup_text, start_text, end_text, line_end};
ghost use Rattle.page_parts.specs.Pieces.{of_class, digits, said as said_meant, counted as counted_meant, percent, bar, ratio, label_piece, strong_percent, figure_text as text_meant, figure_count as count_meant, figure_ratio as ratio_meant, overall as overall_meant, left_out as left_out_meant};

use cov_ground::Memory;
use itoa::Buffer;
use markup::{append_escaped, begin_tag, close, end_line, end_tag, number, value};

/// A number in decimal.
pub fn append_digits(text: &mut Vec<u8>, number: u128) -> Result<(), Memory>
    ensures { OnOk result (text.new.items ≡ text.old.items ++ markup_text (digits number)) }
{
    let mut buffer = Buffer::new();
    append_escaped(text, buffer.format(number).as_bytes())
}

/// The first tag of an element of a class.
pub(crate) fn begin_of_class(text: &mut Vec<u8>, name: &str, kind: &str) -> Result<(), Memory>
    ensures { OnOk result (text.new.items ≡ text.old.items ++ start_text name.now (of_class kind.now ∷ [])) }
{
    begin_tag(text, name)?;
    value(text, "class", kind.as_bytes())?;
    end_tag(text)
}

/// An element of a class with a text in it.
pub(crate) fn said(text: &mut Vec<u8>, name: &str, kind: &str, bytes: &[u8]) -> Result<(), Memory>
    ensures { OnOk result (text.new.items ≡ text.old.items ++ markup_text (said_meant name.now kind.now bytes.now)) }
{
    begin_of_class(text, name, kind)?;
    append_escaped(text, bytes)?;
    close(text, name)
}

/// An element of a class with a number in it.
pub(crate) fn counted(
    text: &mut Vec<u8>,
    name: &str,
    kind: &str,
    number: u128,
) -> Result<(), Memory>
    ensures { OnOk result (text.new.items ≡ text.old.items ++ markup_text (counted_meant name.now kind.now number)) }
{
    let mut buffer = Buffer::new();
    said(text, name, kind, buffer.format(number).as_bytes())
}

/// Millionths as per cent with two digits behind the point, rounded down.
#[tactic(auto, unfolding(crate::specs::Pieces::percent))]
pub fn append_percent(text: &mut Vec<u8>, millionths: u32) -> Result<(), Memory>
    ensures { OnOk result (text.new.items ≡ text.old.items ++ markup_text (percent millionths)) }
{
    append_digits(text, u128::from(millionths / 10_000))?;
    append_escaped(text, b".")?;
    append_digits(text, u128::from(millionths / 1_000 % 10))?;
    append_digits(text, u128::from(millionths / 100 % 10))?;
    append_escaped(text, b"%")
}

/// Millionths as a bar.
#[tactic(auto, unfolding(crate::specs::Pieces::bar))]
pub fn append_bar(text: &mut Vec<u8>, millionths: u32) -> Result<(), Memory>
    ensures { OnOk result (text.new.items ≡ text.old.items ++ markup_text (bar millionths)) }
{
    begin_tag(text, "progress")?;
    number(text, "max", 1_000_000)?;
    number(text, "value", u64::from(millionths))?;
    value(text, "aria-hidden", b"true")?;
    end_tag(text)?;
    close(text, "progress")
}

/// Two numbers with a word between them.
#[tactic(auto, unfolding(crate::specs::Pieces::ratio))]
pub fn append_ratio(text: &mut Vec<u8>, part: u64, word: &str, whole: u64) -> Result<(), Memory>
    ensures { OnOk result (text.new.items ≡ text.old.items ++ markup_text (ratio part word.now whole)) }
{
    append_digits(text, u128::from(part))?;
    append_escaped(text, word.as_bytes())?;
    append_digits(text, u128::from(whole))
}

/// The first tag of an element.
fn open(text: &mut Vec<u8>, name: &str) -> Result<(), Memory>
    ensures { OnOk result (text.new.items ≡ text.old.items ++ start_text name.now []) }
{
    begin_tag(text, name)?;
    end_tag(text)
}

/// The label of a figure.
#[tactic(auto, unfolding(crate::specs::Pieces::label_piece))]
fn append_label(text: &mut Vec<u8>, label: &str) -> Result<(), Memory>
    ensures { OnOk result (text.new.items ≡ text.old.items ++ markup_text (label_piece label.now)) }
{
    open(text, "dt")?;
    append_escaped(text, label.as_bytes())?;
    close(text, "dt")
}

/// The label of a figure, and the first tag of what stands behind it.
fn begin_figure(text: &mut Vec<u8>, label: &str) -> Result<(), Memory>
    ensures { OnOk result (text.new.items ≡ text.old.items
        ++ (start_text (codes "div") [] ++ (markup_text (label_piece label.now) ++ start_text (codes "dd") []))) }
{
    open(text, "div")?;
    append_label(text, label)?;
    open(text, "dd")
}

fn end_figure(text: &mut Vec<u8>) -> Result<(), Memory>
    ensures { OnOk result (text.new.items ≡ text.old.items ++ (end_text (codes "dd") ++ (end_text (codes "div") ++ line_end))) }
{
    close(text, "dd")?;
    close(text, "div")?;
    end_line(text)
}

/// A figure that is a text.
#[tactic(auto, unfolding(crate::specs::Pieces::figure_text))]
pub fn figure_text(text: &mut Vec<u8>, label: &str, bytes: &[u8]) -> Result<(), Memory>
    ensures { OnOk result (text.new.items ≡ text.old.items ++ markup_text (text_meant label.now bytes.now)) }
{
    begin_figure(text, label)?;
    append_escaped(text, bytes)?;
    end_figure(text)
}

/// A figure that is a number.
#[tactic(auto, unfolding(crate::specs::Pieces::figure_count))]
pub fn figure_count(text: &mut Vec<u8>, label: &str, number: u64) -> Result<(), Memory>
    ensures { OnOk result (text.new.items ≡ text.old.items ++ markup_text (count_meant label.now number)) }
{
    begin_figure(text, label)?;
    append_digits(text, u128::from(number))?;
    end_figure(text)
}

/// A figure that is a part of a whole.
#[tactic(auto, unfolding(crate::specs::Pieces::figure_ratio))]
pub fn figure_ratio(text: &mut Vec<u8>, label: &str, part: u64, whole: u64) -> Result<(), Memory>
    ensures { OnOk result (text.new.items ≡ text.old.items ++ markup_text (ratio_meant label.now part whole)) }
{
    begin_figure(text, label)?;
    append_ratio(text, part, " of ", whole)?;
    end_figure(text)
}

#[tactic(auto, unfolding(crate::specs::Pieces::strong_percent))]
fn append_strong(text: &mut Vec<u8>, millionths: u32) -> Result<(), Memory>
    ensures { OnOk result (text.new.items ≡ text.old.items ++ markup_text (strong_percent millionths)) }
{
    open(text, "strong")?;
    append_percent(text, millionths)?;
    close(text, "strong")
}

/// The coverage of all, in millionths.
#[tactic(auto, unfolding(crate::specs::Pieces::overall))]
pub fn overall(text: &mut Vec<u8>, millionths: u32) -> Result<(), Memory>
    ensures { OnOk result (text.new.items ≡ text.old.items ++ markup_text (overall_meant millionths)) }
{
    begin_of_class(text, "p", "overall")?;
    append_strong(text, millionths)?;
    append_bar(text, millionths)?;
    close(text, "p")?;
    end_line(text)
}

/// How many bins an item has of which only holes are told, and how many more holes there are.
#[tactic(auto, unfolding(crate::specs::Pieces::left_out))]
pub fn left_out(text: &mut Vec<u8>, bins: u64, more: u64) -> Result<(), Memory>
    ensures { OnOk result (text.new.items ≡ text.old.items ++ markup_text (left_out_meant bins more)) }
{
    begin_of_class(text, "p", "more")?;
    append_digits(text, u128::from(bins))?;
    append_escaped(text, b" bins, of which holes stand here, and ")?;
    append_digits(text, u128::from(more))?;
    append_escaped(text, b" more holes do not.")?;
    close(text, "p")?;
    end_line(text)
}
