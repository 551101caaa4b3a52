//! The parts of tags.
ghost use Rattle.std.specs.Prelude.{◌≡◌, ◌++◌, OnOk};
ghost use Rattle.markup.specs.Trees.{attribute, attribute_text, empty_end, end_text, line_end, tag_end, tag_text, truth_text, number as number_meant, integer as integer_meant, truth as truth_meant};

use crate::escaping::append_escaped;
use appending::append;
use cov_ground::Memory;
use itoa::Buffer;

/// Begins the first tag of an element: its attributes follow, and then the end of the tag.
#[tactic(auto, unfolding(crate::specs::Trees::tag_text))]
pub fn begin_tag(text: &mut Vec<u8>, name: &str) -> Result<(), Memory>
    ensures { OnOk result (text.new.items ≡ text.old.items ++ tag_text name.now) }
{
    append(text, b"<")?;
    append(text, name.as_bytes())
}

/// An attribute of the tag that has begun.
#[tactic(auto, unfolding(crate::specs::Trees::attribute_text))]
pub fn value(text: &mut Vec<u8>, name: &str, bytes: &[u8]) -> Result<(), Memory>
    ensures { OnOk result (text.new.items ≡ text.old.items ++ attribute_text (attribute name.now bytes.now)) }
{
    append(text, b" ")?;
    append(text, name.as_bytes())?;
    append(text, b"=\"")?;
    append_escaped(text, bytes)?;
    append(text, b"\"")
}

/// An attribute of the tag that has begun, with a number in decimal.
pub fn number(text: &mut Vec<u8>, name: &str, number: u64) -> Result<(), Memory>
    ensures { OnOk result (text.new.items ≡ text.old.items ++ attribute_text (number_meant name.now number)) }
{
    let mut buffer = Buffer::new();
    value(text, name, buffer.format(number).as_bytes())
}

/// An attribute of the tag that has begun, with a number in decimal, which may have a sign.
pub fn integer(text: &mut Vec<u8>, name: &str, number: i128) -> Result<(), Memory>
    ensures { OnOk result (text.new.items ≡ text.old.items ++ attribute_text (integer_meant name.now number)) }
{
    let mut buffer = Buffer::new();
    value(text, name, buffer.format(number).as_bytes())
}

/// A truth value as it is written.
fn truth_word(value: bool) -> &'static str
    ensures { result.now ≡ truth_text value }
{
    if value { "true" } else { "false" }
}

/// An attribute of the tag that has begun, with a truth value.
pub fn truth(text: &mut Vec<u8>, name: &str, holds: bool) -> Result<(), Memory>
    ensures { OnOk result (text.new.items ≡ text.old.items ++ attribute_text (truth_meant name.now holds)) }
{
    value(text, name, truth_word(holds).as_bytes())
}

/// Ends the first tag of an element: what stands in it follows, and then `close`.
#[tactic(auto, unfolding(crate::specs::Trees::tag_end))]
pub fn end_tag(text: &mut Vec<u8>) -> Result<(), Memory>
    ensures { OnOk result (text.new.items ≡ text.old.items ++ tag_end) }
{
    append(text, b">")
}

/// Ends the tag of an element that never has anything in it.
#[tactic(auto, unfolding(crate::specs::Trees::empty_end))]
pub fn end_empty(text: &mut Vec<u8>) -> Result<(), Memory>
    ensures { OnOk result (text.new.items ≡ text.old.items ++ empty_end) }
{
    append(text, b"/>")
}

/// Closes an element.
#[tactic(auto, unfolding(crate::specs::Trees::end_text))]
pub fn close(text: &mut Vec<u8>, name: &str) -> Result<(), Memory>
    ensures { OnOk result (text.new.items ≡ text.old.items ++ end_text name.now) }
{
    append(text, b"</")?;
    append(text, name.as_bytes())?;
    append(text, b">")
}

/// Ends a line.
#[tactic(auto, unfolding(crate::specs::Trees::line_end))]
pub fn end_line(text: &mut Vec<u8>) -> Result<(), Memory>
    ensures { OnOk result (text.new.items ≡ text.old.items ++ line_end) }
{
    append(text, b"\n")
}
