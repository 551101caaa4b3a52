//! Attributes that elements have in common.
ghost use Rattle.std.specs.Prelude.{◌≡◌, ◌∷◌, [], ◌++◌, OnOk};
ghost use Rattle.markup.specs.Trees.{attributes_text, markup_text};
ghost use Rattle.ucis_elements.specs.Words.{kind_word as kind_meant, named, user_attr, source_id};

use cov_base::Memory;
use design_data::BinKind;
use markup::{append_escaped, begin_tag, close, end_empty, end_tag, number, truth, value};

/// The type of a bin.
pub(crate) fn kind_word(kind: BinKind) -> &'static str
    ensures { result.now ≡ kind_meant kind }
{
    match kind {
        BinKind::CvgBin => "bins",
        BinKind::IllegalBin => "illegal",
        BinKind::IgnoreBin => "ignore",
        BinKind::DefaultBin => "default",
    }
}

/// The name of what an element stands for, its key, and whether it is excluded.
pub fn append_named(text: &mut Vec<u8>, name: &[u8], key: u32, excluded: bool) -> Result<(), Memory>
    ensures { OnOk result (text.new.items ≡ text.old.items ++ attributes_text (named name.now key excluded [])) }
{
    value(text, "name", name)?;
    number(text, "key", u64::from(key))?;
    truth(text, "excluded", excluded)
}

/// What the format has no attribute for.
pub fn append_user_attr(text: &mut Vec<u8>, key: &str, bytes: &[u8]) -> Result<(), Memory>
    ensures { OnOk result (text.new.items ≡ text.old.items ++ markup_text (user_attr key.now bytes.now)) }
{
    begin_tag(text, "userAttr")?;
    value(text, "key", key.as_bytes())?;
    value(text, "type", b"str")?;
    end_tag(text)?;
    append_escaped(text, bytes)?;
    close(text, "userAttr")
}

/// A place in a source, as an element of this name.
pub fn append_source_id(text: &mut Vec<u8>, name: &str) -> Result<(), Memory>
    ensures { OnOk result (text.new.items ≡ text.old.items ++ markup_text (source_id name.now)) }
{
    begin_tag(text, name)?;
    number(text, "file", 1)?;
    number(text, "line", 1)?;
    number(text, "inlineCount", 1)?;
    end_empty(text)
}
