//! Tables and sections.
ghost use Rattle.std.specs.Prelude.{◌≡◌, [], ◌∷◌, ◌++◌, codes, map, OnOk};
ghost use Rattle.markup.specs.Trees.{markup_text, each};
ghost use Rattle.page_parts.specs.Frames.{column, caption_piece, column_heads, table_head, heading, paragraph as paragraph_meant, table_begin, table_end, section_begin, block_begin, block_end};

use cov_ground::Memory;
use markup::{append_escaped, begin_tag, close, end_line, end_tag, value};

/// The head of a column.
fn append_column(text: &mut Vec<u8>, name: &str) -> Result<(), Memory>
    ensures { OnOk result (text.new.items ≡ text.old.items ++ markup_text (column name.now)) }
{
    begin_tag(text, "th")?;
    value(text, "scope", b"col")?;
    end_tag(text)?;
    append_escaped(text, name.as_bytes())?;
    close(text, "th")
}

/// The heads of columns.
fn append_columns(text: &mut Vec<u8>, columns: &[&str]) -> Result<(), Memory>
    ensures { OnOk result (text.new.items ≡ text.old.items ++ markup_text (each column (map (λ name. name.now) columns.now))) }
{
    for name in columns {
        append_column(text, name)?;
    }
    Ok(())
}

#[tactic(auto, unfolding(crate::specs::Frames::caption_piece))]
fn append_caption(text: &mut Vec<u8>, caption: &str) -> Result<(), Memory>
    ensures { OnOk result (text.new.items ≡ text.old.items ++ markup_text (caption_piece caption.now)) }
{
    begin_tag(text, "caption")?;
    end_tag(text)?;
    append_escaped(text, caption.as_bytes())?;
    close(text, "caption")?;
    end_line(text)
}

/// The row of the heads of columns.
#[tactic(auto, unfolding(crate::specs::Frames::column_heads))]
fn append_heads(text: &mut Vec<u8>, columns: &[&str]) -> Result<(), Memory>
    ensures { OnOk result (text.new.items ≡ text.old.items
        ++ markup_text (column_heads (map (λ name. name.now) columns.now))) }
{
    begin_tag(text, "tr")?;
    end_tag(text)?;
    append_columns(text, columns)?;
    close(text, "tr")
}

/// A table's caption and the heads of its columns.
#[tactic(auto, unfolding(crate::specs::Frames::table_head))]
fn append_table_head(text: &mut Vec<u8>, caption: &str, columns: &[&str]) -> Result<(), Memory>
    ensures { OnOk result (text.new.items ≡ text.old.items
        ++ markup_text (table_head caption.now (map (λ name. name.now) columns.now))) }
{
    append_caption(text, caption)?;
    begin_tag(text, "thead")?;
    end_tag(text)?;
    append_heads(text, columns)?;
    close(text, "thead")?;
    end_line(text)
}

/// A table up to its rows.
#[tactic(auto, unfolding(crate::specs::Frames::table_begin))]
pub fn begin_table(text: &mut Vec<u8>, caption: &str, columns: &[&str]) -> Result<(), Memory>
    ensures { OnOk result (text.new.items ≡ text.old.items
        ++ table_begin caption.now (map (λ name. name.now) columns.now)) }
{
    begin_tag(text, "table")?;
    end_tag(text)?;
    append_table_head(text, caption, columns)?;
    begin_tag(text, "tbody")?;
    end_tag(text)
}

/// The end of a table behind its rows.
#[tactic(auto, unfolding(crate::specs::Frames::table_end))]
pub fn end_table(text: &mut Vec<u8>) -> Result<(), Memory>
    ensures { OnOk result (text.new.items ≡ text.old.items ++ table_end) }
{
    close(text, "tbody")?;
    close(text, "table")?;
    end_line(text)
}

/// A heading.
#[tactic(auto, unfolding(crate::specs::Frames::heading))]
fn append_heading(text: &mut Vec<u8>, title: &str) -> Result<(), Memory>
    ensures { OnOk result (text.new.items ≡ text.old.items ++ markup_text (heading title.now)) }
{
    begin_tag(text, "h2")?;
    end_tag(text)?;
    append_escaped(text, title.as_bytes())?;
    close(text, "h2")?;
    end_line(text)
}

/// A section with its heading, up to what stands in it; it ends as the block `section`.
#[tactic(auto, unfolding(crate::specs::Frames::section_begin))]
pub fn begin_section(text: &mut Vec<u8>, id: &str, title: &str) -> Result<(), Memory>
    ensures { OnOk result (text.new.items ≡ text.old.items ++ section_begin id.now title.now) }
{
    begin_tag(text, "section")?;
    value(text, "id", id.as_bytes())?;
    end_tag(text)?;
    append_heading(text, title)
}

/// The first tag of an element.
#[tactic(auto, unfolding(crate::specs::Frames::block_begin))]
pub fn begin_block(text: &mut Vec<u8>, name: &str) -> Result<(), Memory>
    ensures { OnOk result (text.new.items ≡ text.old.items ++ block_begin name.now) }
{
    begin_tag(text, name)?;
    end_tag(text)
}

/// The last tag of an element, with the end of its line.
#[tactic(auto, unfolding(crate::specs::Frames::block_end))]
pub fn end_block(text: &mut Vec<u8>, name: &str) -> Result<(), Memory>
    ensures { OnOk result (text.new.items ≡ text.old.items ++ block_end name.now) }
{
    close(text, name)?;
    end_line(text)
}

/// A paragraph.
#[tactic(auto, unfolding(crate::specs::Frames::paragraph))]
pub fn paragraph(text: &mut Vec<u8>, bytes: &[u8]) -> Result<(), Memory>
    ensures { OnOk result (text.new.items ≡ text.old.items ++ markup_text (paragraph_meant bytes.now)) }
{
    begin_tag(text, "p")?;
    end_tag(text)?;
    append_escaped(text, bytes)?;
    close(text, "p")?;
    end_line(text)
}
