//! The holes, as lines of text.
ghost use Rattle.std.specs.Prelude.{◌≡◌, ◌++◌, codes, OnOk};
ghost use Rattle.markup.specs.Trees.{markup_text};
ghost use Rattle.markup.specs.Trees as tree;
ghost use Rattle.page_parts.specs.Frames.{block};
ghost use Rattle.merge_store.specs.Stores.{opening_of, entries_of};
ghost use Rattle.export_page.specs.Page.{holes_part};

use cov_ground::Memory;
use export_lists::holes_lines;
use markup::append_escaped;
use merge_store::Store;
use page_parts::{begin_block, begin_section, end_block};
use std::alloc::Global;

/// Lines of text.
fn append_lines(text: &mut Vec<u8>, lines: &[u8]) -> Result<(), Memory>
    ensures { OnOk result (text.new.items ≡ text.old.items ++ markup_text (block (codes "pre") (tree.Text lines.now))) }
{
    begin_block(text, "pre")?;
    append_escaped(text, lines)?;
    end_block(text, "pre")?;
    Ok(())
}

/// The section of the holes.
pub(crate) fn append_holes(alloc: Global, text: &mut Vec<u8>, store: &Store) -> Result<(), Memory>
    ensures { OnOk result (text.new.items ≡ text.old.items
        ++ markup_text (holes_part (opening_of store.now) (entries_of store.now))) }
{
    let lines = holes_lines(alloc, store)?;
    begin_section(text, "holes", "Holes")?;
    append_lines(text, lines.as_slice())?;
    end_block(text, "section")?;
    Ok(())
}
