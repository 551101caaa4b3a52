//! The lines of types, instances and items.
ghost use Rattle.std.specs.Prelude.{◌≡◌, [], ◌∷◌, ◌++◌, codes, OnOk};
ghost use Rattle.markup.specs.Trees.{markup_text, start_text};
ghost use Rattle.page_parts.specs.Standings.{mark_of as mark_meant, name_tag as tag_meant, goal_piece, share_piece, amount_piece, figures, names, summary, details_attributes};
ghost use Rattle.page_parts.specs.Frames.{details_begin};

use crate::pieces::{
    append_bar, append_digits, append_percent, append_ratio, begin_of_class, said,
};
use cov_ground::Memory;
use markup::{append_escaped, begin_tag, close, end_line, end_tag, number, value};

/// How a type, an instance or an item stands.
#[derive(Clone, Copy)]
pub struct Standing {
    /// 0 to 1,000,000.
    pub millionths: u32,
    /// In per cent.
    pub goal: u32,
    /// Whether its goal is met.
    pub met: bool,
    /// Whether it, or what it stands in, is excluded.
    pub excluded: bool,
    /// How many of the bins are covered.
    pub covered: u32,
    /// The coverage bins under it that aren't excluded.
    pub bins: u32,
}

fn mark_of(standing: Standing) -> &'static str
    ensures { result.now ≡ mark_meant standing }
{
    if standing.excluded {
        "out"
    } else if standing.met {
        "met"
    } else {
        "miss"
    }
}

fn name_tag(standing: Standing) -> &'static str
    ensures { result.now ≡ tag_meant standing }
{
    if standing.excluded { "s" } else { "span" }
}

#[tactic(auto, unfolding(crate::specs::Standings::goal_piece))]
fn append_goal(text: &mut Vec<u8>, goal: u32) -> Result<(), Memory>
    ensures { OnOk result (text.new.items ≡ text.old.items ++ markup_text (goal_piece goal)) }
{
    begin_of_class(text, "span", "goal")?;
    append_escaped(text, b"goal ")?;
    append_digits(text, u128::from(goal))?;
    append_escaped(text, b"%")?;
    close(text, "span")
}

/// How many bins are covered.
#[tactic(auto, unfolding(crate::specs::Standings::share_piece))]
fn append_share(text: &mut Vec<u8>, covered: u32, bins: u32) -> Result<(), Memory>
    ensures { OnOk result (text.new.items ≡ text.old.items ++ markup_text (share_piece covered bins)) }
{
    begin_of_class(text, "span", "share")?;
    append_ratio(text, u64::from(covered), "/", u64::from(bins))?;
    close(text, "span")?;
    end_line(text)
}

/// How much that is, as a bar and in per cent.
#[tactic(auto, unfolding(crate::specs::Standings::amount_piece))]
fn append_amount(text: &mut Vec<u8>, millionths: u32) -> Result<(), Memory>
    ensures { OnOk result (text.new.items ≡ text.old.items ++ markup_text (amount_piece millionths)) }
{
    append_bar(text, millionths)?;
    end_line(text)?;
    begin_tag(text, "b")?;
    end_tag(text)?;
    append_percent(text, millionths)?;
    close(text, "b")?;
    end_line(text)
}

#[tactic(auto, unfolding(crate::specs::Standings::figures))]
fn append_figures(text: &mut Vec<u8>, standing: Standing) -> Result<(), Memory>
    ensures { OnOk result (text.new.items ≡ text.old.items ++ markup_text (figures standing)) }
{
    append_share(text, standing.covered, standing.bins)?;
    append_amount(text, standing.millionths)?;
    append_goal(text, standing.goal)?;
    end_line(text)?;
    said(text, "span", "mark", mark_of(standing).as_bytes())
}

/// What a node is, and its name.
#[tactic(auto, unfolding(crate::specs::Standings::names))]
fn append_names(
    text: &mut Vec<u8>,
    word: &str,
    name: &[u8],
    standing: Standing,
) -> Result<(), Memory>
    ensures { OnOk result (text.new.items ≡ text.old.items ++ markup_text (names word.now name.now standing)) }
{
    said(text, "span", "kind", word.as_bytes())?;
    end_line(text)?;
    said(text, name_tag(standing), "name", name)?;
    end_line(text)
}

/// The line that is always seen.
#[tactic(auto, unfolding(crate::specs::Standings::summary))]
fn append_summary(
    text: &mut Vec<u8>,
    word: &str,
    name: &[u8],
    standing: Standing,
) -> Result<(), Memory>
    ensures { OnOk result (text.new.items ≡ text.old.items ++ markup_text (summary word.now name.now standing)) }
{
    begin_tag(text, "summary")?;
    end_tag(text)?;
    append_names(text, word, name, standing)?;
    append_figures(text, standing)?;
    close(text, "summary")?;
    end_line(text)
}

/// The line of a type, an instance or an item; what stands under it follows, and then the end of the block `details`.
#[tactic(auto, unfolding(crate::specs::Frames::details_begin))]
pub fn begin_details(
    text: &mut Vec<u8>,
    word: &str,
    name: &[u8],
    standing: Standing,
) -> Result<(), Memory>
    ensures { OnOk result (text.new.items ≡ text.old.items ++ details_begin word.now name.now standing) }
{
    begin_tag(text, "details")?;
    value(text, "class", mark_of(standing).as_bytes())?;
    number(text, "data-millionths", u64::from(standing.millionths))?;
    end_tag(text)?;
    append_summary(text, word, name, standing)
}
