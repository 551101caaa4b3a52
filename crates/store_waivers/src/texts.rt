//! Single lines of a report.
ghost use Rattle.std.specs.Prelude.{◌≡◌, ◌++◌, OnOk};
ghost use Rattle.store_waivers.specs.Lines.{unwaived_line, which_word as word_meant, amounts_part, full_line};

use appending::{append, append_number};
use cov_base::Memory;
use ucis_model::Which;

/// Adds the line `unwaived C`, where C is the coverage of all before the waivers, in millionths: 0 to 1,000,000. The
/// only error is want of memory; the text may then have a part of the line.
pub fn append_unwaived(text: &mut Vec<u8>, millionths: u32) -> Result<(), Memory>
    ensures { OnOk result (text.new.items ≡ text.old.items ++ unwaived_line millionths) }
{
    append(text, b"unwaived ")?;
    append_number(text, millionths as u64)?;
    append(text, b"\n")
}

/// The word of a limit of a store.
#[tactic(auto, unfolding(crate::specs::Lines::which_word))]
fn which_word(which: Which) -> &'static str
    ensures { result.now ≡ word_meant which }
{
    match which {
        Which::Tests => "tests",
        Which::Bytes => "bytes",
        Which::Entries => "entries",
        Which::History => "history",
    }
}

/// An amount now, and the one afterwards.
fn append_amounts(text: &mut Vec<u8>, have: u64, want: u64) -> Result<(), Memory>
    ensures { OnOk result (text.new.items ≡ text.old.items ++ amounts_part have want) }
{
    append(text, b" ")?;
    append_number(text, have)?;
    append(text, b" ")?;
    append_number(text, want)?;
    append(text, b"\n")
}

/// Adds the line of a limit that `waive` would pass: `waivers refused Full WHICH HAVE WANT`, with the amount now and
/// the one afterwards. The only error is want of memory; the text may then have a part of the line.
pub fn append_full(text: &mut Vec<u8>, which: Which, have: u64, want: u64) -> Result<(), Memory>
    ensures { OnOk result (text.new.items ≡ text.old.items ++ full_line which have want) }
{
    append(text, b"waivers refused Full ")?;
    append(text, which_word(which).as_bytes())?;
    append_amounts(text, have, want)
}
