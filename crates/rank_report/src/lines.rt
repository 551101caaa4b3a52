//! The printed ranking.
ghost use Rattle.std.specs.Prelude.{◌≡◌, ◌<◌, ◌++◌, length, IfOk, OnOk};
ghost use Rattle.std.specs.List.{All};
ghost use Rattle.rank_report.specs.Lines.{rank_line, rank_text};

use appending::{append, append_number};
use cov_ground::Memory;
use cov_tree::Name;
use std::alloc::Global;
use tally::Ranked;

/// A line `rank K GAIN ID` for each row, K from 1; ID is that of the row's test in `ids`.
pub fn rank_lines(alloc: Global, ranked: &[Ranked], ids: &[Name]) -> Result<Vec<u8>, Memory>
    requires { All (λ row. row.test < length ids.now) ranked.now }
    ensures { IfOk result (λ text. text.items ≡ rank_text 1 ranked.now ids.now) }
{
    let mut text = Vec::new(alloc);
    for (i, row) in ranked.iter().enumerate() {
        let id = &ids[row.test as usize];
        append_row(&mut text, i as u64 + 1, row.gain, id.as_slice())?;
    }
    Ok(text)
}

fn append_row(text: &mut Vec<u8>, k: u64, gain: u64, id: &[u8]) -> Result<(), Memory>
    ensures { OnOk result (text.new.items ≡ text.old.items ++ rank_line k gain id.now) }
{
    append(text, b"rank ")?;
    append_number(text, k)?;
    append(text, b" ")?;
    append_number(text, gain)?;
    append(text, b" ")?;
    append(text, id)?;
    append(text, b"\n")?;
    Ok(())
}
