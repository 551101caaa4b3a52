//! The ranking of tests.
ghost use Rattle.std.specs.Prelude.{◌≡◌, ◌<◌, ◌^◌, length, map, IfOk};
ghost use Rattle.std.specs.Arc.{arc_value};
ghost use Rattle.tally.specs.Rows.{rows_from};
ghost use Rattle.ucis_model.specs.Paths.{node_at};
ghost use Rattle.cov_history.specs.Nodes.{bins_under as bins_meant};
ghost use Rattle.cov_history.specs.Coverage.{is_excluded, live_under};
ghost use Rattle.cov_history.specs.History.{out_of};
ghost use Rattle.cov_history.specs.Answers.{rank_at};
ghost use Rattle.history_answers.specs.Kept.{kept_from, rows_of};

use crate::bins::live;
use crate::keeping::{Kept, kept_tests};
use cov_ground::Memory;
use cov_history::{Entry, bin_nodes, bins_under, design_at, out_at, said};
use cov_tree::List;
use design_data::Design;
use rank_report::rank;
use std::alloc::Global;
use std::sync::Arc;
use std::thread::Threads;
use tally::Tally;
use ucis_model::{Answer, Node, Tree, tree};

/// The counts of a test as rows.
fn rows(alloc: Global, counts: &[u64]) -> Result<Arc<Tally>, Memory>
    ensures { IfOk result (λ rows. arc_value rows ≡ rows_from 0 counts.now) }
{
    if counts.len() > u32::MAX as usize {
        // no memory holds more
        return Err(Memory);
    }
    let tally = Tally::of(alloc, counts)?;
    let shared = Arc::new(alloc, tally)?;
    Ok(shared)
}

/// The counts of each test as rows.
fn all_rows(alloc: Global, tests: &[Kept]) -> Result<Vec<Arc<Tally>>, Memory>
    ensures { IfOk result (λ all. map arc_value all.items ≡ rows_of tests.now) }
{
    let mut all = Vec::new(alloc);
    let mut rest = tests;
    while let Some((test, later)) = rest.split_first() {
        all.push(rows(alloc, test.counts.as_slice())?)?;
        rest = later;
    }
    Ok(all)
}

/// Each of these bins with how many hits of it are wanted.
fn wants(alloc: Global, nodes: &[Node], bins: &[u32]) -> Result<Vec<(u32, u32)>, Memory>
    ensures { IfOk result (λ wants. wants.items ≡ map (λ n. ((node_at nodes.now n).first_bin, (node_at nodes.now n).at_least)) bins.now) }
{
    let mut wants = Vec::new(alloc);
    let mut rest = bins;
    while let Some((bin, later)) = rest.split_first() {
        let said = said(nodes, *bin);
        wants.push((said.first_bin, said.at_least))?;
        rest = later;
    }
    Ok(wants)
}

/// The live bins of the design, each with how many hits of it are wanted.
fn wanted(alloc: Global, tree: &Tree, entries: &[Entry]) -> Result<Vec<(u32, u32)>, Memory>
    requires { length tree.now < 2 ^ 32 }
    ensures wanted { IfOk result (λ wanted. wanted.items ≡ map (λ n. ((node_at tree.now n).first_bin, (node_at tree.now n).at_least)) (live_under tree.now (is_excluded tree.now (out_of entries.now)) 0)) }
    ensures few { IfOk result (λ wanted. length wanted.items < 2 ^ 32) }
{
    let out = out_at(alloc, entries)?;
    let bins = bin_nodes(alloc, tree.nodes())?;
    let under = bins_under(tree.nodes(), bins.as_slice(), 0);
    let live = live(alloc, tree, out.as_slice(), under)?;
    let wanted = wants(alloc, tree.nodes(), live.as_slice())?;
    Ok(wanted)
}

/// The answer to a question for the ranking: each test that adds to those taken before it, with how many wanted hits it
/// adds.
pub fn rank_answer<R: Threads + Sync>(
    rt: &R,
    alloc: Global,
    opening: &Design,
    entries: &[Entry],
) -> Result<Answer, Memory>
    requires { length entries.now < 2 ^ 32 }
    ensures { IfOk result (λ answer. answer ≡ rank_at opening.now entries.now) }
{
    let design = design_at(opening, entries);
    let tests = kept_tests(alloc, design, entries)?;
    let tree = tree(alloc, design)?;
    let wanted = wanted(alloc, &tree, entries)?;
    let all = all_rows(alloc, tests.as_slice())?;
    let ranked = rank(rt, alloc, all.as_slice(), wanted.as_slice())?;
    Ok(Answer::RankRows(ranked))
}
