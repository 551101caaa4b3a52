//! How a point is prepared.
ghost use Rattle.std.specs.Prelude.{◌≡◌, ◌++◌, ◌≤◌, [], length, List, IfOk, IfSome};
ghost use Rattle.const_eval.specs.Terms.{Term};
ghost use Rattle.cov_base.specs.Limits.{most_bins, most_cells};
ghost use Rattle.trans_seq.specs.Cells.{cells_of_seqs};
ghost use Rattle.design_data.specs.declared.infos.ItemInfo.{ItemInfo as Item};
ghost use Rattle.record_codec.specs.Samples.{Env};
ghost use Rattle.point_tables.specs.Tables.{IsPoint, IsLookupOf, AreEntries, AreQuestionsOf, AreDivided, AreEntrances, AreRemovers, machines_from, places_from};
ghost use Rattle.point_sampler.specs.Plans.{IsPlanOf, is_default_sequence as is_default_sequence_of};
ghost use Rattle.point_sampler.specs.Points.{FitsPlan, StateStands, RunsStand};

use crate::plan::PointPlan;
use crate::state::{Ending, PointState, Steps};
use cov_base::Memory;
use design_data::{BinInfo, BinRule, ItemInfo};
use point_tables::{
    Entrance, Entry, Lookup, Machine, Questions, Removers, divided_of, entries_of, lookup_of, note,
    questions_of, watcher,
};
use std::alloc::Global;
use trans_auto::{Removing, Step, TransState, Watcher};
use trans_seq::laws::cells_of_joined_lists;
use trans_seq::{Seq, append_copies};
use word_table::{PlacedWords, Recent};

fn is_default_sequence(rule: &BinRule) -> bool
    ensures { result ≡ is_default_sequence_of rule.now }
{
    match rule {
        BinRule::DefaultSequence => true,
        _ => false,
    }
}

/// The places of the default sequences.
fn sequences_of(alloc: Global, bins: &[BinInfo]) -> Result<Vec<u32>, Memory>
    requires { length bins.now ≤ most_bins }
    ensures { IfOk result (λ places. places.items ≡ places_from (λ bin. is_default_sequence_of bin.rule) 0 bins.now) }
{
    let mut places = Vec::new(alloc);
    for (place, bin) in bins.iter().enumerate() {
        note(place as u32, is_default_sequence(&bin.rule), &mut places)?;
    }
    Ok(places)
}

/// The ignored and the illegal sequences.
fn removing_of(alloc: Global, item: &ItemInfo) -> Result<Vec<Seq>, Memory>
    ensures { IfOk result (λ seqs. seqs.items ≡ item.now.ignored ++ item.now.illegal) }
{
    let mut seqs = Vec::new(alloc);
    append_copies(alloc, item.ignored.as_slice(), &mut seqs)?;
    append_copies(alloc, item.illegal.as_slice(), &mut seqs)?;
    Ok(seqs)
}

/// An automaton of sequences that take windows away.
fn removing(alloc: Global, seqs: &[Seq]) -> Result<Removing, Memory>
    requires { cells_of_seqs seqs.now ≤ most_cells }
    ensures { IfOk result (λ removing. removing ≡ seqs.now) }
{
    Removing::new(alloc, seqs).map_err(|_| Memory)
}

fn removers_of(alloc: Global, item: &ItemInfo, removing_seqs: &[Seq]) -> Result<Removers, Memory>
    requires point { IsPoint item.now }
    requires seqs { removing_seqs.now ≡ item.now.ignored ++ item.now.illegal }
    ensures { IfOk result (λ removers. AreRemovers item.now removers) }
{
    cells_of_joined_lists();
    Ok(Removers {
        covering: removing(alloc, removing_seqs)?,
        ignoring: removing(alloc, item.illegal.as_slice())?,
        none: removing(alloc, &[])?,
    })
}

/// What is prepared of a point's transitions and default sequences.
#[derive(Drop)]
struct Transitions {
    machines: Vec<Machine>,
    entrances: Vec<Entrance>,
    words: PlacedWords,
    removers: Removers,
    others: Watcher,
    sequences: Vec<u32>,
}

/// The automata and words of a point's transitions, and the places of its default sequences.
fn transitions_of(
    alloc: Global,
    item: &ItemInfo,
    removing_seqs: &[Seq],
) -> Result<Transitions, Memory>
    requires point { IsPoint item.now }
    requires seqs { removing_seqs.now ≡ item.now.ignored ++ item.now.illegal }
    ensures machines { IfOk result (λ made.
        AreDivided made.removers (machines_from 0 item.now.bins) made.machines.items made.words) }
    ensures entrances { IfOk result (λ made. AreEntrances made.machines.items made.entrances.items) }
    ensures removers { IfOk result (λ made. AreRemovers item.now made.removers) }
    ensures others { IfOk result (λ made. made.others ≡ item.now.ignored ++ item.now.illegal) }
    ensures sequences { IfOk result (λ made.
        made.sequences.items ≡ places_from (λ bin. is_default_sequence_of bin.rule) 0 item.now.bins) }
{
    let sequences = sequences_of(alloc, item.bins.as_slice())?;
    let removers = removers_of(alloc, item, removing_seqs)?;
    let others = watcher(alloc, removing_seqs)?;
    let divided = divided_of(alloc, item, &removers)?;
    let words = PlacedWords::new(alloc, divided.rows)?;
    Ok(Transitions {
        machines: divided.machines,
        entrances: divided.entrances,
        words,
        removers,
        others,
        sequences,
    })
}

/// The plan of a point whose bins of values stand prepared.
fn plan_with(
    alloc: Global,
    item: &ItemInfo,
    removing_seqs: &[Seq],
    entries: Vec<Entry>,
    lookup: Option<Lookup>,
    questions: Questions,
) -> Result<PointPlan, Memory>
    requires point { IsPoint item.now }
    requires seqs { removing_seqs.now ≡ item.now.ignored ++ item.now.illegal }
    requires entries { AreEntries item.now.bins entries.items }
    requires lookup { IfSome lookup (IsLookupOf item.now.bins) }
    requires questions { AreQuestionsOf item.now.bins questions }
    ensures { IfOk result (λ plan. IsPlanOf item.now plan) }
{
    let made = transitions_of(alloc, item, removing_seqs)?;
    Ok(PointPlan {
        entries,
        machines: made.machines,
        entrances: made.entrances,
        words: made.words,
        removers: made.removers,
        others: made.others,
        lookup,
        questions,
        sequences: made.sequences,
    })
}

impl PointPlan {
    /// What is prepared of a point. It takes memory linear in its bins, their intervals and their sequences, and beside
    /// that the time to sort the intervals and the words.
    pub fn new(alloc: Global, item: &ItemInfo) -> Result<PointPlan, Memory>
        requires { IsPoint item.now }
        ensures { IfOk result (λ plan. IsPlanOf item.now plan) }
    {
        let removing_seqs = removing_of(alloc, item)?;
        let entries = entries_of(alloc, item.bins.as_slice())?;
        let lookup = lookup_of(alloc, item)?;
        let questions = questions_of(alloc, item, lookup.is_none())?;
        let removing_seqs = removing_seqs.as_slice();
        plan_with(alloc, item, removing_seqs, entries, lookup, questions)
    }
}

/// A run for each automaton, before the first value.
fn first_runs(alloc: Global, plan: &PointPlan) -> Result<Vec<TransState>, Memory>
    ensures same { IfOk result (λ runs. length runs.items ≡ length plan.now.machines.items) }
    ensures stand { IfOk result (λ runs. RunsStand plan.now.machines.items plan.now.removers runs.items []) }
{
    let mut runs = Vec::new(alloc);
    for machine in plan.machines.as_slice() {
        runs.push(machine.watcher.start())?;
    }
    Ok(runs)
}

impl PointState {
    /// What a point remembers before the first sample of a record.
    pub fn start(alloc: Global, plan: &PointPlan) -> Result<PointState, Memory>
        ensures fits { IfOk result (λ state. FitsPlan plan.now state) }
        ensures stands { IfOk result (λ state. (item : Item) (expr : Term) (all : List Env)
            → StateStands item expr plan.now all 0 state) }
    {
        let runs = first_runs(alloc, plan)?;
        Ok(PointState {
            begun: false,
            runs,
            others: plan.others.start(),
            ending: Ending {
                recent: Recent::new(alloc),
                hits: Vec::new(alloc),
            },
            steps: Steps {
                covering: Step::new(alloc),
                ignoring: Step::new(alloc),
                none: Step::new(alloc),
            },
            met: Vec::new(alloc),
        })
    }
}
