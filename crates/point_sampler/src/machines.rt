//! The transitions of a point along its trace.
ghost use Rattle.std.specs.Prelude.{◌≡◌, ◌≢◌, ◌↔◌, ◌⊎◌, ◌∷◌, ◌++◌, [], ℕ, ◌<◌, List, length, All, AllPairs, Contains, IfOk, OnOk, IsTrue, if◌then◌else◌};
ghost use Rattle.trans_seq.specs.Windows.{EndsKept, EndsWindow};
ghost use Rattle.trans_auto.specs.State.{Stands, SaysKept, SaysWindow, TakesSample};
ghost use Rattle.design_data.specs.Laws.{Value};
ghost use Rattle.point_tables.specs.Tables.{removed_by, AreEntrances};
ghost use Rattle.point_sampler.specs.Plans.{IsStill};
ghost use Rattle.point_sampler.specs.Points.{FitsPlan, RunsStand, OthersStand, AreRecent, Remembers};
ghost use Rattle.point_sampler.specs.Met.{AreSteps, Answered, Ascend, IsPlaceOf, StandApart, IsTracePlace, AreTransMet};

use crate::plan::PointPlan;
use crate::state::{Ending, PointState, Steps};
use crate::words::push_words;
use cov_base::{Int, Memory};
use design_data::BinKind;
use point_tables::{Entrance, Machine, Removers, first_stirring, note};
use trans_auto::{Answer, TransState, Watcher};

/// What the sample does to the sequences that take windows away.
fn begin(removers: &Removers, steps: &mut Steps, value: &Option<Int>)
    ensures { AreSteps removers.now value.now steps.new }
{
    removers.covering.begin(&mut steps.covering, *value);
    removers.ignoring.begin(&mut steps.ignoring, *value);
    removers.none.begin(&mut steps.none, *value);
}

/// The same, unless it has been done.
fn begin_once(removers: &Removers, steps: &mut Steps, is_ready: &mut bool, value: &Option<Int>)
    requires ready { IsTrue is_ready.old → AreSteps removers.now value.now steps.old }
    ensures steps { AreSteps removers.now value.now steps.new }
{
    if *is_ready {
        return;
    }
    begin(removers, steps, value);
    *is_ready = true;
}

/// Takes the automaton of a bin of a kind over the next value of the trace.
fn push_one(
    watcher: &Watcher,
    kind: BinKind,
    removers: &Removers,
    steps: &mut Steps,
    runs: &mut TransState,
    value: &Option<Int>,
) -> Result<Answer, Memory>
    requires { AreSteps removers.now value.now steps.old }
    ensures steps { AreSteps removers.now value.now steps.new }
    ensures counts { IfOk result (λ answer.
        SaysKept watcher.now (removed_by removers.now kind) runs.old value.now answer.counts) }
    ensures ends { IfOk result (λ answer.
        SaysWindow watcher.now (removed_by removers.now kind) runs.old value.now answer.ends) }
    ensures stands { OnOk result
        (TakesSample watcher.now (removed_by removers.now kind) runs.old value.now runs.new) }
{
    match kind {
        BinKind::CvgBin => { watcher.push(&removers.covering, &mut steps.covering, runs, *value) }
        BinKind::IgnoreBin => {
            watcher.push(&removers.ignoring, &mut steps.ignoring, runs, *value)
        }
        BinKind::IllegalBin => { watcher.push(&removers.none, &mut steps.none, runs, *value) }
        BinKind::DefaultBin => { watcher.push(&removers.none, &mut steps.none, runs, *value) }
    }
}

/// Takes the automaton of a bin over the next value of the trace.
#[inline(always)]
fn push_machine(
    machine: &Machine,
    removers: &Removers,
    steps: &mut Steps,
    is_ready: &mut bool,
    runs: &mut TransState,
    value: &Option<Int>,
) -> Result<Answer, Memory>
    requires ready { IsTrue is_ready.old → AreSteps removers.now value.now steps.old }
    ensures ready { OnOk result (IsTrue is_ready.new → AreSteps removers.now value.now steps.new) }
    ensures counts { IfOk result (λ answer.
        SaysKept machine.now.watcher (removed_by removers.now machine.now.kind) runs.old value.now answer.counts) }
    ensures ends { IfOk result (λ answer.
        SaysWindow machine.now.watcher (removed_by removers.now machine.now.kind) runs.old value.now answer.ends) }
    ensures stands { OnOk result
        (TakesSample machine.now.watcher (removed_by removers.now machine.now.kind) runs.old value.now runs.new) }
{
    begin_once(removers, steps, is_ready, value);
    push_one(&machine.watcher, machine.kind, removers, steps, runs, value)
}

/// Takes the automata of a point over the next value of the trace: puts the places of the bins that are met into `met`,
/// and says whether a window of any ends there. Those that rest are passed over.
fn push_machines(
    machines: &[Machine],
    entrances: &[Entrance],
    removers: &Removers,
    steps: &mut Steps,
    is_ready: &mut bool,
    runs: &mut [TransState],
    value: &Option<Int>,
    met: &mut Vec<u32>,
) -> Result<bool, Memory>
    requires fits { length runs.old ≡ length machines.now }
    requires entrances { AreEntrances machines.now entrances.now }
    requires ascend { Ascend machines.now }
    requires ready { IsTrue is_ready.old → AreSteps removers.now value.now steps.old }
    requires none { met.old.items ≡ [] }
    ensures ready { OnOk result (IsTrue is_ready.new → AreSteps removers.now value.now steps.new) }
    ensures runs { OnOk result ((w : List Value) → RunsStand machines.now removers.now runs.old w
        → RunsStand machines.now removers.now runs.new (w ++ value.now ∷ [])) }
    ensures says { IfOk result (λ ended. (w : List Value) → RunsStand machines.now removers.now runs.old w
        → Answered machines.now removers.now (w ++ value.now ∷ []) met.new.items ended) }
    ensures among { OnOk result ((place : ℕ) → Contains met.new.items place → IsPlaceOf machines.now place) }
    ensures once { OnOk result (AllPairs (λ a b. a ≢ b) met.new.items) }
{
    let mut ended = false;
    let mut k = first_stirring(entrances, runs, value, 0);
    while k < machines.len() {
        let machine = &machines[k];
        let answer = push_machine(machine, removers, steps, is_ready, &mut runs[k], value)?;
        note(machine.place, answer.counts, met)?;
        ended = either(ended, answer.ends);
        k = first_stirring(entrances, runs, value, k + 1);
    }
    Ok(ended)
}

/// Whether one of the two ended.
#[inline(always)]
fn either(ended: bool, ends: bool) -> bool
    ensures { IsTrue result ↔ (IsTrue ended ⊎ IsTrue ends) }
{
    ended || ends
}

/// Whether a value came before and no window ends.
fn is_alone(begun: bool, ended: bool, other_ended: bool) -> bool
    ensures { IsTrue result ↔ (IsTrue begun × (IsTrue ended → ⊥) × (IsTrue other_ended → ⊥)) }
{
    begun && !either(ended, other_ended)
}

/// Takes the automaton of the ignored and illegal sequences over the next value of the trace, where there is a default
/// sequence, and says whether that is met there.
fn push_others(
    plan: &PointPlan,
    steps: &mut Steps,
    is_ready: &mut bool,
    others: &mut TransState,
    begun: bool,
    ended: bool,
    value: &Option<Int>,
) -> Result<bool, Memory>
    requires ready { IsTrue is_ready.old → AreSteps plan.now.removers value.now steps.old }
    ensures stands { OnOk result ((w : List Value) → OthersStand plan.now others.old w
        → OthersStand plan.now others.new (w ++ value.now ∷ [])) }
    ensures says { IfOk result (λ met. (w : List Value) → 0 < length plan.now.sequences.items → OthersStand plan.now others.old w
        → IsTrue met ↔ (IsTrue begun × (IsTrue ended → ⊥) × (EndsWindow plan.now.others (w ++ value.now ∷ []) → ⊥))) }
{
    if plan.sequences.is_empty() {
        return Ok(false);
    }
    begin_once(&plan.removers, steps, is_ready, value);
    let answer = plan
        .others
        .push(&plan.removers.none, &mut steps.none, others, *value)?;
    Ok(is_alone(begun, ended, answer.ends))
}

/// Appends the places of the default sequences, if they are met.
fn add_sequences(sequences: &[u32], is_met: bool, met: &mut Vec<u32>) -> Result<(), Memory>
    ensures { OnOk result (met.new.items ≡ (if is_met then met.old.items ++ sequences.now else met.old.items)) }
{
    if is_met {
        met.extend_from_slice(sequences)?;
    }
    Ok(())
}

/// Whether the point has neither transition bins nor default sequences.
pub(crate) fn is_still(plan: &PointPlan) -> bool
    ensures { IsTrue result → IsStill plan.now }
{
    plan.machines.is_empty() && plan.words.is_empty() && plan.sequences.is_empty()
}

/// Takes the automata and words of a point that has some over the next value of the trace.
fn push_all(
    plan: &PointPlan,
    steps: &mut Steps,
    runs: &mut [TransState],
    others: &mut TransState,
    ending: &mut Ending,
    begun: bool,
    value: &Option<Int>,
    met: &mut Vec<u32>,
) -> Result<(), Memory>
    requires fits { length runs.old ≡ length plan.now.machines.items }
    requires entrances { AreEntrances plan.now.machines.items plan.now.entrances.items }
    requires apart { StandApart plan.now }
    requires none { met.old.items ≡ [] }
    ensures runs { OnOk result ((w : List Value) → RunsStand plan.now.machines.items plan.now.removers runs.old w
        → RunsStand plan.now.machines.items plan.now.removers runs.new (w ++ value.now ∷ [])) }
    ensures others { OnOk result ((w : List Value) → OthersStand plan.now others.old w
        → OthersStand plan.now others.new (w ++ value.now ∷ [])) }
    ensures recent { OnOk result ((w : List Value) → AreRecent plan.now.words ending.old.recent w
        → AreRecent plan.now.words ending.new.recent (w ++ value.now ∷ [])) }
    ensures met { OnOk result ((w : List Value)
        → (0 < length plan.now.sequences.items → IsTrue begun ↔ (0 < length w))
        → RunsStand plan.now.machines.items plan.now.removers runs.old w → OthersStand plan.now others.old w
        → AreRecent plan.now.words ending.old.recent w → AreTransMet plan.now w value.now met.new.items) }
    ensures among { OnOk result ((place : ℕ) → Contains met.new.items place → IsTracePlace plan.now place) }
    ensures once { OnOk result (AllPairs (λ a b. a ≢ b) met.new.items) }
{
    let mut is_ready = false;
    let ended = push_machines(
        plan.machines.as_slice(),
        plan.entrances.as_slice(),
        &plan.removers,
        steps,
        &mut is_ready,
        runs,
        value,
        met,
    )?;
    let some = push_words(&plan.words, ending, value, met)?;
    let ended = either(ended, some);
    let alone = push_others(plan, steps, &mut is_ready, others, begun, ended, value)?;
    add_sequences(plan.sequences.as_slice(), alone, met)?;
    Ok(())
}

/// The same of any point, in no time where it has none.
fn push_some(
    plan: &PointPlan,
    steps: &mut Steps,
    runs: &mut [TransState],
    others: &mut TransState,
    ending: &mut Ending,
    begun: bool,
    value: &Option<Int>,
    met: &mut Vec<u32>,
) -> Result<(), Memory>
    requires fits { length runs.old ≡ length plan.now.machines.items }
    requires entrances { AreEntrances plan.now.machines.items plan.now.entrances.items }
    requires apart { StandApart plan.now }
    requires none { met.old.items ≡ [] }
    ensures runs { OnOk result ((w : List Value) → RunsStand plan.now.machines.items plan.now.removers runs.old w
        → RunsStand plan.now.machines.items plan.now.removers runs.new (w ++ value.now ∷ [])) }
    ensures others { OnOk result ((w : List Value) → OthersStand plan.now others.old w
        → OthersStand plan.now others.new (w ++ value.now ∷ [])) }
    ensures recent { OnOk result ((w : List Value) → AreRecent plan.now.words ending.old.recent w
        → AreRecent plan.now.words ending.new.recent (w ++ value.now ∷ [])) }
    ensures met { OnOk result ((w : List Value)
        → (0 < length plan.now.sequences.items → IsTrue begun ↔ (0 < length w))
        → RunsStand plan.now.machines.items plan.now.removers runs.old w → OthersStand plan.now others.old w
        → AreRecent plan.now.words ending.old.recent w → AreTransMet plan.now w value.now met.new.items) }
    ensures among { OnOk result ((place : ℕ) → Contains met.new.items place → IsTracePlace plan.now place) }
    ensures once { OnOk result (AllPairs (λ a b. a ≢ b) met.new.items) }
{
    if is_still(plan) {
        return Ok(());
    }
    push_all(plan, steps, runs, others, ending, begun, value, met)?;
    Ok(())
}

/// Takes the automata and words of a point over the next value of the trace, and puts the places of the transition bins
/// and default sequences that are met into `met`.
pub(crate) fn push_value(
    plan: &PointPlan,
    state: &mut PointState,
    value: &Option<Int>,
) -> Result<(), Memory>
    requires fits { FitsPlan plan.now state.old }
    requires entrances { AreEntrances plan.now.machines.items plan.now.entrances.items }
    requires apart { StandApart plan.now }
    ensures fits { OnOk result (FitsPlan plan.now state.new) }
    ensures remembers { OnOk result ((w : List Value) → Remembers plan.now state.old w
        → Remembers plan.now state.new (w ++ value.now ∷ [])) }
    ensures met { OnOk result ((w : List Value) → Remembers plan.now state.old w
        → AreTransMet plan.now w value.now state.new.met.items) }
    ensures among { OnOk result ((place : ℕ) → Contains state.new.met.items place → IsTracePlace plan.now place) }
    ensures once { OnOk result (AllPairs (λ a b. a ≢ b) state.new.met.items) }
{
    state.met.clear();
    push_some(
        plan,
        &mut state.steps,
        state.runs.as_mut_slice(),
        &mut state.others,
        &mut state.ending,
        state.begun,
        value,
        &mut state.met,
    )?;
    state.begun = true;
    Ok(())
}
