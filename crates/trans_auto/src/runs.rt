//! The live starts of windows, as pairs of masks.
ghost use Rattle.std.specs.Prelude.{◌≡◌, ◌≢◌, ℕ, List, ℤ, Option, length, slice_index_or, ◌<◌, ◌≤◌, ◌↔◌, false, [], IsTrue, OnOk, OnErr, IfOk, Contains, AllPairs, ◌==◌, not};
ghost use Rattle.std.specs.List.{filter};
ghost use Rattle.trans_seq.specs.Windows.{InSome, EndsWindow, EndsKept};
ghost use Rattle.trans_auto.specs.Layout.{SeqsInside};
ghost use Rattle.trans_auto.specs.State.{PairHolds, Stands, Remains, PairSteps, Advances, SaysKept, SaysWindow, TakesSample};
ghost use Rattle.trans_auto.specs.Removing.{IsStep};

use crate::removing::Step;
use crate::side::Side;
use crate::watcher::Answer;
use cov_base::{Int, Memory};

/// What a run becomes at a sample, of which `inside` says where it is inside of the own items.
fn moved_run(
    own: &Side,
    removed: &Side,
    inside: u128,
    step: &mut Step,
    run: (u128, u128),
) -> (u128, u128)
    ensures is { (v : Option ℤ) → SeqsInside 0 inside v own.now → IsStep removed.now v step.old
        → PairSteps own.now removed.now v false run result }
    ensures kept { (v : Option ℤ) → IsStep removed.now v step.old → IsStep removed.now v step.new }
{
    let mine = own.step(inside, false, run.0);
    let theirs = step.moved(removed, run.1);
    (mine, theirs)
}

/// What a run says of the windows that it stands for.
fn answer_of(own: &Side, removed: &Side, run: (u128, u128)) -> Answer
    ensures counts { (u : List (Option ℤ)) → (u ≡ [] → ⊥) → PairHolds own.now removed.now run u
        → IsTrue result.counts ↔ Remains own.now removed.now u }
    ensures ends { (u : List (Option ℤ)) → (u ≡ [] → ⊥) → PairHolds own.now removed.now run u
        → IsTrue result.ends ↔ InSome own.now u }
{
    let ends = own.accepts(run.0, false);
    if ends {
        let removed = removed.accepts(run.1, false);
        Answer {
            counts: !removed,
            ends: true,
        }
    } else {
        Answer {
            counts: false,
            ends: false,
        }
    }
}

/// What the runs say together.
fn answer(own: &Side, removed: &Side, runs: &[(u128, u128)]) -> Answer
    ensures counts { (w : List (Option ℤ)) → Stands own.now removed.now runs.now w
        → IsTrue result.counts ↔ EndsKept own.now removed.now w }
    ensures ends { (w : List (Option ℤ)) → Stands own.now removed.now runs.now w
        → IsTrue result.ends ↔ EndsWindow own.now w }
{
    let mut ends = false;
    for run in runs {
        let one = answer_of(own, removed, *run);
        if one.counts {
            return one;
        }
        if one.ends {
            ends = true;
        }
    }
    Answer {
        counts: false,
        ends,
    }
}

/// Moves the first `count` runs by the sample.
fn move_runs(
    own: &Side,
    removed: &Side,
    inside: u128,
    step: &mut Step,
    runs: &mut Vec<(u128, u128)>,
    count: usize,
)
    requires within { count ≤ length runs.old.items }
    ensures len { length runs.new.items ≡ length runs.old.items }
    ensures step { (v : Option ℤ) → IsStep removed.now v step.old → IsStep removed.now v step.new }
    ensures moved { (v : Option ℤ) → SeqsInside 0 inside v own.now → IsStep removed.now v step.old
        → (k : ℕ) (d : ℕ × ℕ) → k < count
        → PairSteps own.now removed.now v false (slice_index_or runs.old.items k d) (slice_index_or runs.new.items k d) }
    ensures rest { (k : ℕ) (d : ℕ × ℕ) → count ≤ k → slice_index_or runs.new.items k d ≡ slice_index_or runs.old.items k d }
{
    for k in 0..count {
        let run = runs[k];
        runs[k] = moved_run(own, removed, inside, step, run);
    }
}

/// Leaves out the runs that reach no own cell.
fn keep_live(runs: &mut Vec<(u128, u128)>)
    ensures { runs.new.items ≡ filter (λ run. not (run.0 == 0)) runs.old.items }
{
    runs.retain(|run| run.0 != 0);
}

/// Sorts the runs, and keeps one of those that are equal.
fn sort_once(runs: &mut Vec<(u128, u128)>)
    ensures kept { (run : ℕ × ℕ) → Contains runs.old.items run → Contains runs.new.items run }
    ensures only { (run : ℕ × ℕ) → Contains runs.new.items run → Contains runs.old.items run }
    ensures once { AllPairs (λ a b. a ≢ b) runs.new.items }
{
    runs.sort_unstable();
    runs.dedup();
}

/// Keeps one of the runs that are equal.
fn keep_once(runs: &mut Vec<(u128, u128)>)
    ensures kept { (run : ℕ × ℕ) → Contains runs.old.items run → Contains runs.new.items run }
    ensures only { (run : ℕ × ℕ) → Contains runs.new.items run → Contains runs.old.items run }
    ensures once { AllPairs (λ a b. a ≢ b) runs.new.items }
{
    if runs.len() > 1 {
        sort_once(runs);
    }
}

/// The runs after a sample. Room for the run that begins with it is taken first.
fn advance(
    own: &Side,
    removed: &Side,
    step: &mut Step,
    sample: &Option<Int>,
    runs: &mut Vec<(u128, u128)>,
) -> Result<(), Memory>
    requires { IsStep removed.now sample.now step.old }
    ensures step { IsStep removed.now sample.now step.new }
    ensures ok { OnOk result (Advances own.now removed.now sample.now runs.old.items runs.new.items) }
    ensures err { OnErr result (runs.new.items ≡ runs.old.items) }
{
    let count = runs.len();
    let inside = own.inside(sample);
    let begun = own.step(inside, true, 0);
    if begun != 0 {
        runs.push((begun, step.begun()))?;
    }
    move_runs(own, removed, inside, step, runs, count);
    keep_live(runs);
    keep_once(runs);
    Ok(())
}

/// Takes the runs over a sample, and says whether a window that ends there counts, and whether one ends there.
pub(crate) fn push_runs(
    own: &Side,
    removed: &Side,
    step: &mut Step,
    sample: &Option<Int>,
    runs: &mut Vec<(u128, u128)>,
) -> Result<Answer, Memory>
    requires { IsStep removed.now sample.now step.old }
    ensures step { IsStep removed.now sample.now step.new }
    ensures counts { IfOk result (λ answer. SaysKept own.now removed.now runs.old.items sample.now answer.counts) }
    ensures ends { IfOk result (λ answer. SaysWindow own.now removed.now runs.old.items sample.now answer.ends) }
    ensures stands { OnOk result (TakesSample own.now removed.now runs.old.items sample.now runs.new.items) }
    ensures err { OnErr result (runs.new.items ≡ runs.old.items) }
{
    advance(own, removed, step, sample, runs)?;
    Ok(answer(own, removed, runs.as_slice()))
}
