//! Bins that rise at most once at a sample, however many of their products are hit.
ghost use Rattle.std.specs.Prelude.{◌≡◌, ◌<◌, ◌≤◌, ◌+◌, ◌∷◌, [], length};
ghost use Rattle.std.specs.List.{All};
ghost use Rattle.cross_sampler.specs.Once.{Once, HasRoom, guard_at, bit};
ghost use Rattle.cross_sampler.specs.Plans.{IsGuardEnd};

use cov_base::Int;
use cov_counting::bin_holds;
use design_data::BinInfo;

/// 1 where the guard of the bin at this index is true, else 0. Bins from `guards` on have none.
fn rise(bins: &[BinInfo], guards: usize, bin: usize, env: &[Option<Int>]) -> u64
    requires guards { IsGuardEnd bins.now guards }
    requires inside { bin < length bins.now }
    ensures { result ≡ bit (guard_at bins.now env.now bin) }
{
    if bin >= guards {
        return 1;
    }
    if bin_holds(&bins[bin].guard, env) {
        1
    } else {
        0
    }
}

/// Adds one to a bin that doesn't bear the sample's mark yet and whose guard is true, and marks it.
fn add_one(
    bins: &[BinInfo],
    guards: usize,
    first: usize,
    env: &[Option<Int>],
    bin: usize,
    mark: u32,
    stamps: &mut [u32],
    counts: &mut [u64],
)
    requires guards { IsGuardEnd bins.now guards }
    requires bins { length stamps.old ≡ length bins.now }
    requires inside { bin < length stamps.old }
    requires within { first + length stamps.old ≤ length counts.old }
    ensures { HasRoom first mark stamps.old counts.old → Once (guard_at bins.now env.now) first mark (bin ∷ []) stamps.old counts.old stamps.new counts.new }
{
    if stamps[bin] == mark {
        return;
    }
    stamps[bin] = mark;
    let number = first + bin;
    counts[number] = counts[number].saturating_add(rise(bins, guards, bin, env));
}

/// Adds one to each of the bins that doesn't bear the sample's mark yet and whose guard is true, and marks it. The counts
/// of the bins stand from `first` on, and bins from `guards` on have no guard.
pub(crate) fn add_once(
    bins: &[BinInfo],
    guards: usize,
    first: usize,
    env: &[Option<Int>],
    hit: &[u32],
    mark: u32,
    stamps: &mut [u32],
    counts: &mut [u64],
)
    requires guards { IsGuardEnd bins.now guards }
    requires bins { length stamps.old ≡ length bins.now }
    requires inside { All (λ bin. bin < length stamps.old) hit.now }
    requires within { first + length stamps.old ≤ length counts.old }
    ensures { HasRoom first mark stamps.old counts.old → Once (guard_at bins.now env.now) first mark hit.now stamps.old counts.old stamps.new counts.new }
{
    for bin in hit {
        add_one(
            bins,
            guards,
            first,
            env,
            *bin as usize,
            mark,
            stamps,
            counts,
        );
    }
}
