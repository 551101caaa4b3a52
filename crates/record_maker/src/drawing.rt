//! Numbers, drawn one after the other.
ghost use Rattle.std.specs.Prelude.{◌≡◌, ◌++◌, IfOk, OnOk};
ghost use Rattle.record_maker.specs.Generator.{draw as drawn, first_number as first, highest as highest_of, after, values_of};

use cov_ground::Memory;
use cov_tree::List;
use design_data::Signal;

const FACTOR: u64 = 6_364_136_223_846_793_005;

const ADDEND: u64 = 1_442_695_040_888_963_407;

/// The number drawn after another.
pub(crate) fn draw(x: u64) -> u64
    ensures { result ≡ drawn x }
{
    x.wrapping_mul(FACTOR).wrapping_add(ADDEND)
}

/// The number before the first draw for a test.
pub(crate) fn first_number(seed: u64, test: u32) -> u64
    ensures { result ≡ first seed test }
{
    seed.wrapping_add(test as u64)
}

/// The highest bits of a number.
pub(crate) fn highest(width: u8, x: u64) -> u64
    ensures { result ≡ highest_of width x }
{
    if width == 0 {
        return 0;
    }
    if width >= 64 {
        return x;
    }
    x >> (64 - width)
}

/// A value for each argument behind the others; the number that was drawn last.
pub(crate) fn push_values(
    values: &mut List<Option<u64>>,
    args: &[Signal],
    x: u64,
) -> Result<u64, Memory>
    ensures values { OnOk result (values.new ≡ values.old ++ values_of args.now x) }
    ensures last { IfOk result (λ y. y ≡ after args.now x) }
{
    let mut last = x;
    let mut rest = args;
    while let Some((arg, later)) = rest.split_first() {
        last = draw(last);
        values.push(Some(highest(arg.width, last)))?;
        rest = later;
    }
    Ok(last)
}
