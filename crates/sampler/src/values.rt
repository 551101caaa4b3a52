//! The values of signals and arguments along the events.
ghost use Rattle.std.specs.Prelude.{◌≡◌, ◌∷◌, [], ℕ, List, Option, length};
ghost use Rattle.cov_ground.specs.Limits.{most_arguments};
ghost use Rattle.record_codec.specs.declared.record.Event.{Event as AnyEvent};
ghost use Rattle.record_codec.specs.declared.record.Event.TheVariants.{Set};
ghost use Rattle.sampler.specs.Values.{places, Holds, Writes};

use cov_base::Int;
use cov_counting::{arg_value, signal_value};
use cov_ground::limits::{MOST_ARGUMENTS, MOST_SIGNALS};
use record_codec::{ArgRow, SignalRow};

/// Sets a signal.
pub(crate) fn set_signal(
    values: &mut [Option<Int>],
    rows: &[SignalRow],
    signal: u16,
    bits: Option<u64>,
)
    requires places { length values.old ≡ places }
    ensures { (before : List AnyEvent) → Holds rows.now before values.old → Holds rows.now (Set signal bits ∷ before) values.new }
{
    let index = signal as usize;
    if index >= MOST_SIGNALS {
        return;
    }
    values[index] = signal_value(rows, index, bits);
}

/// Makes the places of all arguments Unknown.
pub(crate) fn clear_args(values: &mut [Option<Int>])
    requires places { length values.old ≡ places }
    ensures { (args : List (Option ℕ)) → Writes [] args values.old values.new most_arguments }
{
    for slot in 0..MOST_ARGUMENTS {
        values[MOST_SIGNALS + slot] = None;
    }
}

/// Writes the arguments of a sample behind the signals' values; the places of further ones become Unknown.
pub(crate) fn write_args(values: &mut [Option<Int>], rows: &[ArgRow], args: &[Option<u64>])
    requires places { length values.old ≡ places }
    ensures { Writes rows.now args.now values.old values.new most_arguments }
{
    for k in 0..MOST_ARGUMENTS {
        values[MOST_SIGNALS + k] = arg_value(rows, args, k);
    }
}
