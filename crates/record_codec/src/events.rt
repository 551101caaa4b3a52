//! The events of a record.
ghost use Rattle.std.specs.Prelude.{◌≡◌, ◌+◌, ◌<◌, IfOk, OnOk, vec_len, vec_capacity};
ghost use Rattle.record_codec.specs.Reading.{Gives, appended, counted, values_at, sample_at, event_at, events_at};
ghost use Rattle.record_codec.specs.Under.{value_under, set_under, plain_sample_at, plain_event_under, event_under, are_without_args, greatest, limits_of};

use crate::fault::Fault;
use crate::fields::{u8_at, u16_at, u32_at, u64_up_to};
use crate::tables::{Rows, counted};
use crate::{ArgRow, Event, InstRow, SignalRow};
use bit_width::Width;
use cov_base::ones;
use cov_ground::limits::{MOST_BITS, MOST_EVENTS};
use cov_tree::List;
use std::alloc::{AllocError, Global};

/// The bytes of the longest event without arguments.
const LONGEST: usize = 12;

/// The greatest value of so many bits, of 64 at most.
pub(crate) fn most_of(width: u8) -> u64
    ensures { result ≡ greatest width }
{
    if width >= MOST_BITS {
        return u64::MAX;
    }
    if width == 0 {
        return 0;
    }
    ones(Width::of(width))
}

/// The greatest value of each signal.
fn limits_of(alloc: Global, signals: &[SignalRow]) -> Result<Vec<u64>, AllocError>
    ensures { IfOk result (λ limits. limits.items ≡ limits_of signals.now) }
{
    let mut limits = Vec::new(alloc);
    for row in signals {
        limits.push(most_of(row.width))?;
    }
    Ok(limits)
}

// A value that isn't above the most behind its flag, which is 0 where it is Unknown.
#[inline(always)]
#[tactic(auto, unfolding(crate::specs::Under::value_under, crate::specs::Under::known_under, crate::specs::Reading::number_within))]
fn value(most: u64, bytes: &[u8]) -> Result<(Option<u64>, &[u8]), Fault>
    ensures { Gives (λ x. (x.0, x.1.now)) result (value_under most bytes.now) }
{
    let (known, rest) = u8_at(bytes)?;
    match known {
        0 => Ok((None, rest)),
        1 => {
            let (bits, rest) = u64_up_to(most, rest)?;
            Ok((Some(bits), rest))
        }
        _ => Err(Fault::BadField { left: bytes.len() }),
    }
}

#[inline(always)]
#[tactic(auto, unfolding(crate::specs::Under::set_under))]
fn set<'a>(limits: &[u64], bytes: &'a [u8]) -> Result<(Event, &'a [u8]), Fault>
    ensures { Gives (λ x. (x.0, x.1.now)) result (set_under limits.now bytes.now) }
{
    let (signal, rest) = u16_at(bytes)?;
    let Some(most) = limits.get(signal as usize) else {
        return Err(Fault::BadField { left: bytes.len() });
    };
    let (value, rest) = value(*most, rest)?;
    Ok((Event::Set { signal, value }, rest))
}

// The values of the arguments, of which there are some.
#[inline(never)]
fn listed_values<'a>(
    alloc: Global,
    args: &[ArgRow],
    bytes: &'a [u8],
) -> Result<(List<Option<u64>>, &'a [u8]), Fault>
    ensures { Gives (λ x. (x.0, x.1.now)) result (values_at args.now bytes.now) }
{
    let mut values = Vec::with_capacity(alloc, args.len())?;
    let mut rest = bytes;
    for arg in args {
        let (value, after) = value(most_of(arg.width), rest)?;
        values.push_reserved(value);
        rest = after;
    }
    Ok((List::of(values), rest))
}

// The values of the arguments. Where there are none it takes no memory.
#[inline(always)]
#[tactic(auto, unfolding(crate::specs::Reading::values_at))]
fn values<'a>(
    alloc: Global,
    args: &[ArgRow],
    bytes: &'a [u8],
) -> Result<(List<Option<u64>>, &'a [u8]), Fault>
    ensures { Gives (λ x. (x.0, x.1.now)) result (values_at args.now bytes.now) }
{
    if args.is_empty() {
        return Ok((List::new(alloc), bytes));
    }
    listed_values(alloc, args, bytes)
}

#[inline(always)]
#[tactic(auto, unfolding(crate::specs::Reading::sample_at))]
fn sample<'a>(
    alloc: Global,
    instances: &[InstRow],
    bytes: &'a [u8],
) -> Result<(Event, &'a [u8]), Fault>
    ensures { Gives (λ x. (x.0, x.1.now)) result (sample_at instances.now bytes.now) }
{
    let (instance, rest) = u16_at(bytes)?;
    let Some(row) = instances.get(instance as usize) else {
        return Err(Fault::BadField { left: bytes.len() });
    };
    let (args, rest) = values(alloc, row.args.as_slice(), rest)?;
    Ok((Event::Sample { instance, args }, rest))
}

/// Events over the greatest values of the signals, and the instances.
#[derive(Drop)]
struct Events<'t> {
    limits: &'t [u64],
    instances: &'t [InstRow],
}

impl Rows for Events<'_> {
    type Row = Event;

    ghost row_at = { λ events. event_under events.limits.now events.instances.now };

    #[tactic(auto, unfolding(crate::specs::Under::event_under, crate::specs::Reading::number_within))]
    fn row<'a>(&self, alloc: Global, bytes: &'a [u8]) -> Result<(Event, &'a [u8]), Fault> {
        let (tag, rest) = u8_at(bytes)?;
        match tag {
            1 => set(self.limits, rest),
            2 => sample(alloc, self.instances, rest),
            _ => Err(Fault::BadField { left: bytes.len() }),
        }
    }
}

/// Events over the greatest values of the signals, and so many instances without arguments.
#[derive(Drop)]
struct PlainEvents<'t> {
    limits: &'t [u64],
    instances: usize,
}

#[inline(always)]
#[tactic(auto, unfolding(crate::specs::Under::plain_sample_at, crate::specs::Reading::number_within))]
fn plain_sample(alloc: Global, instances: usize, bytes: &[u8]) -> Result<(Event, &[u8]), Fault>
    ensures { Gives (λ x. (x.0, x.1.now)) result (plain_sample_at instances bytes.now) }
{
    let (instance, rest) = u16_at(bytes)?;
    if instance as usize >= instances {
        return Err(Fault::BadField { left: bytes.len() });
    }
    let args = List::new(alloc);
    Ok((Event::Sample { instance, args }, rest))
}

impl PlainEvents<'_> {
    #[inline(always)]
    #[tactic(auto, unfolding(crate::specs::Under::plain_event_under, crate::specs::Reading::number_within))]
    fn append_event<'a>(
        &self,
        alloc: Global,
        bytes: &'a [u8],
        events: &mut Vec<Event>,
    ) -> Result<&'a [u8], Fault>
        requires { vec_len events.old < vec_capacity events.old }
        ensures row { Gives (λ rest. (events.new.items, rest.now)) result (appended events.old.items (plain_event_under self.now.limits.now self.now.instances bytes.now)) }
        ensures room { OnOk result (vec_capacity events.new ≡ vec_capacity events.old) }
        ensures long { OnOk result (vec_len events.new ≡ vec_len events.old + 1) }
    {
        let (tag, rest) = u8_at(bytes)?;
        match tag {
            1 => {
                let (event, rest) = set(self.limits, rest)?;
                events.push_reserved(event);
                Ok(rest)
            }
            2 => {
                let (event, rest) = plain_sample(alloc, self.instances, rest)?;
                events.push_reserved(event);
                Ok(rest)
            }
            _ => Err(Fault::BadField { left: bytes.len() }),
        }
    }
}

impl Rows for PlainEvents<'_> {
    type Row = Event;

    ghost row_at = { λ events. plain_event_under events.limits.now events.instances };

    #[tactic(auto, unfolding(crate::specs::Under::plain_event_under, crate::specs::Reading::number_within))]
    fn row<'a>(&self, alloc: Global, bytes: &'a [u8]) -> Result<(Event, &'a [u8]), Fault> {
        let (tag, rest) = u8_at(bytes)?;
        match tag {
            1 => set(self.limits, rest),
            2 => plain_sample(alloc, self.instances, rest),
            _ => Err(Fault::BadField { left: bytes.len() }),
        }
    }

    // Behind the one test of the length those of the fields fall away.
    #[inline(always)]
    fn append<'a>(
        &self,
        alloc: Global,
        bytes: &'a [u8],
        rows: &mut Vec<Event>,
    ) -> Result<&'a [u8], Fault> {
        if bytes.len() >= LONGEST {
            return self.append_event(alloc, bytes, rows);
        }
        self.append_event(alloc, bytes, rows)
    }
}

// Whether no instance has arguments.
fn have_no_args(instances: &[InstRow]) -> bool
    ensures { result ≡ are_without_args instances.now }
{
    instances.iter().all(|row| row.args.as_slice().is_empty())
}

// So many events.
fn counted_events<'a>(
    alloc: Global,
    signals: &[SignalRow],
    instances: &[InstRow],
    count: u32,
    bytes: &'a [u8],
) -> Result<(List<Event>, &'a [u8]), Fault>
    ensures { Gives (λ x. (x.0, x.1.now)) result (counted (event_at signals.now instances.now) count bytes.now) }
{
    let limits = limits_of(alloc, signals)?;
    if have_no_args(instances) {
        let plain = PlainEvents {
            limits: &limits,
            instances: instances.len(),
        };
        return counted(alloc, &plain, count, bytes);
    }
    let events = Events {
        limits: &limits,
        instances,
    };
    counted(alloc, &events, count, bytes)
}

/// The events behind their number. Their signals and instances are numbers of rows.
#[tactic(auto, unfolding(crate::specs::Reading::events_at))]
pub(crate) fn event_list<'a>(
    alloc: Global,
    signals: &[SignalRow],
    instances: &[InstRow],
    bytes: &'a [u8],
) -> Result<(List<Event>, &'a [u8]), Fault>
    ensures { Gives (λ x. (x.0, x.1.now)) result (events_at signals.now instances.now bytes.now) }
{
    let (count, rest) = u32_at(bytes)?;
    if count > MOST_EVENTS {
        return Err(Fault::TooManyEvents { count });
    }
    counted_events(alloc, signals, instances, count, rest)
}
