//! What a record holds.
ghost use Rattle.record_codec.specs.Limits.{IsWithinLimits, IsWithinLimits-prop};

use cov_tree::{List, Name};

/// One test of a simulation. It is always within its limits: whoever makes one shows them.
#[derive(Drop)]
pub struct Record {
    /// The version of its form: 1, or 2, in which samples may have arguments.
    pub version: u16,
    /// The test's name: 1 to 255 printable bytes, no spaces.
    pub id: Name,
    /// How the test ended: 0 OK, 1 WARNING, 2 ERROR, 3 FATAL.
    pub status: u8,
    /// The seed of its random numbers.
    pub seed: u64,
    /// The simulated time, in units of the simulation's own.
    pub time: u64,
    /// Who ran it: up to 255 printable bytes.
    pub user: Name,
    /// The sampled signals, at most 4,096.
    pub signals: List<SignalRow>,
    /// The sampled instances, at most 1,024.
    pub instances: List<InstRow>,
    /// What happened, in order, at most 1,048,576 events. Their signals and instances are numbers of rows, and a known
    /// value has no more bits than its signal or argument. All of the record's bytes are at most 8,388,608.
    pub events: List<Event>,
    pub ghost within: { IsWithinLimits (record {
      version = version;
      id = id;
      status = status;
      seed = seed;
      time = time;
      user = user;
      signals = signals;
      instances = instances;
      events = events;
    }) } by { IsWithinLimits-prop (record {
      version = version;
      id = id;
      status = status;
      seed = seed;
      time = time;
      user = user;
      signals = signals;
      instances = instances;
      events = events;
    }) },
}

/// The fields of a record, before they are known to be within its limits.
#[derive(Drop)]
pub struct Fields {
    pub version: u16,
    pub id: Name,
    pub status: u8,
    pub seed: u64,
    pub time: u64,
    pub user: Name,
    pub signals: List<SignalRow>,
    pub instances: List<InstRow>,
    pub events: List<Event>,
}

/// What a record says before its events: the same fields, in the same ranges.
#[derive(Drop)]
pub struct Start {
    pub version: u16,
    pub id: Name,
    pub status: u8,
    pub seed: u64,
    pub time: u64,
    pub user: Name,
    pub signals: List<SignalRow>,
    pub instances: List<InstRow>,
}

/// A signal: its name of 1 to 1,024 printable bytes without spaces, its width of 1 to 64 bits, and whether it is signed.
pub struct SignalRow {
    pub name: Name,
    pub width: u8,
    pub signed: bool,
}

impl Drop for SignalRow {
    fn drop(self) {
        let SignalRow {
            name: _,
            width: _,
            signed: _,
        } = self;
    }
}

/// An argument of a group's sample function: its width of 1 to 64 bits, and whether it is signed.
#[derive(Clone, Copy, PartialEq, Eq)]
pub struct ArgRow {
    pub width: u8,
    pub signed: bool,
}

/// An instance of a covergroup: its name and its group's, each of 1 to 1,024 printable bytes without spaces, and the
/// arguments of its sample function, at most 16; none in version 1.
pub struct InstRow {
    pub name: Name,
    pub group: Name,
    pub args: List<ArgRow>,
}

impl Drop for InstRow {
    fn drop(self) {
        let InstRow {
            name: _,
            group: _,
            args: _,
        } = self;
    }
}

/// One step of a record.
#[derive(Drop)]
pub enum Event {
    /// The signal of this number has these bits from now on; with None it is Unknown: some bit of it is x or z.
    Set {
        signal: u16,
        value: Option<u64>,
    },
    /// The instance of this number is sampled, with a value for each of its arguments; None is Unknown.
    Sample {
        instance: u16,
        args: List<Option<u64>>,
    },
}

/// What a record says of its test, before the tables.
#[derive(Drop)]
pub(crate) struct TestRow {
    pub(crate) id: Name,
    pub(crate) status: u8,
    pub(crate) seed: u64,
    pub(crate) time: u64,
    pub(crate) user: Name,
}
