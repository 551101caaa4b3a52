//! The changes of a dump, in steps of equal time.
ghost use Rattle.std.specs.Prelude.{◌≡◌, OnOk, IfOk};
ghost use Rattle.vcd_dump.specs.Gives.{Makes};
ghost use Rattle.vcd_dump.specs.Body.{is_mark, command, kind_of, at_time, with_change, steps_of};

use crate::fault::Fault;
use crate::packed::Packed;
use crate::packing::Item;
use crate::{Change, Steps};
use cov_ground::Memory;
use std::alloc::Global;

/// The times and changes so far.
#[derive(Drop)]
pub(crate) struct Body {
    pub(crate) items: Packed,
    /// Whether a step stands open.
    pub(crate) begun: bool,
    /// The time of the step that stands open, or 0.
    pub(crate) time: u64,
}

/// What a word among the changes begins with.
#[derive(Clone, Copy)]
pub(crate) enum Kind {
    /// `#`
    Time,
    /// `b` or `B`
    Vector,
    /// `r`, `R`, `s` or `S`: a value that isn't read
    Skipped,
    /// A digit.
    Scalar,
    /// A word that is skipped by itself.
    Mark,
    /// `$comment`
    Comment,
    /// Something else.
    Other,
}

/// Whether a word is skipped by itself: `$dumpvars`, `$dumpall`, `$dumpon`, `$dumpoff` or a single `$end`.
fn is_mark(text: &[u8]) -> bool
    ensures { result ≡ is_mark text.now }
{
    if text == b"$end".as_slice() {
        return true;
    }
    if text == b"$dumpvars".as_slice() {
        return true;
    }
    if text == b"$dumpall".as_slice() {
        return true;
    }
    if text == b"$dumpon".as_slice() {
        return true;
    }
    text == b"$dumpoff".as_slice()
}

fn command(text: &[u8]) -> Kind
    ensures { result ≡ command text.now }
{
    if text == b"$comment".as_slice() {
        return Kind::Comment;
    }
    if is_mark(text) {
        return Kind::Mark;
    }
    Kind::Other
}

/// What a word among the changes is.
#[tactic(auto, unfolding(crate::specs::Body::kind_of))]
pub(crate) fn kind_of(text: &[u8]) -> Kind
    ensures { result ≡ kind_of text.now }
{
    let Some((first, _)) = text.split_first() else {
        return Kind::Other;
    };
    match *first {
        b'#' => Kind::Time,
        b'0' | b'1' | b'x' | b'X' | b'z' | b'Z' => Kind::Scalar,
        b'b' | b'B' => Kind::Vector,
        b'r' | b'R' | b's' | b'S' => Kind::Skipped,
        _ => command(text),
    }
}

impl Body {
    ghost use Rattle.std.specs.Prelude.{◌≡◌, [], false, OnOk, IfOk};
    ghost use Rattle.vcd_dump.specs.Gives.{Makes};
    ghost use Rattle.vcd_dump.specs.Body.{begun_at, at_time, with_change, steps_of};

    /// No steps, with room for those of a dump of so many bytes.
    pub(crate) fn with_room(alloc: Global, room: usize) -> Result<Body, Memory>
        ensures { IfOk result (λ body. body ≡ record { items = []; begun = false; time = 0 }) }
    {
        let items = Packed::with_room(alloc, room)?;
        Ok(Body {
            items,
            begun: false,
            time: 0,
        })
    }

    /// A step of this time stands open.
    fn begin(&mut self, alloc: Global, time: u64) -> Result<(), Memory>
        ensures { OnOk result (self.new ≡ begun_at time self.old) }
    {
        self.items.push(alloc, Item::Begins { time })?;
        self.begun = true;
        self.time = time;
        Ok(())
    }

    /// A time, in a word with so many bytes left.
    #[tactic(auto, unfolding(crate::specs::Body::at_time))]
    pub(crate) fn at_time(&mut self, alloc: Global, left: usize, time: u64) -> Result<(), Fault>
        ensures { Makes result self.new (at_time left time self.old) }
    {
        if !self.begun {
            self.begin(alloc, time)?;
            return Ok(());
        }
        if time < self.time {
            return Err(Fault::TimeBack { left });
        }
        if time == self.time {
            return Ok(());
        }
        self.begin(alloc, time)?;
        Ok(())
    }

    /// A change in the step that stands open.
    #[tactic(auto, unfolding(crate::specs::Body::with_change))]
    pub(crate) fn add(&mut self, alloc: Global, change: Change) -> Result<(), Memory>
        ensures { OnOk result (self.new ≡ with_change change self.old) }
    {
        self.items.push(alloc, Item::Changes { change })?;
        self.begun = true;
        Ok(())
    }

    /// All steps.
    pub(crate) fn into_steps(self) -> Steps
        ensures { result ≡ steps_of self.items }
    {
        Steps::of(self.items)
    }
}
