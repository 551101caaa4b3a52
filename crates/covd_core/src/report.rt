//! The commands `report`, `export` and `make`, which fill a store and show it.
ghost use Rattle.std.specs.Prelude.{◌≡◌, ◌≤◌, [], option_map, IfOk};
ghost use Rattle.design_data.specs.declared.design.Design.{Design};
ghost use Rattle.merge_store.specs.Stores.{opening_of, entries_of};
ghost use Rattle.sha2.specs.Sha256.{sha256};
ghost use Rattle.export_page.specs.Page.{page_text};
ghost use Rattle.store_views.specs.Views.{rows_at};
ghost use Rattle.covd_core.specs.Command.{form_text, shown_status, shown_at, shown_waived, shown_by, Reports};
ghost use Rattle.store_waivers.specs.Waived.{waiving};
ghost use Rattle.covd_commands.specs.Options.{options_in};
ghost use Rattle.covd_filling.specs.Outcomes.{Prints};
ghost use Rattle.covd_filling.specs.Steps.{IsPlain, filled_of};
ghost use Rattle.covd_commands.specs.Origins.{origins_of};

use crate::starting::{HadCompiled, had_compiled};
use crate::waiving::{HadWaivers, had_waivers};
use cov_base::{Memory, Shelf};
use cov_report::{report_lines, short_lines};
use covd_commands::Status;
use covd_commands::answer::Answer;
use covd_commands::forms::Form;
use covd_commands::options::Options;
use covd_commands::origins::Origins;
use covd_filling::{Left, stored};
use export_json::json_lines;
use export_lists::{bins_lines, holes_lines};
use export_page::append_page;
use export_ucis::ucis_lines;
use merge_store::Store;
use sha2::{Digest, Sha256};
use std::alloc::Global;
use std::thread::Threads;
use store_waivers::{WaiveFault, append_full, append_hits, append_unwaived, waive};
use waivers::Waiver;

/// A store as a page of HTML; the text of its design is given.
fn page<R: Threads + Sync>(
    rt: &R,
    alloc: Global,
    source: &[u8],
    store: &Store,
) -> Result<Vec<u8>, Memory>
    ensures { IfOk result (λ text. text.items ≡ page_text (opening_of store.now) (entries_of store.now)
        (sha256 source.now)) }
{
    let digest = Sha256::digest(source);
    let mut text = Vec::new(alloc);
    append_page(rt, alloc, &mut text, store, &digest)?;
    Ok(text)
}

/// What a command that fills a store is asked for.
#[derive(Clone, Copy)]
pub(crate) struct Asked<'w> {
    pub(crate) options: Options<'w>,
    pub(crate) form: Form,
    /// The name of the design's file.
    pub(crate) design: &'w str,
    /// Where its records come from.
    pub(crate) origins: Origins<'w>,
}

/// As what a store is shown.
#[derive(Clone, Copy)]
struct Showing<'w> {
    options: Options<'w>,
    form: Form,
    /// The text of the design.
    source: &'w [u8],
}

/// What is shown beside a history: behind its tests, and below the coverage of all.
#[derive(Drop)]
struct Beside {
    notes: Vec<u8>,
    below: Vec<u8>,
}

/// The text of a store.
fn text_of<R: Threads + Sync>(
    rt: &R,
    alloc: Global,
    showing: Showing,
    store: &Store,
    beside: &Beside,
) -> Result<Vec<u8>, Memory>
    ensures { IfOk result (λ text. text.items ≡ form_text (options_in showing.entry.options) showing.entry.form
        showing.entry.source.now (record { notes = beside.now.notes.items; below = beside.now.below.items })
        (opening_of store.now) (entries_of store.now)) }
{
    let notes = beside.notes.as_slice();
    let below = beside.below.as_slice();
    match showing.form {
        Form::Report if showing.options.short => short_lines(alloc, store, notes, below),
        Form::Report => report_lines(rt, alloc, store, notes, below),
        Form::Bins => bins_lines(alloc, store),
        Form::Holes => holes_lines(alloc, store),
        Form::Json => {
            let digest = Sha256::digest(showing.source);
            json_lines(rt, alloc, store, &digest)
        }
        Form::Ucis => ucis_lines(alloc, store),
        Form::Html => page(rt, alloc, showing.source, store),
    }
}

/// How a command ends that shows all of a store.
fn status_of(options: Options, partly: bool, store: &Store) -> Result<Status, Memory>
    ensures { IfOk result (λ status. status
        ≡ shown_status partly (rows_at (opening_of store.now) (entries_of store.now) 0).millionths options.entry.goal) }
{
    if partly {
        return Ok(Status::Partly);
    }
    let Some(goal) = options.goal else {
        return Ok(Status::Done);
    };
    let row = store.cover_row(0)?;
    if row.millionths < goal {
        return Ok(Status::BelowGoal);
    }
    Ok(Status::Done)
}

/// What is shown of a store.
fn shown<R: Threads + Sync>(
    rt: &R,
    alloc: Global,
    showing: Showing,
    partly: bool,
    store: &Store,
    beside: &Beside,
) -> Result<Answer, Memory>
    ensures { IfOk result (λ a. (a.status, a.text.items) ≡ shown_at (options_in showing.entry.options) showing.entry.form
        showing.entry.source.now partly (record { notes = beside.now.notes.items; below = beside.now.below.items })
        (opening_of store.now) (entries_of store.now)) }
{
    let status = status_of(showing.options, partly, store)?;
    let text = text_of(rt, alloc, showing, store, beside)?;
    Ok(Answer { status, text })
}

/// What is shown of a store behind its waivers; or that they would pass a limit.
fn shown_behind<R: Threads + Sync>(
    rt: &R,
    alloc: Global,
    showing: Showing,
    waivers: &[Waiver],
    store: Store,
    left: Left,
) -> Result<Answer, Memory>
    ensures { IfOk result (λ a. (a.status, a.text.items) ≡ shown_waived (options_in showing.entry.options)
        showing.entry.form showing.entry.source.now waivers.now (opening_of store) (filled_of store left)
        (waiving (opening_of store) (entries_of store) waivers.now)) }
{
    let row = store.cover_row(0)?;
    let mut below = Vec::new(alloc);
    append_unwaived(&mut below, row.millionths)?;
    let mut store = store;
    let mut notes = left.text;
    match waive(alloc, &mut store, waivers, &mut notes) {
        Ok(()) => {
            append_hits(&mut notes, &store)?;
            shown(
                rt,
                alloc,
                showing,
                left.partly,
                &store,
                &Beside { notes, below },
            )
        }
        Err(WaiveFault::Full { which, have, want }) => {
            let mut text = Vec::new(alloc);
            append_full(&mut text, which, have, want)?;
            Ok(Answer {
                status: Status::WaiversRefused,
                text,
            })
        }
        Err(WaiveFault::Memory) => Err(Memory),
    }
}

/// What is shown of a store that is filled.
fn shown_filled<R: Threads + Sync>(
    rt: &R,
    alloc: Global,
    showing: Showing,
    waivers: Option<Vec<Waiver>>,
    store: Store,
    left: Left,
) -> Result<Answer, Memory>
    ensures { IfOk result (λ a. (a.status, a.text.items) ≡ shown_by (options_in showing.entry.options) showing.entry.form
        showing.entry.source.now (option_map (λ some. some.items) waivers) (opening_of store) (filled_of store left)) }
{
    match waivers {
        Some(waivers) => shown_behind(rt, alloc, showing, waivers.as_slice(), store, left),
        None => {
            let Left { text, partly } = left;
            let beside = Beside {
                notes: text,
                below: Vec::new(alloc),
            };
            shown(rt, alloc, showing, partly, &store, &beside)
        }
    }
}

/// Loads, compiles, reads the waivers, takes the records that come from there in and shows the store, as it is asked for.
pub(crate) fn report<R: Threads + Sync, F: Shelf>(
    rt: &R,
    alloc: Global,
    asked: Asked,
    shelf: &mut F,
) -> Result<Answer, Memory>
    ensures same { F.files shelf.new ≡ F.files shelf.old }
    ensures later { F.faults shelf.old ≤ F.faults shelf.new }
    ensures answer { IfOk result (λ a. Reports (F.files shelf.old) (F.faults shelf.old) (F.faults shelf.new)
        (options_in asked.entry.options) asked.entry.form asked.entry.design.now (origins_of asked.entry.origins)
        a.status a.text.items) }
{
    let compiled = match had_compiled(alloc, asked.design, shelf)? {
        HadCompiled::Compiled(compiled) => compiled,
        HadCompiled::Refused(answer) => return Ok(answer),
    };
    let waivers = match had_waivers(alloc, asked.options.waivers, shelf)? {
        HadWaivers::Had(waivers) => waivers,
        HadWaivers::Refused(answer) => return Ok(answer),
    };
    match stored(
        rt,
        alloc,
        asked.options,
        compiled.design(),
        asked.origins,
        shelf,
    ) {
        Ok((store, left)) => {
            let showing = Showing {
                options: asked.options,
                form: asked.form,
                source: compiled.text(),
            };
            shown_filled(rt, alloc, showing, waivers, store, left)
        }
        Err(stop) => stop.into_answer(),
    }
}
