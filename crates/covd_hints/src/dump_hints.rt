//! Hints on dumps that are refused.
ghost use Rattle.std.specs.Prelude.{◌≤◌, length};
ghost use Rattle.cov_ground.specs.Limits.{longest_design};
ghost use Rattle.vcd_reader.specs.Reading.{longest_dump};

use crate::file_hints::{read_again, stream_hint};
use crate::kind_hints::{Wanted, kind_hint};
use cov_ground::limits::LONGEST_DESIGN;
use covd_core::{LONGEST_DUMP, compile, dump_fault};
use design_data::Signal;
use std::alloc::{AllocError, Global};
use std::rt::Files;
use text_place::{Fault, kind_of, place_hint};
use vcd_reader::{DumpFault, DumpVar, read_dump};

/// The most scopes that are shown.
const SHOWN: usize = 8;

/// How many bytes of a dump show of which kind it is.
const FRONT: usize = 65_536;

/// What `record` was given: the names of the files with what stands in them, and the scope.
#[derive(Drop)]
struct Given<'a> {
    design: &'a str,
    text: &'a [u8],
    dump: &'a str,
    bytes: &'a [u8],
    scope: &'a str,
}

/// The hint on a word of the dump.
fn word_hint(
    alloc: Global,
    given: &Given<'_>,
    kind: &'static str,
    at: u32,
    meaning: &str,
) -> Option<String>
    requires { length given.now.bytes.now ≤ longest_dump }
{
    let fault = Fault { kind, at, meaning };
    place_hint(alloc, given.dump, given.bytes, fault).ok()
}

/// The hint on the event of a group.
fn event_hint(alloc: Global, given: &Given<'_>, at: u32) -> Option<String>
    requires { length given.now.text.now ≤ longest_design }
{
    let fault = Fault {
        kind: "BadEvent",
        at,
        meaning: "the event of this group names what is no variable and no ref formal, or its iff does",
    };
    place_hint(alloc, given.design, given.text, fault).ok()
}

/// Whether a variable stands for signals of this name.
fn is_named(var: &DumpVar, name: &[u8]) -> bool {
    !var.selected && var.name.as_slice() == name
}

/// Adds a scope behind those before it.
fn add_scope(alloc: Global, hint: &mut String, var: &DumpVar) -> Result<(), AllocError> {
    let scope = String::from_utf8_lossy(alloc, var.scope.as_slice())?;
    hint.push_str(" ")?;
    hint.push_str(scope.as_str())
}

/// Adds the scopes that have such a variable, and a newline.
fn add_scopes(
    alloc: Global,
    hint: &mut String,
    vars: &[DumpVar],
    name: &[u8],
) -> Result<(), AllocError> {
    let mut shown = 0;
    for var in vars {
        if is_named(var, name) {
            if shown >= SHOWN {
                return hint.push_str(" ..\n");
            }
            shown += 1;
            add_scope(alloc, hint, var)?;
        }
    }
    hint.push_str(if shown == 0 { " none\n" } else { "\n" })
}

/// How the hint on a signal begins that the scope has no variable of.
fn missing_head(alloc: Global, given: &Given<'_>, signal: &Signal) -> Result<String, AllocError> {
    let name = String::from_utf8_lossy(alloc, signal.name.as_slice())?;
    format!(in alloc;
        "{}: the scope {} has no variable {name}; scopes of the dump that have one:",
        given.dump, given.scope
    )
}

/// The hint on a signal that the scope has no variable of.
fn missing_hint(
    alloc: Global,
    given: &Given<'_>,
    signal: &Signal,
    vars: &[DumpVar],
) -> Result<String, AllocError> {
    let mut hint = missing_head(alloc, given, signal)?;
    add_scopes(alloc, &mut hint, vars, signal.name.as_slice())?;
    Ok(hint)
}

/// The width of the first variable of a name in a scope that has one; 0 where there is none.
fn width_in(vars: &[DumpVar], scope: &[u8], name: &[u8]) -> u32 {
    let mut width = 0;
    for var in vars {
        if width == 0 && is_named(var, name) && var.scope.as_slice() == scope {
            width = var.width;
        }
    }
    width
}

/// The hint on a signal whose variable has another width.
fn width_hint(
    alloc: Global,
    given: &Given<'_>,
    signal: &Signal,
    vars: &[DumpVar],
) -> Result<String, AllocError> {
    let width = width_in(vars, given.scope.as_bytes(), signal.name.as_slice());
    let name = String::from_utf8_lossy(alloc, signal.name.as_slice())?;
    format!(in alloc;
        "{}: {name} has {width} bits in the scope {}, and {} in the design\n",
        given.dump, given.scope, signal.width
    )
}

/// The hint on a signal that the dump has no variable of, or one of another width.
fn signal_text(
    alloc: Global,
    given: &Given<'_>,
    signal: &Signal,
    vars: &[DumpVar],
    missing: bool,
) -> Result<String, AllocError> {
    if missing {
        missing_hint(alloc, given, signal, vars)
    } else {
        width_hint(alloc, given, signal, vars)
    }
}

/// The hint on a signal, by the variables of the dump.
fn hint_beside(alloc: Global, given: &Given<'_>, signal: &Signal, missing: bool) -> Option<String>
    requires { length given.now.bytes.now ≤ longest_dump }
{
    match read_dump(alloc, given.bytes) {
        Ok(dump) => signal_text(alloc, given, signal, dump.vars.as_slice(), missing).ok(),
        Err(_) => None,
    }
}

/// The hint on the signal of a number.
fn signal_hint(alloc: Global, given: &Given<'_>, number: u64, missing: bool) -> Option<String>
    requires text { length given.now.text.now ≤ longest_design }
    requires dump { length given.now.bytes.now ≤ longest_dump }
{
    let Ok(design) = compile(alloc, given.text) else {
        return None;
    };
    match design.signals().get(number as usize) {
        Some(signal) => hint_beside(alloc, given, signal, missing),
        None => None,
    }
}

/// The hint on a record that is too large.
fn large_hint(alloc: Global, given: &Given<'_>) -> Option<String> {
    format!(in alloc;
        "{}: a record has at most 1048576 events and 8388608 bytes; cut the dump into pieces, as hooks/vcdprep.py does\n",
        given.dump
    )
    .ok()
}

/// Whether the program GHDL wrote the dump: whether its `$version`, or another word before its first `$scope`, says so.
fn is_of_ghdl(front: &[u8]) -> bool {
    for at in 0..front.len() {
        let rest = &front[at..];
        if rest.starts_with(b"$scope") {
            return false;
        }
        if rest.starts_with(b"GHDL") {
            return true;
        }
    }
    false
}

/// What a word is that a dump can't have there.
fn syntax_meaning(front: &[u8]) -> &'static str {
    if is_of_ghdl(front) {
        "this word can't stand here in a dump of four values; GHDL needs --vcd-4states"
    } else {
        "this word can't stand here in a dump of four values"
    }
}

/// The hint on a word that a dump can't have there, or on a file that is no dump.
fn syntax_hint(alloc: Global, given: &Given<'_>, at: u32) -> Option<String>
    requires { length given.now.bytes.now ≤ longest_dump }
{
    let front = &given.bytes[..given.bytes.len().min(FRONT)];
    let hint = kind_hint(alloc, given.dump, kind_of(front), Wanted::Dump);
    if hint.is_some() {
        return hint;
    }
    word_hint(alloc, given, "Syntax", at, syntax_meaning(front))
}

/// The hint on a dump that is refused so.
fn fault_hint(alloc: Global, given: &Given<'_>, fault: DumpFault) -> Option<String>
    requires text { length given.now.text.now ≤ longest_design }
    requires dump { length given.now.bytes.now ≤ longest_dump }
{
    match fault {
        DumpFault::Syntax { at } => syntax_hint(alloc, given, at),
        DumpFault::TimeBack { at } => {
            word_hint(
                alloc,
                given,
                "TimeBack",
                at,
                "this time is below the one before",
            )
        }
        DumpFault::UnknownCode { at } => {
            word_hint(
                alloc,
                given,
                "UnknownCode",
                at,
                "no $var declares the code of this change",
            )
        }
        DumpFault::BadEvent { at } => event_hint(alloc, given, at),
        DumpFault::NoSignal { n } => signal_hint(alloc, given, n, true),
        DumpFault::WidthDiffers { n } => signal_hint(alloc, given, n, false),
        DumpFault::TooManyEvents { .. } | DumpFault::TooLong { .. } => large_hint(alloc, given),
        DumpFault::Memory => None,
    }
}

/// The hint on what was given, of which no record is made.
fn given_hint(alloc: Global, given: &Given<'_>, id: &str) -> Option<String>
    requires text { length given.now.text.now ≤ longest_design }
    requires dump { length given.now.bytes.now ≤ longest_dump }
{
    let scope = given.scope.as_bytes();
    match dump_fault(alloc, given.text, given.bytes, scope, id.as_bytes()) {
        Some(fault) => fault_hint(alloc, given, fault),
        None => None,
    }
}

/// The hint on a dump under a design text, of these names.
pub(crate) fn on_dump<R: Files + AllocGlobal>(
    rt: &R,
    design: &str,
    dump: &str,
    scope: &str,
    id: &str,
) -> Option<String> {
    let Some(text) = read_again(rt, design, LONGEST_DESIGN) else {
        return stream_hint(rt.alloc(), design);
    };
    let Some(bytes) = read_again(rt, dump, LONGEST_DUMP) else {
        return stream_hint(rt.alloc(), dump);
    };
    let given = Given {
        design,
        text: &text,
        dump,
        bytes: &bytes,
        scope,
    };
    given_hint(rt.alloc(), &given, id)
}
