//! The command `record`.
ghost use Rattle.std.specs.Prelude.{◌≡◌, ◌≤◌, map, length, string_bytes, IsNone, IfOk, IfErr, IfSome, MatchOption, Ok};
ghost use Rattle.std.specs.List.{list_all};
ghost use Rattle.cov_compile.specs.Compiling.{Declares, Compiles};
ghost use Rattle.cov_compile.specs.Elaboration.{Elaborates, parts_of};
ghost use Rattle.cov_ground.specs.Limits.{longest_design};
ghost use Rattle.record_codec.specs.Spelling.{fields_of, spelling};
ghost use Rattle.vcd_reader.specs.DumpFault.TheVariants as dumping;
ghost use Rattle.vcd_reader.specs.Reading.{longest_dump};
ghost use Rattle.vcd_reader.specs.Refusals.{Gives};
ghost use Rattle.covd_commands.specs.declared.status.Status.TheVariants.{Done, DumpRefused};
ghost use Rattle.covd_commands.specs.Commands.{IsRecordCommand, IsNoRecord, Records};
ghost use Rattle.covd_commands.specs.Dumps.{is_id_byte, is_test_id, IsTextOf, IsFaultOf, made_of};
ghost use Rattle.covd_commands.specs.Lines.{IsDumpFaultText, dump_refused_text};
ghost use Rattle.covd_commands.specs.Steps.{IsHadText, RecordsDump};

use crate::Status;
use crate::answer::Answer;
use crate::loading::{Loaded, load, uncompiled};
use crate::texts::dump_refused;
use cov_base::{Memory, Shelf};
use cov_compile::{CompileFault, elaborate};
use cov_ground::limits::LONGEST_DESIGN;
use cov_lexer::lex;
use cov_parser::parse;
use cov_tree::{DesignText, Name};
use design_data::Design;
use record_codec::{LONGEST_ID, Record, encode};
use std::alloc::Global;
use vcd_reader::{DumpFault, read_dump, record_of};

/// Bytes of a dump.
pub const LONGEST_DUMP: u64 = 33_554_432;

/// What `record` is given: the names of a design, a dump and a scope, and the id of a test.
#[derive(Clone, Copy)]
pub struct Recording<'a> {
    /// The name of the design's file.
    pub design: &'a str,
    /// The name of the dump's file.
    pub dump: &'a str,
    /// The scope of the dump, written out from the outermost one with dots.
    pub scope: &'a str,
    /// The id of the test: 1 to 255 bytes, each from `!` to `~`.
    pub id: &'a str,
}

// Whether a byte may stand in an id.
fn is_id_byte(byte: u8) -> bool
    ensures { result ≡ is_id_byte byte }
{
    33 <= byte && byte <= 126
}

// Whether all bytes may stand in an id.
fn are_id_bytes(bytes: &[u8]) -> bool
    ensures { result ≡ list_all is_id_byte bytes.now }
{
    bytes.iter().all(|byte| is_id_byte(*byte))
}

// Whether the bytes are the id of a test.
fn is_test_id(id: &[u8]) -> bool
    ensures { result ≡ is_test_id id.now }
{
    if id.is_empty() {
        return false;
    }
    if id.len() > LONGEST_ID as usize {
        return false;
    }
    are_id_bytes(id)
}

/// The words behind `record`.
pub fn record_words(words: &[String]) -> Option<Recording<'_>>
    ensures { MatchOption result (IsNoRecord (map string_bytes words.now)) (λ w. IsRecordCommand (map string_bytes words.now) w.design.now w.dump.now w.scope.now w.id.now) }
{
    match words {
        [command, design, dump, scope, id] => {
            if command.as_str() != "record" {
                return None;
            }
            if !is_test_id(id.as_bytes()) {
                return None;
            }
            Some(Recording {
                design: design.as_str(),
                dump: dump.as_str(),
                scope: scope.as_str(),
                id: id.as_str(),
            })
        }
        _ => None,
    }
}

/// The declarations of a design text, and the design that they make.
#[derive(Drop)]
pub(crate) struct Declared {
    tree: DesignText,
    design: Design,
}

// The declarations of a text.
fn tree_of(alloc: Global, text: &[u8]) -> Result<DesignText, CompileFault>
    requires { length text.now ≤ longest_design }
    ensures tree { IfOk result (λ tree. Declares text.now tree.decls) }
    ensures fault { IfErr result (λ fault. Compiles text.now (Err fault)) }
{
    let tokens = lex(alloc, text)?;
    let tree = parse(alloc, text, &tokens)?;
    Ok(tree)
}

// The declarations of a text with their design.
fn read_text(alloc: Global, text: &[u8]) -> Result<Declared, CompileFault>
    requires { length text.now ≤ longest_design }
    ensures declared { IfOk result (λ d. IsTextOf d.tree d.design text.now) }
    ensures fault { IfErr result (λ fault. Compiles text.now (Err fault)) }
{
    let tree = tree_of(alloc, text)?;
    let design = elaborate(alloc, &tree)?;
    Ok(Declared { tree, design })
}

/// A design with its text's declarations, or the answer that it can't be had.
pub(crate) enum HadText {
    Declared(Declared),
    Refused(Answer),
}

/// Loads and compiles.
fn had_text<F: Shelf>(alloc: Global, name: &str, shelf: &mut F) -> Result<HadText, Memory>
    ensures same { F.files shelf.new ≡ F.files shelf.old }
    ensures later { F.faults shelf.old ≤ F.faults shelf.new }
    ensures had { IfOk result (IsHadText (F.files shelf.old) (F.faults shelf.old) (F.faults shelf.new) name.now) }
{
    let text = match load(alloc, name, LONGEST_DESIGN, shelf)? {
        Loaded::Bytes(text) => text,
        Loaded::Refused(answer) => return Ok(HadText::Refused(answer)),
    };
    match read_text(alloc, &text) {
        Ok(text) => Ok(HadText::Declared(text)),
        Err(fault) => Ok(HadText::Refused(uncompiled(alloc, fault)?)),
    }
}

/// Why a dump is refused: the word of the kind, and its number.
#[derive(Clone, Copy)]
pub struct DumpRefusal {
    pub kind: &'static str,
    pub number: u64,
}

/// The refusal that is printed for a dump; none for want of memory.
pub fn dump_refusal_of(fault: DumpFault) -> Option<DumpRefusal>
    ensures told { IfSome result
        (λ r. IsDumpFaultText fault (dump_refused_text r.kind.now r.number)) }
    ensures memory { IsNone result → fault ≡ dumping.Memory }
{
    let (kind, number) = match fault {
        DumpFault::Syntax { at } => ("Syntax", at as u64),
        DumpFault::TimeBack { at } => ("TimeBack", at as u64),
        DumpFault::UnknownCode { at } => ("UnknownCode", at as u64),
        DumpFault::BadEvent { at } => ("BadEvent", at as u64),
        DumpFault::NoSignal { n } => ("NoSignal", n),
        DumpFault::WidthDiffers { n } => ("WidthDiffers", n),
        DumpFault::TooManyEvents { n } => ("TooManyEvents", n),
        DumpFault::TooLong { n } => ("TooLong", n),
        DumpFault::Memory => return None,
    };
    Some(DumpRefusal { kind, number })
}

// The answer to a dump that is refused.
fn refused(alloc: Global, fault: DumpFault) -> Result<Answer, Memory>
    ensures { IfOk result (λ a. (a.status ≡ DumpRefused) × IsDumpFaultText fault a.text.items) }
{
    match dump_refusal_of(fault) {
        None => Err(Memory),
        Some(refusal) => {
            let text = dump_refused(alloc, refusal.kind, refusal.number)?;
            Ok(Answer {
                status: Status::DumpRefused,
                text,
            })
        }
    }
}

// The bytes of a record.
fn recorded(alloc: Global, made: &Record) -> Result<Answer, Memory>
    ensures { IfOk result (λ a. (a.status ≡ Done) × (a.text.items ≡ spelling made.now)) }
{
    let text = encode(alloc, made)?;
    Ok(Answer {
        status: Status::Done,
        text,
    })
}

// The record of a dump's bytes.
fn made_of(
    alloc: Global,
    text: &Declared,
    bytes: &[u8],
    scope: &[u8],
    id: &Name,
) -> Result<Record, DumpFault>
    requires short { length bytes.now ≤ longest_dump }
    requires design { Elaborates text.now.tree ≡ Ok (parts_of text.now.design) }
    ensures { Gives fields_of result (made_of text.now.tree text.now.design bytes.now scope.now id.now) }
{
    let dump = read_dump(alloc, bytes)?;
    record_of(alloc, &text.tree, &text.design, &dump, scope, id)
}

/// Why a dump gives no record; none where it gives one, where the text declares no design, and where memory ran out.
pub fn dump_fault(
    alloc: Global,
    text: &[u8],
    bytes: &[u8],
    scope: &[u8],
    id: &[u8],
) -> Option<DumpFault>
    requires text { length text.now ≤ longest_design }
    requires dump { length bytes.now ≤ longest_dump }
    ensures { IfSome result (IsFaultOf text.now bytes.now scope.now id.now) }
{
    let text = read_text(alloc, text).ok()?;
    let id = Name::of(alloc, id).ok()?;
    match made_of(alloc, &text, bytes, scope, &id) {
        Ok(_) => None,
        Err(fault) => Some(fault),
    }
}

// The answer to a dump's bytes.
fn record_bytes(
    alloc: Global,
    text: &Declared,
    bytes: &[u8],
    scope: &[u8],
    id: &[u8],
) -> Result<Answer, Memory>
    requires short { length bytes.now ≤ longest_dump }
    requires design { Elaborates text.now.tree ≡ Ok (parts_of text.now.design) }
    ensures { IfOk result (λ a. RecordsDump text.now.tree text.now.design bytes.now scope.now id.now a.status a.text.items) }
{
    let id = Name::of(alloc, id)?;
    match made_of(alloc, text, bytes, scope, &id) {
        Ok(made) => recorded(alloc, &made),
        Err(fault) => refused(alloc, fault),
    }
}

/// Loads, compiles, reads the dump and writes its record.
pub fn record_dump<F: Shelf>(
    alloc: Global,
    words: Recording<'_>,
    shelf: &mut F,
) -> Result<Answer, Memory>
    ensures same { F.files shelf.new ≡ F.files shelf.old }
    ensures later { F.faults shelf.old ≤ F.faults shelf.new }
    ensures answer { IfOk result (λ a. Records (F.files shelf.old) (F.faults shelf.old) (F.faults shelf.new) words.entry.design.now words.entry.dump.now words.entry.scope.now words.entry.id.now a.status a.text.items) }
{
    let text = match had_text(alloc, words.design, shelf)? {
        HadText::Declared(text) => text,
        HadText::Refused(answer) => return Ok(answer),
    };
    match load(alloc, words.dump, LONGEST_DUMP, shelf)? {
        Loaded::Bytes(bytes) => record_bytes(
            alloc,
            &text,
            &bytes,
            words.scope.as_bytes(),
            words.id.as_bytes(),
        ),
        Loaded::Refused(answer) => Ok(answer),
    }
}
