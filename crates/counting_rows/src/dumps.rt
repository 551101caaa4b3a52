//! Rows of dumps: a row is written again behind its answer and ` = `. A fault is its kind and place. A dump is its
//! variables, each as SCOPE NAME WIDTH CODE, with ! where it is a bit or a word, and its steps, each as #TIME with its
//! changes, CODE VALUE LOW.
use std::alloc::Global;
use std::io::Print;
use vcd_reader::{Bit4, Change, Dump, DumpFault, DumpStep, DumpVar, read_dump};

/// The longest row that is read.
const LONGEST: usize = 1_000_000;

/// Writes a name behind a blank.
fn show_name<R: Print>(rt: &R, bytes: &[u8]) {
    let _ = print!(rt; " {}", str::from_utf8(bytes).unwrap_or("?"));
}

fn show_code<R: Print>(rt: &R, width: u32, code: u32, mark: &str) {
    let _ = print!(rt; " {width} {code}{mark},");
}

fn show_var<R: Print>(rt: &R, var: &DumpVar) {
    show_name(rt, var.scope.as_slice());
    show_name(rt, var.name.as_slice());
    let mark = if var.selected { "!" } else { "" };
    show_code(rt, var.width, var.code, mark);
}

fn letter(bit: Bit4) -> &'static str {
    match bit {
        Bit4::Zero => "0",
        Bit4::One => "1",
        Bit4::X => "x",
        Bit4::Z => "z",
    }
}

fn show_change<R: Print>(rt: &R, change: Change) {
    let low = letter(change.low);
    let _ = match change.value {
        Some(value) => print!(rt; " {} {value} {low},", change.code),
        None => print!(rt; " {} - {low},", change.code),
    };
}

fn show_time<R: Print>(rt: &R, time: u64) {
    let _ = print!(rt; " #{time}");
}

fn show_step<R: Print>(rt: &R, step: &DumpStep) {
    show_time(rt, step.time);
    for change in step.changes.as_slice() {
        show_change(rt, *change);
    }
}

fn show_vars<R: Print>(rt: &R, vars: &[DumpVar]) {
    for var in vars {
        show_var(rt, var);
    }
}

fn show_dump<R: Print>(rt: &R, alloc: Global, dump: &Dump) {
    show_vars(rt, dump.vars.as_slice());
    if let Ok(steps) = dump.steps.to_list(alloc) {
        for step in steps.as_slice() {
            show_step(rt, step);
        }
    }
}

/// The kind of a fault, and its place.
fn told(fault: DumpFault) -> (&'static str, u32) {
    match fault {
        DumpFault::Syntax { at } => ("Syntax", at),
        DumpFault::TimeBack { at } => ("TimeBack", at),
        DumpFault::UnknownCode { at } => ("UnknownCode", at),
        _ => ("other fault", 0),
    }
}

fn show_fault<R: Print>(rt: &R, fault: DumpFault) {
    let (kind, at) = told(fault);
    let _ = print!(rt; " {kind} {at}");
}

/// Writes the answer to a row that isn't too long.
fn answer<R: Print>(rt: &R, alloc: Global, line: &[u8]) {
    if line.len() > LONGEST {
        return;
    }
    match read_dump(alloc, line) {
        Ok(dump) => show_dump(rt, alloc, &dump),
        Err(fault) => show_fault(rt, fault),
    }
}

/// Writes a row behind its answer.
pub(crate) fn row<R: Print>(rt: &R, alloc: Global, line: &str) {
    answer(rt, alloc, line.as_bytes());
    let _ = println!(rt; " = {line}");
}
