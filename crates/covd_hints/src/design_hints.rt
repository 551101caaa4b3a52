//! Hints on design texts that are refused.
ghost use Rattle.std.specs.Prelude.{◌≤◌, length};
ghost use Rattle.cov_ground.specs.Limits.{longest_design};

use crate::file_hints::{read_again, stream_hint};
use crate::kind_hints::{Wanted, kind_hint};
use crate::source_words::{first_word, foreign_word, high_low_end};
use cov_ground::limits::LONGEST_DESIGN;
use cov_lexer::LexFault;
use cov_parser::ParseFault;
use covd_core::{CompileFault, Refusal, compile, refusal_of};
use elab_base::{ElabFault, ElabKind};
use std::alloc::Global;
use std::rt::Files;
use text_place::{Fault, kind_of, line_at, place_hint};

/// What a fault of the tokens is.
fn lexing(fault: LexFault) -> &'static str {
    match fault {
        LexFault::BadByte { .. } => "no token begins with this byte",
        LexFault::OpenComment { .. } => "this comment has no end",
        LexFault::OpenString { .. } => "this string has no end in its line",
        LexFault::LiteralTooWide { .. } => "the size is not 1 to 64, or the digits don't fit it",
        LexFault::NameTooLong { .. } => "a name has at most 1024 bytes",
        LexFault::Memory => "out of memory",
    }
}

/// What a fault of the grammar is.
fn parsing(fault: ParseFault) -> &'static str {
    match fault {
        ParseFault::Syntax { .. } => "no design text goes on like this here",
        ParseFault::NotSupported { .. } => "SystemVerilog has this, a design text hasn't",
        ParseFault::TooDeep { .. } => "more than 64 levels, or more than 1024 operators",
        ParseFault::Memory => "out of memory",
    }
}

/// What a kind of faults of the declarations is.
fn declaring(kind: ElabKind) -> &'static str {
    match kind {
        ElabKind::DuplicateName => "this name is declared before",
        ElabKind::UnknownType => "no type or covergroup of this name is declared before",
        ElabKind::UnknownName => "no value of this name can be seen here",
        ElabKind::TooWide => "a width is 1 to 64, and a span goes down to a number from 0 to 255",
        ElabKind::BadSelect => "this can't be selected from, or not these bits",
        ElabKind::BadConcat => "a number in a concatenation needs a size",
        ElabKind::UnknownLiteral => "a number with x, z or ? can't stand here",
        ElabKind::BadWildcard => "a number with x, z or ? is an element by itself",
        ElabKind::NotConstant => "a constant with a known value is needed here",
        ElabKind::BadEnum => "two constants are equal, or one doesn't fit the base",
        ElabKind::ArgCount => "there are more arguments than formals, or one is missing",
        ElabKind::TooManyArgs => "a sample function has at most 16 arguments",
        ElabKind::RefNotVariable => "a ref formal wants a variable of its own type",
        ElabKind::NotThisPoint => "the name before `with` is the coverpoint's own",
        ElabKind::IgnoreDefault => "default values can't be ignored",
        ElabKind::ZeroBins => "an array has at least one bin",
        ElabKind::BadRepeat => "a repetition is at least 1, and its ends ascend",
        ElabKind::Unbounded => "[] needs lists of bounded length, without -> and =",
        ElabKind::TooManyValues => "with filters at most 1048576 numbers",
        ElabKind::TooManyRanges => "a set has at most 65536 intervals",
        ElabKind::TooLong => "these sequences have more than 120 cells",
        ElabKind::TooManyBins =>
            "a coverpoint or cross has at most 65536 bins, before any are ignored",
        ElabKind::UnknownPoint => "a cross is of earlier coverpoints and of variables, each once",
        ElabKind::NotCrossed => "the cross is not of this coverpoint",
        ElabKind::UnknownBin => "the coverpoint declares no bin of this name",
        ElabKind::TooManyPoints => "a cross is of at most 16 coverpoints",
        ElabKind::TooManyProducts => "a cross has at most 1048576 products",
        ElabKind::UnknownOption => "there is no such option",
        ElabKind::WrongLevel => "this option can't be set here",
        ElabKind::OutOfRange => "the option doesn't take this value",
        ElabKind::SetTwice => "the option is set before",
        ElabKind::DesignLimit => "the design is too large (see docs/FORMATS.md)",
    }
}

fn meaning(fault: &CompileFault) -> &'static str {
    match fault {
        CompileFault::Lex(fault) => lexing(*fault),
        CompileFault::Parse(fault) => parsing(*fault),
        CompileFault::Elab(ElabFault::Fault { kind, .. }) => declaring(*kind),
        CompileFault::Elab(ElabFault::Memory) => "out of memory",
    }
}

/// The bytes from a place on; none behind the text.
fn from_place(text: &[u8], at: u32) -> &[u8] {
    &text[(at as usize).min(text.len())..]
}

/// The line of a place from its beginning on.
fn line_of(text: &[u8], at: u32) -> &[u8]
    requires { length text.now ≤ longest_design }
{
    let at = (at as usize).min(text.len());
    &text[line_at(text, at).start..]
}

/// That a word is SystemVerilog's, where there is one.
fn named(alloc: Global, word: Option<&str>) -> Option<String> {
    let word = word?;
    format!(in alloc; "SystemVerilog has `{word}`, a design text hasn't").ok()
}

/// That the span of a declaration goes down to a number above 255, where it is that.
fn low_end(alloc: Global, declaration: &[u8]) -> Option<String> {
    let low = high_low_end(declaration)?;
    format!(in alloc; "a span goes down to a number from 0 to 255, and this one to {low}").ok()
}

/// That a directive is none of a design text's.
fn directive(alloc: Global, text: &[u8]) -> Option<String> {
    if !text.starts_with(b"`") {
        return None;
    }
    format!(in alloc;
        "a design text has no directives: put what they stand for in their place"
    ).ok()
}

/// What a fault is, where the text at its place says more than its kind.
fn closer(alloc: Global, text: &[u8], fault: &CompileFault, at: u32) -> Option<String>
    requires { length text.now ≤ longest_design }
{
    match fault {
        CompileFault::Lex(LexFault::BadByte { .. }) => directive(alloc, from_place(text, at)),
        CompileFault::Parse(ParseFault::NotSupported { .. }) => {
            named(alloc, first_word(from_place(text, at)))
        }
        CompileFault::Parse(ParseFault::Syntax { .. }) => {
            named(alloc, foreign_word(line_of(text, at)))
        }
        CompileFault::Elab(
            ElabFault::Fault {
                kind: ElabKind::UnknownType,
                ..
            },
        ) => named(alloc, foreign_word(from_place(text, at))),
        CompileFault::Elab(
            ElabFault::Fault {
                kind: ElabKind::TooWide,
                ..
            },
        ) => low_end(alloc, from_place(text, at)),
        _ => None,
    }
}

/// The hint on a fault, with its line and what it is.
fn placed(alloc: Global, name: &str, text: &[u8], refusal: Refusal, meaning: &str) -> Option<String>
    requires { length text.now ≤ longest_design }
{
    let told = Fault {
        kind: refusal.kind,
        at: refusal.at,
        meaning,
    };
    place_hint(alloc, name, text, told).ok()
}

/// The hint on a fault of a design text.
fn compile_hint(alloc: Global, name: &str, text: &[u8], fault: CompileFault) -> Option<String>
    requires { length text.now ≤ longest_design }
{
    let refusal = refusal_of(fault)?;
    match closer(alloc, text, &fault, refusal.at) {
        Some(closer) => placed(alloc, name, text, refusal, closer.as_str()),
        None => placed(alloc, name, text, refusal, meaning(&fault)),
    }
}

/// The hint on a text that is no design.
fn text_hint(alloc: Global, name: &str, text: &[u8]) -> Option<String>
    requires { length text.now ≤ longest_design }
{
    let hint = kind_hint(alloc, name, kind_of(text), Wanted::Design);
    if hint.is_some() {
        return hint;
    }
    match compile(alloc, text) {
        Ok(_) => None,
        Err(fault) => compile_hint(alloc, name, text, fault),
    }
}

/// The hint on the design text of a file, which is refused.
pub(crate) fn on_design<R: Files + AllocGlobal>(rt: &R, name: &str) -> Option<String> {
    match read_again(rt, name, LONGEST_DESIGN) {
        Some(text) => text_hint(rt.alloc(), name, &text),
        None => stream_hint(rt.alloc(), name),
    }
}
