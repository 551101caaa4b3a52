//! Faults of design texts as lines and replies tell them.
ghost use Rattle.std.specs.Prelude.{◌≡◌, ◌≤◌, length, MatchOption};
ghost use Rattle.cov_compile.specs.Compiling.{is_memory};
ghost use Rattle.cov_compile.specs.declared.fault.CompileFault.TheVariants.{Lex, Parse, Elab};
ghost use Rattle.cov_compile.specs.Faults.{elab_word};
ghost use Rattle.cov_compile.specs.Refusals.{IsRefusal};

use crate::fault::CompileFault;
use cov_lexer::LexFault;
use cov_parser::ParseFault;
use elab_base::{ElabFault, ElabKind};

/// Why a design text is refused: the word of the kind of its fault, of 32 bytes at most, and the byte at which it stands.
#[derive(Clone, Copy, Debug)]
pub struct Refusal {
    pub kind: &'static str,
    pub at: u32,
}

// Why a text has no tokens.
fn unlexed(fault: LexFault) -> Option<Refusal>
    ensures { MatchOption result (is_memory (Lex fault)) (λ r. IsRefusal (Lex fault) r) }
{
    let (kind, at) = match fault {
        LexFault::BadByte { at } => ("BadByte", at),
        LexFault::OpenComment { at } => ("OpenComment", at),
        LexFault::OpenString { at } => ("OpenString", at),
        LexFault::LiteralTooWide { at } => ("LiteralTooWide", at),
        LexFault::NameTooLong { at } => ("NameTooLong", at),
        LexFault::Memory => return None,
    };
    Some(Refusal { kind, at })
}

// Why tokens have no syntax tree.
fn unparsed(fault: ParseFault) -> Option<Refusal>
    ensures { MatchOption result (is_memory (Parse fault)) (λ r. IsRefusal (Parse fault) r) }
{
    let (kind, at) = match fault {
        ParseFault::Syntax { at } => ("Syntax", at),
        ParseFault::NotSupported { at } => ("NotSupported", at),
        ParseFault::TooDeep { at } => ("TooDeep", at),
        ParseFault::Memory => return None,
    };
    Some(Refusal { kind, at })
}

// The word of a kind of faults.
fn kind_name(kind: ElabKind) -> &'static str
    ensures word { result.now ≡ elab_word kind }
    ensures short { length result.now ≤ 32 }
{
    match kind {
        ElabKind::DuplicateName => "DuplicateName",
        ElabKind::UnknownType => "UnknownType",
        ElabKind::UnknownName => "UnknownName",
        ElabKind::TooWide => "TooWide",
        ElabKind::BadSelect => "BadSelect",
        ElabKind::BadConcat => "BadConcat",
        ElabKind::UnknownLiteral => "UnknownLiteral",
        ElabKind::BadWildcard => "BadWildcard",
        ElabKind::NotConstant => "NotConstant",
        ElabKind::BadEnum => "BadEnum",
        ElabKind::ArgCount => "ArgCount",
        ElabKind::TooManyArgs => "TooManyArgs",
        ElabKind::RefNotVariable => "RefNotVariable",
        ElabKind::NotThisPoint => "NotThisPoint",
        ElabKind::IgnoreDefault => "IgnoreDefault",
        ElabKind::ZeroBins => "ZeroBins",
        ElabKind::BadRepeat => "BadRepeat",
        ElabKind::Unbounded => "Unbounded",
        ElabKind::TooManyValues => "TooManyValues",
        ElabKind::TooManyRanges => "TooManyRanges",
        ElabKind::TooLong => "TooLong",
        ElabKind::TooManyBins => "TooManyBins",
        ElabKind::UnknownPoint => "UnknownPoint",
        ElabKind::NotCrossed => "NotCrossed",
        ElabKind::UnknownBin => "UnknownBin",
        ElabKind::TooManyPoints => "TooManyPoints",
        ElabKind::TooManyProducts => "TooManyProducts",
        ElabKind::UnknownOption => "UnknownOption",
        ElabKind::WrongLevel => "WrongLevel",
        ElabKind::OutOfRange => "OutOfRange",
        ElabKind::SetTwice => "SetTwice",
        ElabKind::DesignLimit => "DesignLimit",
    }
}

// Why declarations make no design.
fn unelaborated(fault: ElabFault) -> Option<Refusal>
    ensures { MatchOption result (is_memory (Elab fault)) (λ r. IsRefusal (Elab fault) r) }
{
    match fault {
        ElabFault::Fault { kind, at } => Some(Refusal {
            kind: kind_name(kind),
            at,
        }),
        ElabFault::Memory => None,
    }
}

/// What the fault of a design text is told by; none for want of memory.
pub fn refusal_of(fault: CompileFault) -> Option<Refusal>
    ensures { MatchOption result (is_memory fault) (λ r. IsRefusal fault r) }
{
    match fault {
        CompileFault::Lex(fault) => unlexed(fault),
        CompileFault::Parse(fault) => unparsed(fault),
        CompileFault::Elab(fault) => unelaborated(fault),
    }
}
