//! Why a text has no design.
ghost use Rattle.std.specs.Prelude.{◌≡◌};
ghost use Rattle.cov_compile.specs.declared.fault.CompileFault.TheVariants.{Lex, Parse, Elab};

use cov_lexer::LexFault;
use cov_parser::ParseFault;
use elab_base::ElabFault;
use thiserror::Error;

/// Why a text is not compiled; want of memory stands in whichever step met it.
#[derive(Clone, Copy, Debug, PartialEq, Eq, Error)]
pub enum CompileFault {
    /// The text has no tokens.
    #[error("{0}")]
    Lex(LexFault),
    /// The tokens have no syntax tree.
    #[error("{0}")]
    Parse(ParseFault),
    /// The declarations make no design.
    #[error("{0}")]
    Elab(ElabFault),
}

impl From<LexFault> for CompileFault {
    ghost from_gives = { λ fault e. e ≡ Lex fault };

    fn from(fault: LexFault) -> Self {
        CompileFault::Lex(fault)
    }
}

impl From<ParseFault> for CompileFault {
    ghost from_gives = { λ fault e. e ≡ Parse fault };

    fn from(fault: ParseFault) -> Self {
        CompileFault::Parse(fault)
    }
}

impl From<ElabFault> for CompileFault {
    ghost from_gives = { λ fault e. e ≡ Elab fault };

    fn from(fault: ElabFault) -> Self {
        CompileFault::Elab(fault)
    }
}
