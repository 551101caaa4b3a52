//! A design from its text.
ghost use Rattle.std.specs.Prelude.{◌≤◌, length};
ghost use Rattle.cov_ground.specs.Limits.{longest_design};
ghost use Rattle.cov_compile.specs.Compiling.{Compiles};

use crate::CompileFault;
use cov_design::elaborate;
use cov_lexer::lex;
use cov_parser::parse;
use design_data::Design;
use std::alloc::Global;

/// The design that a text of at most 1,048,576 bytes declares. Refused is the first fault of its tokens; where they
/// have none, that of its grammar; where it has none, the first on the walk through its declarations.
pub fn compile(alloc: Global, text: &[u8]) -> Result<Design, CompileFault>
    requires { length text.now ≤ longest_design }
    ensures { Compiles text.now result }
{
    let tokens = lex(alloc, text)?;
    let tree = parse(alloc, text, &tokens)?;
    let design = elaborate(alloc, &tree)?;
    Ok(design)
}
