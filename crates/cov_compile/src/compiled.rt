//! A design text with its design.
ghost use Rattle.std.specs.Prelude.{◌≡◌, ◌≤◌, ℕ, List, length, Ok, Err, IfOk, IfErr};
ghost use Rattle.std.specs.Arc.{arc_value};
ghost use Rattle.cov_ground.specs.Limits.{longest_design};
ghost use Rattle.cov_compile.specs.Compiling.{Compiles};

use crate::CompileFault;
use crate::compiling::compile;
use design_data::Design;
use elab_base::ElabFault;
use std::alloc::Global;
use std::marker::Model;
use std::sync::Arc;

/// A design text of at most 1,048,576 bytes, and the design that it declares.
pub struct Compiled {
    text: Vec<u8>,
    design: Arc<Design>,
}

impl Drop for Compiled {
    fn drop(self) {
        let Compiled { text: _, design: _ } = self;
    }
}

impl Model for Compiled {
    ghost use Rattle.std.specs.Prelude.{◌≤◌, length, Ok};
    ghost use Rattle.std.specs.Arc.{arc_value};
    ghost use Rattle.std.specs.Coded.{codes};
    ghost use Rattle.cov_ground.specs.Limits.{longest_design};
    ghost use Rattle.cov_compile.specs.Compiling.{Compiles};
    ghost use Rattle.cov_compile.specs.Texts.{Declared};
    ghost use Rattle.design_data.specs.contracts.design.Design as design_type;

    ghost Value = { Declared };

    ghost coded = { Prim.hlevel (codes, design_type.the_row.coded) };

    ghost view = { λ c. record { text = c.text.items; design = arc_value c.design } };

    ghost invariant = { λ c. (length c.text.items ≤ longest_design)
        × Compiles c.text.items (Ok (arc_value c.design)) };
}

/// Want of memory while a text is kept.
const NO_MEMORY: CompileFault = CompileFault::Elab(ElabFault::Memory);

impl Compiled {
    /// A text of at most 1,048,576 bytes with its design, or why it has none, as `compile` says.
    pub fn of(alloc: Global, text: &[u8]) -> Result<Compiled, CompileFault>
        requires { length text.now ≤ longest_design }
        ensures text { IfOk result (λ c. c.text ≡ text.now) }
        ensures refused { IfErr result (λ fault. Compiles text.now (Err fault)) }
    {
        let design = compile(alloc, text)?;
        let design = Arc::new(alloc, design).map_err(|_| NO_MEMORY)?;
        let text = Vec::from_slice(alloc, text).map_err(|_| NO_MEMORY)?;
        Ok(Compiled { text, design })
    }

    /// The text.
    pub fn text(&self) -> &[u8]
        ensures text { result.now ≡ self.now.text }
        ensures short { length self.now.text ≤ longest_design }
    {
        self.text.as_slice()
    }

    /// The design that it declares.
    pub fn design(&self) -> &Arc<Design>
        ensures design { arc_value result.now ≡ self.now.design }
        ensures declared { Compiles self.now.text (Ok self.now.design) }
    {
        &self.design
    }
}
