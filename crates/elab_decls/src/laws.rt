//! Laws of declarations.
ghost use Rattle.std.specs.Prelude.{◌≡◌, ℕ, List, Ok};
ghost use Rattle.cov_tree.specs.declared.expr.Expr.{Expr};
ghost use Rattle.cov_tree.specs.declared.groups.Formal.{Formal};
ghost use Rattle.elab_decls.specs.declared.outside.Outside.{Outside};
ghost use Rattle.elab_decls.specs.declared.formals.Formals.{Formals};
ghost use Rattle.elab_decls.specs.Formals.{formals_of};
ghost use Rattle.elab_decls.specs.Laws.{AreDistinct};

/// The formals and the sample arguments of an instance have distinct names.
#[tactic(auto, using(crate::proofs::Lawful::formals_distinct))]
pub fn formals_are_distinct()
    ensures { (outside : Outside) (formals samples : List Formal) (args : List Expr) (at : ℕ)
        (all : Formals) → formals_of outside formals samples args at ≡ Ok all
        → AreDistinct all.names }
{}
