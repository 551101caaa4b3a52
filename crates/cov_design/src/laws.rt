//! Laws of the walk.
ghost use Rattle.std.specs.Prelude.{◌≡◌, ◌++◌, ℕ, List, Ok, Err};
ghost use Rattle.std.specs.List.{AllByRecursion};
ghost use Rattle.cov_tree.specs.declared.declarations.Decl.{Decl};
ghost use Rattle.cov_tree.specs.declared.declarations.DesignText.{DesignText};
ghost use Rattle.const_eval.specs.Scopes.{Levels};
ghost use Rattle.elab_base.specs.Gives.{Refusal, each_at};
ghost use Rattle.elab_decls.specs.Laws.{AreDistinct, AreOfBase};
ghost use Rattle.elab_members.specs.Scopes.{HasDistinctItems};
ghost use Rattle.cov_design.specs.declared.known.Known.{Known};
ghost use Rattle.cov_design.specs.Walk.{declared, nothing, walked};
ghost use Rattle.cov_design.specs.Events.{event_levels};
ghost use Rattle.cov_design.specs.Elaboration.{Parts, Elaborates};

/// Where a walk over the first declarations of a text meets a fault, it is the fault of the whole text, whatever follows.
#[tactic(auto, using(crate::proofs::Lawful::first_fault))]
pub fn first_fault_stays()
    ensures { (front more : List Decl) (fault : Refusal) → each_at
        (declared (front ++ more)) 0 front nothing ≡ Err fault → walked (front ++ more)
        ≡ Err fault }
{}

/// The types, constants, variables, groups and instances of a design have distinct names.
#[tactic(auto, using(crate::proofs::Lawful::walked_names))]
pub fn names_are_distinct()
    ensures { (text : List Decl) (known : Known) → walked text ≡ Ok known →
        AreDistinct known.outside.names }
{}

/// The points and crosses of an instance, implicit points among them, have distinct names.
#[tactic(auto, using(crate::proofs::Scoped::items_distinct))]
pub fn names_of_items_are_distinct()
    ensures { (text : List Decl) (known : Known) → walked text ≡ Ok known →
        AllByRecursion HasDistinctItems known.instances }
{}

/// Each constant of an enumeration is a number of its base.
#[tactic(auto, using(crate::proofs::Lawful::walked_constants))]
pub fn constants_are_of_their_base()
    ensures { (text : List Decl) (known : Known) → walked text ≡ Ok known →
        AllByRecursion AreOfBase known.outside.enumerations }
{}

/// Where a text has a design, the scopes of its events are there.
pub fn event_scopes_stand()
    ensures { (text : DesignText) (parts : Parts) (instance : ℕ) → Elaborates text ≡ Ok parts →
        (levels : Levels) × (event_levels text.decls instance ≡ Ok levels) }
{}
