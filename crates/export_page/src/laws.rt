//! What holds of each page. The function does nothing: it stands for the law that it ensures.
ghost use Rattle.std.specs.Prelude.{ℕ, List};
ghost use Rattle.design_data.specs.declared.design.Design.{Design};
ghost use Rattle.cov_history.specs.declared.entry.Entry.{Entry};
ghost use Rattle.export_page.specs.Laws.{IsMarkedAlike};

/// Nothing that a history says makes a mark on its page.
#[tactic(auto, using(crate::proofs::Marked::marked_alike))]
pub fn marked_alike()
    ensures { (opening : Design) (h : List Entry) (digest : List ℕ) → IsMarkedAlike opening h digest }
{}
