//! What holds of each export. The function does nothing: it stands for the law that it ensures.
ghost use Rattle.std.specs.Prelude.{ℕ, List};
ghost use Rattle.design_data.specs.declared.design.Design.{Design};
ghost use Rattle.cov_history.specs.declared.entry.Entry.{Entry};
ghost use Rattle.export_json.specs.Laws.{IsReadBack};

/// Each export is a text of JSON, and says what it was made of.
#[tactic(auto, using(crate::proofs::ReadBack::read_back))]
pub fn read_back()
    ensures { (opening : Design) (h : List Entry) (digest : List ℕ) → IsReadBack opening h digest }
{}
