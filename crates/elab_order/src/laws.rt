//! Laws of the numbers of bins.
ghost use Rattle.std.specs.Prelude.{◌≡◌, List};
ghost use Rattle.design_data.specs.declared.infos.GroupInfo.{GroupInfo};
ghost use Rattle.design_data.specs.declared.infos.InstInfo.{InstInfo};
ghost use Rattle.design_data.specs.Bins.{numbered_items, IsNumberedFrom};
ghost use Rattle.elab_order.specs.Order.{numbered};

/// Numbered bins stand in the order of the nodes without a gap, from 0 on.
#[tactic(auto, using(crate::proofs::Numbering::numbered_is_numbered))]
pub fn numbers_follow()
    ensures { (groups : List GroupInfo) (instances : List InstInfo) → IsNumberedFrom 0
        (numbered_items groups (numbered instances)) }
{}
