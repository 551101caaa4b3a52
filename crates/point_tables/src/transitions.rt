//! Transition bins, each with an automaton or known by a word.
ghost use Rattle.std.specs.Prelude.{◌≡◌, ◌++◌, ◌≤◌, IfOk, OnOk};
ghost use Rattle.cov_base.specs.Limits.{most_cells};
ghost use Rattle.trans_seq.specs.Cells.{cells_of_seqs};
ghost use Rattle.design_data.specs.Limits.{IsPointRule};
ghost use Rattle.point_tables.specs.Tables.{IsPoint, AreEntrances, AreRemovers, machine_of, machines_from};
ghost use Rattle.point_tables.specs.Divided.{BinDivided, BinsDivided};

use crate::entrances::entrance_of;
use crate::tables::{Entrance, Machine, Removers};
use crate::words::word_of_bin;
use cov_base::Memory;
use design_data::{BinInfo, BinRule, ItemInfo};
use std::alloc::Global;
use trans_auto::Watcher;
use trans_seq::Seq;
use word_table::PlacedWord;

/// What is prepared of transition bins: the automata of some, with their entrances, and the words of the others.
#[derive(Drop)]
pub struct Divided {
    /// In the order of their bins.
    pub machines: Vec<Machine>,
    /// One for each automaton, in the same order.
    pub entrances: Vec<Entrance>,
    /// In the order of their bins.
    pub rows: Vec<PlacedWord>,
}

/// Appends the automaton of a transition bin, and its entrance.
fn add_machine(
    alloc: Global,
    item: &ItemInfo,
    place: u32,
    bin: &BinInfo,
    machines: &mut Vec<Machine>,
    entrances: &mut Vec<Entrance>,
) -> Result<(), Memory>
    requires { IsPointRule item.now bin.now.kind bin.now.rule }
    ensures machines { OnOk result (machines.new.items ≡ machines.old.items ++ machine_of place bin.now.kind bin.now.rule) }
    ensures entrances { OnOk result (AreEntrances machines.old.items entrances.old.items
        → AreEntrances machines.new.items entrances.new.items) }
{
    if let BinRule::Trans(seqs) = &bin.rule {
        let own = seqs.as_slice();
        let watcher = watcher(alloc, own)?;
        entrances.push(entrance_of(own))?;
        machines.push(Machine {
            place,
            kind: bin.kind,
            watcher,
        })?;
    }
    Ok(())
}

/// Prepares a transition bin: by its word, if it is known by one, or by an automaton.
fn add_trans(
    alloc: Global,
    item: &ItemInfo,
    removers: &Removers,
    place: u32,
    bin: &BinInfo,
    divided: &mut Divided,
) -> Result<(), Memory>
    requires { IsPointRule item.now bin.now.kind bin.now.rule }
    ensures { OnOk result
        (BinDivided removers.now place bin.now.kind bin.now.rule divided.old divided.new) }
{
    if let BinRule::Trans(seqs) = &bin.rule {
        if let Some(word) = word_of_bin(alloc, removers, bin.kind, seqs.as_slice())? {
            divided.rows.push(PlacedWord { word, place })?;
            return Ok(());
        }
    }
    add_machine(
        alloc,
        item,
        place,
        bin,
        &mut divided.machines,
        &mut divided.entrances,
    )?;
    Ok(())
}

/// What is prepared of the transition bins.
pub fn divided_of(alloc: Global, item: &ItemInfo, removers: &Removers) -> Result<Divided, Memory>
    requires point { IsPoint item.now }
    requires removers { AreRemovers item.now removers.now }
    ensures { IfOk result (BinsDivided removers.now (machines_from 0 item.now.bins)) }
{
    let mut divided = Divided {
        machines: Vec::new(alloc),
        entrances: Vec::new(alloc),
        rows: Vec::new(alloc),
    };
    for (place, bin) in item.bins.as_slice().iter().enumerate() {
        add_trans(alloc, item, removers, place as u32, bin, &mut divided)?;
    }
    Ok(divided)
}

/// An automaton of sequences.
pub fn watcher(alloc: Global, seqs: &[Seq]) -> Result<Watcher, Memory>
    requires { cells_of_seqs seqs.now ≤ most_cells }
    ensures { IfOk result (λ watcher. watcher ≡ seqs.now) }
{
    Watcher::new(alloc, seqs).map_err(|_| Memory)
}
