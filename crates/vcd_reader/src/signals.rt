//! The variables of a dump that the signals of a design stand for.
ghost use Rattle.std.specs.Prelude.{◌≡◌, ◌++◌, [], ℕ, List, length, IfOk, OnOk, Option};
ghost use Rattle.name_map.specs.Names.{meaning_of};
ghost use Rattle.vcd_reader.specs.Refusals.{Gives, Makes, each};
ghost use Rattle.vcd_reader.specs.Signals.{var_pair, vars_in, code_for, add_code, codes_of};

use cov_ground::Memory;
use cov_tree::{List, Name};
use design_data::Signal;
use name_map::NameMap;
use std::alloc::Global;
use vcd_dump::{Code, DumpFault, DumpVar};

/// A variable with its code, where it stands in the scope and is no bit and no word of what has its name.
fn add_pair(
    alloc: Global,
    scope: &[u8],
    var: &DumpVar,
    pairs: &mut Vec<(Name, Code)>,
) -> Result<(), Memory>
    ensures { OnOk result (pairs.new.items ≡ pairs.old.items ++ var_pair scope.now var.now) }
{
    if var.selected {
        return Ok(());
    }
    if var.scope.as_slice() != scope {
        return Ok(());
    }
    let code = Code {
        number: var.code,
        width: var.width,
    };
    pairs.push((var.name.share()?, code))?;
    Ok(())
}

/// The variables of a scope with their codes.
#[tactic(auto, unfolding(crate::specs::Signals::vars_in))]
fn pairs_in(alloc: Global, scope: &[u8], vars: &[DumpVar]) -> Result<Vec<(Name, Code)>, Memory>
    ensures { IfOk result (λ pairs. pairs.items ≡ vars_in scope.now vars.now) }
{
    let mut pairs = Vec::new(alloc);
    let mut rest = vars;
    while let Some((var, later)) = rest.split_first() {
        add_pair(alloc, scope, var, &mut pairs)?;
        rest = later;
    }
    Ok(pairs)
}

/// The variables of a scope by name, of which the first of a name counts.
fn vars_in(alloc: Global, scope: &[u8], vars: &[DumpVar]) -> Result<NameMap<Code>, Memory>
    ensures { IfOk result (λ names. (name : List ℕ) → meaning_of names name ≡ meaning_of (vars_in scope.now vars.now) name) }
{
    let pairs = pairs_in(alloc, scope, vars)?;
    NameMap::of(alloc, pairs)
}

/// The code of signal number `n`, where its variable has its width.
fn code_for(code: Option<Code>, n: usize, width: u8) -> Result<u32, DumpFault>
    ensures { Gives (λ x. x) result (code_for code n width) }
{
    let Some(code) = code else {
        return Err(DumpFault::NoSignal { n: n as u64 });
    };
    if code.width != width as u32 {
        return Err(DumpFault::WidthDiffers { n: n as u64 });
    }
    Ok(code.number)
}

/// The code of one signal more.
#[tactic(auto, unfolding(crate::specs::Signals::add_code))]
fn add_code(vars: &NameMap<Code>, signal: &Signal, found: &mut List<u32>) -> Result<(), DumpFault>
    ensures { Makes result found.new (add_code (meaning_of vars.now) signal.now found.old) }
{
    let code = vars.get(signal.name.as_slice()).copied();
    let code = code_for(code, found.as_slice().len(), signal.width)?;
    found.push(code)?;
    Ok(())
}

/// The codes of further signals.
fn add_codes(
    vars: &NameMap<Code>,
    signals: &[Signal],
    found: &mut List<u32>,
) -> Result<(), DumpFault>
    ensures { Makes result found.new (each (add_code (meaning_of vars.now)) signals.now found.old) }
{
    let mut rest = signals;
    while let Some((signal, later)) = rest.split_first() {
        add_code(vars, signal, found)?;
        rest = later;
    }
    Ok(())
}

/// The code of each signal in order.
#[tactic(auto, using(crate::proofs::Each::found_alike), unfolding(crate::specs::Signals::codes_of))]
pub(crate) fn codes_of(
    alloc: Global,
    scope: &[u8],
    vars: &[DumpVar],
    signals: &[Signal],
) -> Result<List<u32>, DumpFault>
    ensures { Gives (λ x. x) result
        (codes_of (meaning_of (vars_in scope.now vars.now)) signals.now) }
{
    let vars = vars_in(alloc, scope, vars)?;
    let mut found = List::new(alloc);
    add_codes(&vars, signals, &mut found)?;
    Ok(found)
}
