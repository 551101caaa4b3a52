//! Automatic bins of a point.
ghost use Rattle.std.specs.Prelude.{◌≡◌, ◌++◌, ◌∷◌, [], ◌+◌, ◌≤◌, codes, length, map, nat_le, IfOk, OnOk};
ghost use Rattle.std.specs.Ordering.{int_eq};
ghost use Rattle.std.specs.Fmt.{signed_decimal};
ghost use Rattle.cov_ground.specs.Limits.{most_bins};
ghost use Rattle.cov_base.specs.Sets.{set_of, written};
ghost use Rattle.elab_base.specs.Gives.{Gives, Makes};
ghost use Rattle.elab_bins.specs.Made.{value_bin, indexed};
ghost use Rattle.elab_bins.specs.Automatic.{CanHaveBins, auto_head, range_text as text_meant, auto_bin as bin_meant, constant_bin as constant_meant, automatic, is_coverage as is_coverage_word, declares_coverage, automatic_added, automatic_binned, with_automatic};

use crate::plans::{check_room, indexed_name};
use crate::walked::{Walked, keep_bins};
use auto_bins::{Typ2, auto_ranges};
use bit_width::Width;
use cov_base::{Int, Memory, ValueSet};
use cov_tree::{BinsDecl, List, Word};
use design_data::{BinInfo, BinKind, BinRule};
use elab_base::ElabFault;
use elab_values::{Constant, Domain, Made, Settings};
use std::alloc::Global;

/// Whether a range has one number.
fn is_one(low: Int, high: Int) -> bool
    ensures { result ≡ int_eq low high }
{
    low.get() == high.get()
}

fn number_text(alloc: Global, number: Int) -> Result<Vec<u8>, Memory>
    ensures { IfOk result (λ text. text.items ≡ signed_decimal number) }
{
    let text = number.get().to_string(alloc)?;
    Ok(Vec::from_slice(alloc, text.as_bytes())?)
}

/// `low:high`
fn ends_text(alloc: Global, low: Int, high: Int) -> Result<Vec<u8>, Memory>
    ensures { IfOk result (λ text. text.items ≡ signed_decimal low ++ (58 ∷ signed_decimal high)) }
{
    let mut text = number_text(alloc, low)?;
    let last = number_text(alloc, high)?;
    text.push(b':')?;
    text.extend_from_slice(last.as_slice())?;
    Ok(text)
}

/// `v` where it is one number, and else `low:high`
fn range_text(alloc: Global, low: Int, high: Int) -> Result<Vec<u8>, Memory>
    ensures { IfOk result (λ text. text.items ≡ text_meant (low, high)) }
{
    if is_one(low, high) {
        return number_text(alloc, low);
    }
    ends_text(alloc, low, high)
}

/// The bin `auto[index]` of these numbers, of a point that stands there.
fn auto_made(alloc: Global, at: u32, index: &[u8], low: Int, high: Int) -> Result<Made, Memory>
    ensures { IfOk result (λ made. made ≡ value_bin (auto_head at) (indexed (codes "auto") index.now) (set_of (written ((low, high) ∷ [])))) }
{
    let name = indexed_name(alloc, b"auto".as_slice(), index)?;
    let set = ValueSet::from_ranges(alloc, &[(low, high)])?;
    Ok(Made {
        bin: BinInfo {
            name,
            kind: BinKind::CvgBin,
            rule: BinRule::Values(set),
            guard: None,
        },
        at,
        declared: None,
    })
}

fn auto_bin(alloc: Global, at: u32, low: Int, high: Int) -> Result<Made, Memory>
    ensures { IfOk result (λ made. made ≡ bin_meant (auto_head at) (low, high)) }
{
    let text = range_text(alloc, low, high)?;
    auto_made(alloc, at, text.as_slice(), low, high)
}

fn range_bins(alloc: Global, at: u32, ranges: &[(Int, Int)]) -> Result<Vec<Made>, Memory>
    ensures { IfOk result (λ bins. bins.items ≡ map (bin_meant (auto_head at)) ranges.now) }
{
    let mut bins = Vec::new(alloc);
    for range in ranges {
        bins.push(auto_bin(alloc, at, range.0, range.1)?)?;
    }
    Ok(bins)
}

fn constant_bin(alloc: Global, at: u32, constant: &Constant) -> Result<Made, Memory>
    ensures { IfOk result (λ made. made ≡ constant_meant (auto_head at) constant.now) }
{
    let index = constant.name.as_slice();
    auto_made(alloc, at, index, constant.value, constant.value)
}

fn constant_bins(alloc: Global, at: u32, constants: &[Constant]) -> Result<Vec<Made>, Memory>
    ensures { IfOk result (λ bins. bins.items ≡ map (constant_meant (auto_head at)) constants.now) }
{
    let mut bins = Vec::new(alloc);
    for constant in constants {
        bins.push(constant_bin(alloc, at, constant)?)?;
    }
    Ok(bins)
}

/// The automatic bins.
fn automatic_bins(
    alloc: Global,
    domain: &Domain,
    settings: Settings,
    at: u32,
) -> Result<Vec<Made>, Memory>
    requires { CanHaveBins settings }
    ensures { IfOk result (λ bins. bins.items ≡ automatic domain.now settings at) }
{
    match &domain.constants {
        Some(constants) => constant_bins(alloc, at, constants.as_slice()),
        None => {
            let typ = Typ2 {
                width: domain.typ.width(),
                signed: domain.typ.is_signed(),
            };
            let ranges = auto_ranges(alloc, typ, settings.auto_bin_max)?;
            range_bins(alloc, at, ranges.as_slice())
        }
    }
}

#[tactic(auto, unfolding(crate::specs::Automatic::automatic_added))]
fn add_automatic(
    alloc: Global,
    domain: &Domain,
    bins: Vec<Made>,
    walked: &mut Walked,
) -> Result<(), Memory>
    requires { walked.old.count + length bins.items ≤ most_bins }
    ensures { OnOk result (walked.new ≡ automatic_added domain.now bins.items walked.old) }
{
    walked.count += bins.len();
    keep_bins(bins, &mut walked.entries)?;
    let all = Vec::from_slice(alloc, domain.numbers.intervals())?;
    walked.listed.append(List::of(all))?;
    Ok(())
}

#[tactic(auto, unfolding(crate::specs::Automatic::automatic_binned))]
fn bin_automatic(
    alloc: Global,
    domain: &Domain,
    settings: Settings,
    at: u32,
    walked: &mut Walked,
) -> Result<(), ElabFault>
    requires { CanHaveBins settings }
    ensures { Makes result walked.new (automatic_binned domain.now settings at walked.old) }
{
    let bins = automatic_bins(alloc, domain, settings, at)?;
    check_room(walked.count, bins.len() as u64, at)?;
    add_automatic(alloc, domain, bins, walked)?;
    Ok(())
}

/// Whether the word is `bins`.
pub fn is_coverage(word: &Word) -> bool
    ensures { result ≡ is_coverage_word word.now }
{
    match word {
        Word::Bins => true,
        Word::Illegal => false,
        Word::Ignore => false,
    }
}

fn has_coverage(decls: &[BinsDecl]) -> bool
    ensures { result ≡ declares_coverage decls.now }
{
    decls.iter().any(|decl| is_coverage(&decl.word))
}

/// Adds the automatic bins of a point that declares no coverage bins (IEEE 1800-2017, 19.5.3).
#[tactic(auto, unfolding(crate::specs::Automatic::with_automatic))]
pub fn add_undeclared(
    alloc: Global,
    domain: &Domain,
    settings: Settings,
    decls: &[BinsDecl],
    at: u32,
    walked: &mut Walked,
) -> Result<(), ElabFault>
    requires { CanHaveBins settings }
    ensures { Makes result walked.new (with_automatic domain.now settings decls.now at walked.old) }
{
    if has_coverage(decls) {
        return Ok(());
    }
    bin_automatic(alloc, domain, settings, at, walked)
}
