//! The declarations of bins of a point, in order.
ghost use Rattle.std.specs.Prelude.{◌≡◌, ◌+◌, ◌≤◌, true, OnOk, IfOk};
ghost use Rattle.cov_ground.specs.Limits.{most_bins};
ghost use Rattle.cov_base.specs.Sets.{written};
ghost use Rattle.elab_base.specs.Gives.{Gives, Makes};
ghost use Rattle.design_data.specs.declared.infos.BinRule.TheVariants.{Default};
ghost use Rattle.elab_bins.specs.Made.{IsWanted};
ghost use Rattle.elab_bins.specs.Wildcards.{patterns_in as patterns_meant, pattern_rule as rule_meant};
ghost use Rattle.elab_bins.specs.Declarations.{default_kind as default_meant, is_ignore, is_illegal, names_point, is_default, may_default, entered, whole_elements, elements_in, with_set, head_of, bins_added, values_binned, listed_binned, elements_binned, values_declared, one_added, rest_added, rule_added, default_sized, default_declared, declared_by, bins_declared, bins_walked};

use crate::made::{bins_of, make_plan, size_of};
use const_eval::{Bound, Scope};
use cov_base::{Int, Memory, ValueSet};
use cov_tree::{BinsDecl, List, Name, Right, Shared, Size, Word};
use design_data::{BinKind, BinRule};
use elab_base::{ElabFault, ElabKind, check_unused, shared_guard_in};
use elab_bins::{
    Entry, Head, Manner, Walked, Wanted, add_made, bin_of, check_room, declare_default_sequence,
    declare_trans, filter_of, is_kept, keep_bins, keep_name, keep_numbers, numbers_in,
    pattern_rule, place_of,
};
use elab_values::{Domain, Listed, Made, elements_of, kind_of};
use name_map::NameMap;
use std::alloc::Global;
use value_bins::Elems;

fn default_kind(word: &Word) -> BinKind
    ensures { result ≡ default_meant word.now }
{
    match word {
        Word::Bins => BinKind::DefaultBin,
        Word::Illegal => BinKind::IllegalBin,
        Word::Ignore => BinKind::DefaultBin,
    }
}

fn is_of_ignore(kind: BinKind) -> bool
    ensures { result ≡ is_ignore kind }
{
    match kind {
        BinKind::IgnoreBin => true,
        _ => false,
    }
}

fn is_of_illegal(kind: BinKind) -> bool
    ensures { result ≡ is_illegal kind }
{
    match kind {
        BinKind::IllegalBin => true,
        _ => false,
    }
}

/// Whether `name with` names its point.
fn is_of_point(name: &Name, right: &Right) -> bool
    ensures { result ≡ names_point name.now right.now }
{
    match right {
        Right::Whole { name: other, .. } => other == name,
        Right::Ranges { .. } => true,
        Right::Trans(_) => true,
        Right::Default => true,
        Right::DefaultSequence => true,
    }
}

fn is_of_default(right: &Right) -> bool
    ensures { result ≡ is_default right.now }
{
    match right {
        Right::Ranges { .. } => false,
        Right::Whole { .. } => false,
        Right::Trans(_) => false,
        Right::Default => true,
        Right::DefaultSequence => true,
    }
}

/// Whether it is no ignore bin that is `default` or `default sequence`.
fn is_default_allowed(word: &Word, right: &Right) -> bool
    ensures { result ≡ may_default word.now right.now }
{
    match word {
        Word::Bins => true,
        Word::Illegal => true,
        Word::Ignore => !is_of_default(right),
    }
}

/// What the words of a declaration alone tell.
#[tactic(auto, unfolding(elab_bins::specs::Declarations::entered))]
fn check_entry(name: &Name, decl: &BinsDecl, walked: &Walked) -> Result<(), ElabFault>
    ensures { Gives result (entered name.now decl.now walked.now) }
{
    check_unused(&walked.known, &decl.name, decl.at)?;
    ElabKind::NotThisPoint.unless(is_of_point(name, &decl.right), decl.at)?;
    ElabKind::IgnoreDefault.unless(is_default_allowed(&decl.word, &decl.right), decl.at)?;
    Ok(())
}

/// All numbers of a set.
fn whole(alloc: Global, set: &[(Int, Int)]) -> Result<List<Listed>, Memory>
    ensures { IfOk result (λ elements. elements ≡ whole_elements set.now) }
{
    let mut elements = List::new(alloc);
    for range in set {
        elements.push(Listed::Range {
            low: range.0,
            high: range.1,
        })?;
    }
    Ok(elements)
}

/// What a declaration lists.
#[tactic(auto, unfolding(elab_bins::specs::Declarations::elements_in))]
fn elements(
    alloc: Global,
    scope: &Scope,
    domain: &Domain,
    wildcard: bool,
    right: &Right,
) -> Result<List<Listed>, ElabFault>
    ensures { Gives result (elements_in scope.now domain.now wildcard right.now) }
{
    match right {
        Right::Ranges { elems, .. } => elements_of(
            alloc,
            scope,
            domain,
            wildcard,
            elems.as_slice(),
        ),
        Right::Whole { .. } => Ok(whole(alloc, domain.numbers.intervals())?),
        Right::Trans(_) => Ok(List::new(alloc)),
        Right::Default => Ok(List::new(alloc)),
        Right::DefaultSequence => Ok(List::new(alloc)),
    }
}

/// Adds the set of listed numbers, where it is to be.
fn add_set(
    alloc: Global,
    adds: bool,
    elems: &Elems,
    ranges: &mut List<(Int, Int)>,
) -> Result<(), Memory>
    ensures { OnOk result (ranges.new ≡ with_set adds ranges.old (written elems.now)) }
{
    if adds {
        let set = ValueSet::from_ranges(alloc, elems.as_slice())?;
        ranges.append(List::of(Vec::from_slice(alloc, set.intervals())?))?;
    }
    Ok(())
}

/// What the bins of a declaration have in common.
fn head(
    alloc: Global,
    decl: &BinsDecl,
    kind: BinKind,
    guard: Option<Shared<Bound>>,
    walked: &Walked,
) -> Result<Head, Memory>
    ensures { IfOk result (λ head. head ≡ head_of decl.now kind guard walked.now) }
{
    let place = place_of(walked.names.as_slice().len())?;
    Ok(Head {
        name: decl.name.share()?,
        kind,
        guard,
        at: decl.at,
        declared: Some(place),
    })
}

/// Adds what a declaration lists and removes.
fn keep_sets(alloc: Global, kind: BinKind, kept: &Elems, walked: &mut Walked) -> Result<(), Memory>
    ensures { OnOk result (walked.new ≡ record walked.old { listed = with_set true walked.old.listed (written kept.now); ignored = with_set (is_ignore kind) walked.old.ignored (written kept.now); illegal = with_set (is_illegal kind) walked.old.illegal (written kept.now) }) }
{
    add_set(alloc, true, kept, &mut walked.listed)?;
    add_set(alloc, is_of_ignore(kind), kept, &mut walked.ignored)?;
    add_set(alloc, is_of_illegal(kind), kept, &mut walked.illegal)?;
    Ok(())
}

#[tactic(auto, unfolding(elab_bins::specs::Declarations::bins_added))]
fn add_bins(
    alloc: Global,
    head: &Head,
    count: usize,
    bins: List<Made>,
    kept: &Elems,
    walked: &mut Walked,
) -> Result<(), Memory>
    requires { walked.old.count + count ≤ most_bins }
    ensures { OnOk result (walked.new ≡ bins_added head.now count bins (written kept.now) walked.old) }
{
    keep_name(alloc, &head.name, walked)?;
    keep_bins(bins.into_vec(), &mut walked.entries)?;
    walked.count += count;
    keep_sets(alloc, head.kind, kept, walked)?;
    Ok(())
}

/// Adds the bins of elements that list numbers.
#[tactic(auto, unfolding(elab_bins::specs::Declarations::values_binned))]
fn bin_values(
    alloc: Global,
    domain: &Domain,
    distribute: bool,
    keep: &Option<Bound>,
    wanted: Wanted,
    elements: &[Listed],
    head: &Head,
    walked: &mut Walked,
) -> Result<(), ElabFault>
    requires { IsWanted wanted }
    ensures { Makes result walked.new (values_binned domain.now distribute keep.now wanted elements.now head.now walked.old) }
{
    let numbers = numbers_in(alloc, domain, keep, elements, head.at)?;
    let kept = keep_numbers(alloc, keep, &numbers, head.at)?;
    let plan = make_plan(alloc, walked.count, wanted, &kept, head.at)?;
    let bins = bins_of(alloc, distribute, keep, &plan, head, &numbers, &kept)?;
    add_bins(alloc, head, plan.count(), bins, &kept, walked)?;
    Ok(())
}

/// Adds the bin of elements whose patterns it keeps.
#[tactic(auto, unfolding(elab_bins::specs::Declarations::rule_added))]
fn bin_patterns(
    alloc: Global,
    domain: &Domain,
    elements: &[Listed],
    head: &Head,
    walked: &mut Walked,
) -> Result<(), ElabFault>
    ensures { Makes result walked.new (rule_added head.now (rule_meant domain.now (patterns_meant elements.now)) walked.old) }
{
    check_room(walked.count, 1, head.at)?;
    let rule = pattern_rule(alloc, domain, elements)?;
    add_one(alloc, head, rule, walked)?;
    Ok(())
}

/// Adds the bins of elements: of their patterns, where these are kept, and else of the numbers that they list.
#[tactic(auto, unfolding(elab_bins::specs::Declarations::listed_binned))]
fn bin_listed(
    alloc: Global,
    domain: &Domain,
    manner: Manner,
    keep: &Option<Bound>,
    wanted: Wanted,
    elements: &[Listed],
    head: &Head,
    walked: &mut Walked,
) -> Result<(), ElabFault>
    requires { IsWanted wanted }
    ensures { Makes result walked.new (listed_binned domain.now manner keep.now wanted elements.now head.now walked.old) }
{
    if is_kept(manner.patterns, head.kind, keep, wanted, elements) {
        return bin_patterns(alloc, domain, elements, head, walked);
    }
    bin_values(
        alloc,
        domain,
        manner.distribute,
        keep,
        wanted,
        elements,
        head,
        walked,
    )
}

#[tactic(auto, unfolding(elab_bins::specs::Declarations::elements_binned))]
fn bin_elements(
    alloc: Global,
    scope: &Scope,
    domain: &Domain,
    manner: Manner,
    decl: &BinsDecl,
    elements: &[Listed],
    walked: &mut Walked,
) -> Result<(), ElabFault>
    ensures { Makes result walked.new (elements_binned scope.now domain.now manner decl.now elements.now walked.old) }
{
    let keep = filter_of(alloc, scope, domain.typ, &decl.right)?;
    let wanted = size_of(alloc, scope, &decl.size, decl.at)?;
    let guard = shared_guard_in(alloc, scope, &decl.guard)?;
    let head = head(alloc, decl, kind_of(decl.word), guard, walked)?;
    bin_listed(
        alloc, domain, manner, &keep, wanted, elements, &head, walked,
    )?;
    Ok(())
}

#[tactic(auto, unfolding(elab_bins::specs::Declarations::values_declared))]
fn declare_values(
    alloc: Global,
    scope: &Scope,
    domain: &Domain,
    manner: Manner,
    decl: &BinsDecl,
    walked: &mut Walked,
) -> Result<(), ElabFault>
    ensures { Makes result walked.new (values_declared scope.now domain.now manner decl.now walked.old) }
{
    let elements = elements(alloc, scope, domain, decl.wildcard, &decl.right)?;
    bin_elements(
        alloc,
        scope,
        domain,
        manner,
        decl,
        elements.as_slice(),
        walked,
    )?;
    Ok(())
}

/// Adds the one bin of a declaration.
#[tactic(auto, unfolding(elab_bins::specs::Declarations::one_added))]
fn add_one(alloc: Global, head: &Head, rule: BinRule, walked: &mut Walked) -> Result<(), Memory>
    requires { walked.old.count + 1 ≤ most_bins }
    ensures { OnOk result (walked.new ≡ one_added head.now rule walked.old) }
{
    let name = head.name.share()?;
    let made = bin_of(head, name, rule)?;
    add_made(alloc, &head.name, made, walked)
}

/// Adds an array of `default`.
#[tactic(auto, unfolding(elab_bins::specs::Declarations::rest_added))]
fn add_rest(alloc: Global, head: Head, walked: &mut Walked) -> Result<(), Memory>
    ensures { OnOk result (walked.new ≡ rest_added head walked.old) }
{
    keep_name(alloc, &head.name, walked)?;
    walked.entries.push(Entry::Rest(head))?;
    Ok(())
}

#[tactic(auto, unfolding(elab_bins::specs::Declarations::rule_added))]
fn add_default(alloc: Global, head: &Head, walked: &mut Walked) -> Result<(), ElabFault>
    ensures { Makes result walked.new (rule_added head.now Default walked.old) }
{
    check_room(walked.count, 1, head.at)?;
    add_one(alloc, head, BinRule::Default, walked)?;
    Ok(())
}

fn add_sized(alloc: Global, size: &Size, head: Head, walked: &mut Walked) -> Result<(), ElabFault>
    ensures { Makes result walked.new (default_sized size.now head walked.old) }
{
    match size {
        Size::Open => Ok(add_rest(alloc, head, walked)?),
        Size::Scalar => add_default(alloc, &head, walked),
        Size::Fixed(_) => add_default(alloc, &head, walked),
    }
}

#[tactic(auto, unfolding(elab_bins::specs::Declarations::default_declared))]
fn declare_default(
    alloc: Global,
    scope: &Scope,
    decl: &BinsDecl,
    walked: &mut Walked,
) -> Result<(), ElabFault>
    ensures { Makes result walked.new (default_declared scope.now decl.now walked.old) }
{
    let guard = shared_guard_in(alloc, scope, &decl.guard)?;
    let head = head(alloc, decl, default_kind(&decl.word), guard, walked)?;
    add_sized(alloc, &decl.size, head, walked)?;
    Ok(())
}

fn declare_right(
    alloc: Global,
    scope: &Scope,
    domain: &Domain,
    manner: Manner,
    decl: &BinsDecl,
    walked: &mut Walked,
) -> Result<(), ElabFault>
    ensures { Makes result walked.new (declared_by scope.now domain.now manner decl.now walked.old decl.now.right) }
{
    match &decl.right {
        Right::Ranges { .. } => declare_values(alloc, scope, domain, manner, decl, walked),
        Right::Whole { .. } => declare_values(alloc, scope, domain, manner, decl, walked),
        Right::Trans(seqs) => { declare_trans(alloc, scope, domain, decl, seqs.as_slice(), walked) }
        Right::Default => declare_default(alloc, scope, decl, walked),
        Right::DefaultSequence => declare_default_sequence(alloc, scope, decl, walked),
    }
}

#[tactic(auto, unfolding(elab_bins::specs::Declarations::bins_declared))]
fn declare(
    alloc: Global,
    scope: &Scope,
    domain: &Domain,
    name: &Name,
    manner: Manner,
    decl: &BinsDecl,
    walked: &mut Walked,
) -> Result<(), ElabFault>
    ensures { Makes result walked.new (bins_declared scope.now domain.now name.now manner decl.now walked.old) }
{
    check_entry(name, decl, walked)?;
    declare_right(alloc, scope, domain, manner, decl, walked)?;
    Ok(())
}

/// All bins that are declared.
#[tactic(auto, unfolding(elab_bins::specs::Declarations::bins_walked))]
pub(crate) fn walk_bins(
    alloc: Global,
    scope: &Scope,
    domain: &Domain,
    name: &Name,
    manner: Manner,
    decls: &[BinsDecl],
) -> Result<Walked, ElabFault>
    ensures { Gives result (bins_walked scope.now domain.now name.now manner decls.now) }
{
    let mut walked = Walked {
        known: NameMap::new(alloc),
        names: List::new(alloc),
        entries: List::new(alloc),
        count: 0,
        listed: List::new(alloc),
        ignored: List::new(alloc),
        illegal: List::new(alloc),
        ignored_seqs: List::new(alloc),
        illegal_seqs: List::new(alloc),
        removing: 0,
    };
    for decl in decls {
        declare(alloc, scope, domain, name, manner, decl, &mut walked)?;
    }
    Ok(walked)
}
