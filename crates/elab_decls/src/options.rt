//! Options where they stand.
ghost use Rattle.std.specs.Prelude.{◌≡◌, [], IfOk};
ghost use Rattle.elab_base.specs.Gives.{Gives, Makes, each};
ghost use Rattle.elab_base.specs.Steps.{number_in as number_meant};
ghost use Rattle.elab_decls.specs.Options.{seen_by, value_of as value_meant, kind_of as kind_meant, value_set, option_set, options_set, member_set, group_options, point_defaults as defaults_of_point, cross_defaults as defaults_of_cross, remarks_of};

use const_eval::Scope;
use cov_base::Int;
use cov_ground::Memory;
use cov_options::{Level, OptFault, OptValue, Options};
use cov_tree::{Expr, Member, OptDecl, OptText};
use design_data::Remarks;
use elab_base::{ElabFault, ElabKind, number_in};
use name_map::NameMap;
use std::alloc::Global;

/// The number of an expression that sees no formals and no sample arguments.
fn outer_number(alloc: Global, scope: &mut Scope, expr: &Expr) -> Result<Int, ElabFault>
    ensures gives { Gives result (number_meant (record scope.old { inner = [] }) expr.now) }
    ensures scope { scope.new ≡ scope.old }
{
    let inner = scope.replace_inner(NameMap::new(alloc));
    let number = number_in(alloc, scope, expr);
    scope.replace_inner(inner);
    number
}

fn number(alloc: Global, scope: &mut Scope, on_type: bool, expr: &Expr) -> Result<Int, ElabFault>
    ensures gives { Gives result (number_meant (seen_by on_type scope.old) expr.now) }
    ensures scope { scope.new ≡ scope.old }
{
    if on_type {
        outer_number(alloc, scope, expr)
    } else {
        number_in(alloc, scope, expr)
    }
}

/// What an option is set to.
#[tactic(auto, unfolding(crate::specs::Options::value_of))]
fn value_of(
    alloc: Global,
    scope: &mut Scope,
    on_type: bool,
    text: &OptText,
) -> Result<OptValue, ElabFault>
    ensures gives { Gives result (value_meant (seen_by on_type scope.old) text.now) }
    ensures scope { scope.new ≡ scope.old }
{
    match text {
        OptText::Number(expr) => {
            let number = number(alloc, scope, on_type, expr)?;
            Ok(OptValue::Number(number))
        }
        OptText::Text(text) => Ok(OptValue::Text(text.share()?)),
    }
}

fn kind_of(fault: OptFault) -> ElabKind
    ensures { result ≡ kind_meant fault }
{
    match fault {
        OptFault::UnknownOption => ElabKind::UnknownOption,
        OptFault::WrongLevel => ElabKind::WrongLevel,
        OptFault::OutOfRange => ElabKind::OutOfRange,
        OptFault::SetTwice => ElabKind::SetTwice,
    }
}

/// Sets an option to a value.
fn set_value(
    level: Level,
    option: &OptDecl,
    value: OptValue,
    options: &mut Options,
) -> Result<(), ElabFault>
    ensures { Makes result options.new (value_set level option.now value options.old) }
{
    match options.set(option.on_type, level, option.name.as_slice(), value) {
        Ok(()) => Ok(()),
        Err(fault) => Err(kind_of(fault).at(option.at)),
    }
}

/// Sets an option as a text says it.
#[tactic(auto, unfolding(crate::specs::Options::option_set))]
fn set_option(
    alloc: Global,
    level: Level,
    scope: &mut Scope,
    option: &OptDecl,
    options: &mut Options,
) -> Result<(), ElabFault>
    ensures gives { Makes result options.new (option_set level scope.old option.now options.old) }
    ensures scope { scope.new ≡ scope.old }
{
    let value = value_of(alloc, scope, option.on_type, &option.value)?;
    set_value(level, option, value, options)
}

/// The options of a point or a cross, in order, over those that it has by default. The scope is lent, and as before
/// afterwards.
#[tactic(auto, unfolding(crate::specs::Options::options_set))]
pub fn set_options(
    alloc: Global,
    level: Level,
    scope: &mut Scope,
    decls: &[OptDecl],
    options: &mut Options,
) -> Result<(), ElabFault>
    ensures gives { Makes result options.new (options_set level scope.old decls.now options.old) }
    ensures scope { scope.new ≡ scope.old }
{
    for option in decls {
        set_option(alloc, level, scope, option, options)?;
    }
    Ok(())
}

fn set_member(
    alloc: Global,
    scope: &mut Scope,
    member: &Member,
    options: &mut Options,
) -> Result<(), ElabFault>
    ensures gives { Makes result options.new (member_set scope.old member.now options.old) }
    ensures scope { scope.new ≡ scope.old }
{
    match member {
        Member::Opt(option) => set_option(alloc, Level::Group, scope, option, options),
        Member::Point(_) => Ok(()),
        Member::Cross(_) => Ok(()),
    }
}

/// The options of a group, which stand among its members. The scope is lent, and as before afterwards.
#[tactic(auto, unfolding(crate::specs::Options::group_options))]
pub fn read_options(
    alloc: Global,
    scope: &mut Scope,
    members: &[Member],
) -> Result<Options, ElabFault>
    ensures gives { Gives result (group_options scope.old members.now) }
    ensures scope { scope.new ≡ scope.old }
{
    let mut options = Options::new();
    for member in members {
        set_member(alloc, scope, member, &mut options)?;
    }
    Ok(options)
}

/// The options of a point where it sets none: those of its group of which it has its own, and the defaults.
pub fn point_defaults(group: &Options) -> Options
    ensures { result ≡ defaults_of_point group.now }
{
    let mut options = Options::new();
    options.at_least = group.at_least;
    options.auto_bin_max = group.auto_bin_max;
    options.detect_overlap = group.detect_overlap;
    options
}

/// The same of a cross.
pub fn cross_defaults(group: &Options) -> Options
    ensures { result ≡ defaults_of_cross group.now }
{
    let mut options = Options::new();
    options.at_least = group.at_least;
    options.cross_num_print_missing = group.cross_num_print_missing;
    options
}

/// What the options of an instance, a point or a cross say that no count depends on.
pub fn remarks(options: &Options) -> Result<Remarks, Memory>
    ensures { IfOk result (λ remarks. remarks ≡ remarks_of options.now) }
{
    Ok(Remarks {
        comment: options.comment.share()?,
        detect_overlap: options.detect_overlap == 1,
        auto_bin_max: options.auto_bin_max,
        cross_num_print_missing: options.cross_num_print_missing,
    })
}
