//! The options, each with its value and with a mark that says whether it was set.
use crate::table::{
    AT_LEAST, AUTO_BIN_MAX, COMMENT, CROSS_NUM_PRINT_MISSING, DETECT_OVERLAP, DISTRIBUTE_FIRST,
    GET_INST_COVERAGE, GOAL, MERGE_INSTANCES, NAME, PER_INSTANCE, STROBE, WEIGHT,
};
use crate::values::{Level, OptFault, OptValue};
use cov_tree::Name;
use std::alloc::Global;

/// What the options of one covergroup, coverpoint or cross are (IEEE 1800-2017, 19.7). A field is named as its option,
/// with `type_` before it where the word is `type_option`. A mark ends in `_set` and says that [`Options::set`] has set
/// its option.
#[derive(Drop)]
pub struct Options {
    /// `option.weight`, 0 to 2^31 - 1, by default 1.
    pub weight: u32,
    pub weight_set: bool,
    /// `option.goal`, in percent, 0 to 100, by default 100.
    pub goal: u32,
    pub goal_set: bool,
    /// `option.name`, of a covergroup alone, by default empty.
    pub name: Name,
    pub name_set: bool,
    /// `option.comment`, by default empty.
    pub comment: Name,
    pub comment_set: bool,
    /// `option.at_least`, 1 to 2^31 - 1, by default 1: so often must a bin be hit to be covered.
    pub at_least: u32,
    pub at_least_set: bool,
    /// `option.detect_overlap`, 0 or 1, of covergroups and coverpoints, by default 0.
    pub detect_overlap: u32,
    pub detect_overlap_set: bool,
    /// `option.auto_bin_max`, 1 to 65,536, of covergroups and coverpoints, by default 64.
    pub auto_bin_max: u32,
    pub auto_bin_max_set: bool,
    /// `option.cross_num_print_missing`, 0 to 2^31 - 1, of covergroups and crosses, by default 0.
    pub cross_num_print_missing: u32,
    pub cross_num_print_missing_set: bool,
    /// `option.per_instance`, 0 or 1, of a covergroup alone, by default 0.
    pub per_instance: u32,
    pub per_instance_set: bool,
    /// `option.get_inst_coverage`, 0 or 1, of a covergroup alone, by default 0.
    pub get_inst_coverage: u32,
    pub get_inst_coverage_set: bool,
    /// `type_option.weight`, 0 to 2^31 - 1, by default 1.
    pub type_weight: u32,
    pub type_weight_set: bool,
    /// `type_option.goal`, in percent, 0 to 100, by default 100.
    pub type_goal: u32,
    pub type_goal_set: bool,
    /// `type_option.comment`, by default empty.
    pub type_comment: Name,
    pub type_comment_set: bool,
    /// `type_option.strobe`, 0 or 1, of a covergroup alone, by default 0.
    pub type_strobe: u32,
    pub type_strobe_set: bool,
    /// `type_option.merge_instances`, 0 or 1, of a covergroup alone, by default 0.
    pub type_merge_instances: u32,
    pub type_merge_instances_set: bool,
    /// `type_option.distribute_first`, 0 or 1, of a covergroup alone, by default 0.
    pub type_distribute_first: u32,
    pub type_distribute_first_set: bool,
}

impl Options {
    ghost use Rattle.std.specs.Prelude.{◌≡◌, true, false};
    ghost use Rattle.cov_options.specs.Table.{options, type_options, HasDefaults, defaults, answer, after};

    /// The defaults, and no mark. It takes no memory.
    pub fn new() -> Options
        ensures option { HasDefaults options result }
        ensures type_option { HasDefaults type_options result }
        ensures value { result ≡ defaults }
    {
        Options {
            weight: 1,
            weight_set: false,
            goal: 100,
            goal_set: false,
            name: Name::empty(),
            name_set: false,
            comment: Name::empty(),
            comment_set: false,
            at_least: 1,
            at_least_set: false,
            detect_overlap: 0,
            detect_overlap_set: false,
            auto_bin_max: 64,
            auto_bin_max_set: false,
            cross_num_print_missing: 0,
            cross_num_print_missing_set: false,
            per_instance: 0,
            per_instance_set: false,
            get_inst_coverage: 0,
            get_inst_coverage_set: false,
            type_weight: 1,
            type_weight_set: false,
            type_goal: 100,
            type_goal_set: false,
            type_comment: Name::empty(),
            type_comment_set: false,
            type_strobe: 0,
            type_strobe_set: false,
            type_merge_instances: 0,
            type_merge_instances_set: false,
            type_distribute_first: 0,
            type_distribute_first_set: false,
        }
    }

    /// Sets the option `type_option.NAME` or `option.NAME` in a covergroup, a coverpoint or a cross, once. The options
    /// with their ranges and levels are those of the fields. It takes no memory.
    ///
    /// Where several faults stand, the first of these is answered: `UnknownOption`, `WrongLevel`, `OutOfRange`,
    /// `SetTwice`. After a refusal the options are as before.
    pub fn set(
        &mut self,
        on_type: bool,
        level: Level,
        name: &[u8],
        value: OptValue,
    ) -> Result<(), OptFault>
        ensures answer { result ≡ answer self.old on_type level name.now value }
        ensures after { self.new ≡ after self.old on_type level name.now value }
    {
        if on_type {
            self.set_type_option(level, name, value)
        } else {
            self.set_option(level, name, value)
        }
    }

    fn set_option(&mut self, level: Level, name: &[u8], value: OptValue) -> Result<(), OptFault>
        ensures answer { result ≡ answer self.old false level name.now value }
        ensures after { self.new ≡ after self.old false level name.now value }
    {
        if name == WEIGHT.name {
            return WEIGHT.set(&mut self.weight, &mut self.weight_set, level, value);
        }
        if name == GOAL.name {
            return GOAL.set(&mut self.goal, &mut self.goal_set, level, value);
        }
        if name == NAME.name {
            return NAME.set(&mut self.name, &mut self.name_set, level, value);
        }
        if name == COMMENT.name {
            return COMMENT.set(&mut self.comment, &mut self.comment_set, level, value);
        }
        if name == AT_LEAST.name {
            return AT_LEAST.set(&mut self.at_least, &mut self.at_least_set, level, value);
        }
        if name == DETECT_OVERLAP.name {
            return DETECT_OVERLAP.set(
                &mut self.detect_overlap,
                &mut self.detect_overlap_set,
                level,
                value,
            );
        }
        if name == AUTO_BIN_MAX.name {
            return AUTO_BIN_MAX.set(
                &mut self.auto_bin_max,
                &mut self.auto_bin_max_set,
                level,
                value,
            );
        }
        if name == CROSS_NUM_PRINT_MISSING.name {
            return CROSS_NUM_PRINT_MISSING.set(
                &mut self.cross_num_print_missing,
                &mut self.cross_num_print_missing_set,
                level,
                value,
            );
        }
        if name == PER_INSTANCE.name {
            return PER_INSTANCE.set(
                &mut self.per_instance,
                &mut self.per_instance_set,
                level,
                value,
            );
        }
        if name == GET_INST_COVERAGE.name {
            return GET_INST_COVERAGE.set(
                &mut self.get_inst_coverage,
                &mut self.get_inst_coverage_set,
                level,
                value,
            );
        }
        Err(OptFault::UnknownOption)
    }

    fn set_type_option(
        &mut self,
        level: Level,
        name: &[u8],
        value: OptValue,
    ) -> Result<(), OptFault>
        ensures answer { result ≡ answer self.old true level name.now value }
        ensures after { self.new ≡ after self.old true level name.now value }
    {
        if name == WEIGHT.name {
            return WEIGHT.set(
                &mut self.type_weight,
                &mut self.type_weight_set,
                level,
                value,
            );
        }
        if name == GOAL.name {
            return GOAL.set(&mut self.type_goal, &mut self.type_goal_set, level, value);
        }
        if name == COMMENT.name {
            return COMMENT.set(
                &mut self.type_comment,
                &mut self.type_comment_set,
                level,
                value,
            );
        }
        if name == STROBE.name {
            return STROBE.set(
                &mut self.type_strobe,
                &mut self.type_strobe_set,
                level,
                value,
            );
        }
        if name == MERGE_INSTANCES.name {
            return MERGE_INSTANCES.set(
                &mut self.type_merge_instances,
                &mut self.type_merge_instances_set,
                level,
                value,
            );
        }
        if name == DISTRIBUTE_FIRST.name {
            return DISTRIBUTE_FIRST.set(
                &mut self.type_distribute_first,
                &mut self.type_distribute_first_set,
                level,
                value,
            );
        }
        Err(OptFault::UnknownOption)
    }
}
