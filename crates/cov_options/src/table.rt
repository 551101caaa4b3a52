//! The options, in the order of the standard's tables (IEEE 1800-2017, 19.7 and 19.7.1): the name of each, in what it may
//! be set besides a covergroup, and its values.
ghost use Rattle.std.specs.Prelude.{◌≡◌, true, is_ok, if◌then◌else◌};
ghost use Rattle.cov_options.specs.Values.{numbers, texts, allows, accepts, number_of, text_of, number_in, refusal};

use crate::values::{Level, OptFault, OptValue};
use cov_ground::limits::MOST_BINS;
use cov_tree::Name;

/// An option that is a number.
#[derive(Clone, Copy)]
pub(crate) struct NumberOption {
    pub(crate) name: &'static [u8],
    pub(crate) point: bool,
    pub(crate) cross: bool,
    pub(crate) least: u32,
    pub(crate) most: u32,
}

/// An option that is a string.
#[derive(Clone, Copy)]
pub(crate) struct TextOption {
    pub(crate) name: &'static [u8],
    pub(crate) point: bool,
    pub(crate) cross: bool,
}

/// The greatest number where the standard names no limit.
const MOST: u32 = 0x7fff_ffff;

pub(crate) const WEIGHT: NumberOption = NumberOption {
    name: b"weight",
    point: true,
    cross: true,
    least: 0,
    most: MOST,
};

pub(crate) const GOAL: NumberOption = NumberOption {
    name: b"goal",
    point: true,
    cross: true,
    least: 0,
    most: 100,
};

pub(crate) const NAME: TextOption = TextOption {
    name: b"name",
    point: false,
    cross: false,
};

pub(crate) const COMMENT: TextOption = TextOption {
    name: b"comment",
    point: true,
    cross: true,
};

pub(crate) const AT_LEAST: NumberOption = NumberOption {
    name: b"at_least",
    point: true,
    cross: true,
    least: 1,
    most: MOST,
};

pub(crate) const DETECT_OVERLAP: NumberOption = NumberOption {
    name: b"detect_overlap",
    point: true,
    cross: false,
    least: 0,
    most: 1,
};

pub(crate) const AUTO_BIN_MAX: NumberOption = NumberOption {
    name: b"auto_bin_max",
    point: true,
    cross: false,
    least: 1,
    most: MOST_BINS as u32,
};

pub(crate) const CROSS_NUM_PRINT_MISSING: NumberOption = NumberOption {
    name: b"cross_num_print_missing",
    point: false,
    cross: true,
    least: 0,
    most: MOST,
};

pub(crate) const PER_INSTANCE: NumberOption = NumberOption {
    name: b"per_instance",
    point: false,
    cross: false,
    least: 0,
    most: 1,
};

pub(crate) const GET_INST_COVERAGE: NumberOption = NumberOption {
    name: b"get_inst_coverage",
    point: false,
    cross: false,
    least: 0,
    most: 1,
};

pub(crate) const STROBE: NumberOption = NumberOption {
    name: b"strobe",
    point: false,
    cross: false,
    least: 0,
    most: 1,
};

pub(crate) const MERGE_INSTANCES: NumberOption = NumberOption {
    name: b"merge_instances",
    point: false,
    cross: false,
    least: 0,
    most: 1,
};

pub(crate) const DISTRIBUTE_FIRST: NumberOption = NumberOption {
    name: b"distribute_first",
    point: false,
    cross: false,
    least: 0,
    most: 1,
};

impl NumberOption {
    /// Sets the number, where the level and the value are the option's and its mark doesn't stand yet.
    pub(crate) fn set(
        self,
        number: &mut u32,
        mark: &mut bool,
        level: Level,
        value: OptValue,
    ) -> Result<(), OptFault>
        ensures answer { result ≡ refusal (allows self.point self.cross level) (accepts (numbers self.least self.most) value) mark.old }
        ensures number { number.new ≡ (if is_ok result then number_of value else number.old) }
        ensures mark { mark.new ≡ (if is_ok result then true else mark.old) }
    {
        if !may_stand(self.point, self.cross, level) {
            return Err(OptFault::WrongLevel);
        }
        let Some(new) = number_within(self.least, self.most, value) else {
            return Err(OptFault::OutOfRange);
        };
        if *mark {
            return Err(OptFault::SetTwice);
        }
        *number = new;
        *mark = true;
        Ok(())
    }
}

impl TextOption {
    /// Sets the text, where the level and the value are the option's and its mark doesn't stand yet.
    pub(crate) fn set(
        self,
        text: &mut Name,
        mark: &mut bool,
        level: Level,
        value: OptValue,
    ) -> Result<(), OptFault>
        ensures answer { result ≡ refusal (allows self.point self.cross level) (accepts texts value) mark.old }
        ensures text { text.new ≡ (if is_ok result then text_of value else text.old) }
        ensures mark { mark.new ≡ (if is_ok result then true else mark.old) }
    {
        if !may_stand(self.point, self.cross, level) {
            return Err(OptFault::WrongLevel);
        }
        let OptValue::Text(new) = value else {
            return Err(OptFault::OutOfRange);
        };
        if *mark {
            return Err(OptFault::SetTwice);
        }
        *text = new;
        *mark = true;
        Ok(())
    }
}

/// Whether an option that may be set in points and crosses where so is said may be set at this level.
fn may_stand(point: bool, cross: bool, level: Level) -> bool
    ensures { result ≡ allows point cross level }
{
    match level {
        Level::Group => true,
        Level::Point => point,
        Level::Cross => cross,
    }
}

/// The number, where it is one from `least` to `most`.
fn number_within(least: u32, most: u32, value: OptValue) -> Option<u32>
    ensures { result ≡ number_in least most value }
{
    let OptValue::Number(number) = value else {
        return None;
    };
    let number = number.get();
    if number < i128::from(least) {
        return None;
    }
    if number > i128::from(most) {
        return None;
    }
    Some(number as u32)
}
