//! Options of commands.
ghost use Rattle.std.specs.Prelude.{◌≡◌, None, ◌∷◌, List, ℕ, map, option_map, string_bytes, length, IsTrue, IfSome, ◌≤◌, ◌↔◌};
ghost use Rattle.covd_commands.specs.Digits.{bounded as bounded_meant};
ghost use Rattle.covd_commands.specs.Options.{times as times_meant, sum_of as sum_meant, fraction_of as fraction_meant, percent_of as percent_meant, millionths_of as millionths_meant, no_options, is_hyphened as is_hyphened_meant, options_from as options_meant, valued_of as valued_meant, flag_of as flag_meant, options_in};

use crate::numbers::{bounded, written};

/// What a command is asked for beside its words. Each may be left out.
#[derive(Clone, Copy)]
pub struct Options<'w> {
    /// The coverage overall that is to be reached, in millionths, at most 1,000,000.
    pub goal: Option<u32>,
    /// Whether the lines of tests are left out, those of their ranking too.
    pub short: bool,
    /// Whether tests that ended OK alone are merged.
    pub passed: bool,
    /// Whether a record that can't be taken in is left out, and the others are merged.
    pub keep_going: bool,
    /// The name of the file of waivers.
    pub waivers: Option<&'w str>,
}

/// What the digits behind the point of a percentage stand for, in millionths of the whole.
#[tactic(auto, unfolding(crate::specs::Options::fraction_of))]
fn fraction_of(digits: &[u8]) -> Option<u64>
    ensures is { result ≡ fraction_meant digits.now }
    ensures within { IfSome result (λ millionths. millionths ≤ 9900) }
{
    if digits.len() == 1 {
        let tenths = bounded(0, 9, written(1, digits))?;
        return Some(1000 * tenths);
    }
    let hundredths = bounded(0, 99, written(2, digits))?;
    Some(100 * hundredths)
}

/// Percent, in millionths of the whole.
fn percent_of(digits: &[u8]) -> Option<u64>
    ensures is { result ≡ percent_meant digits.now }
    ensures within { IfSome result (λ millionths. millionths ≤ 1000000) }
{
    let percent = bounded(0, 100, written(3, digits))?;
    Some(10_000 * percent)
}

/// The sum of both parts of a percentage, where it is a hundred at most.
fn sum_of(percent: Option<u64>, fraction: Option<u64>) -> Option<u64>
    requires of_percent { IfSome percent (λ millionths. millionths ≤ 1000000) }
    requires of_fraction { IfSome fraction (λ millionths. millionths ≤ 9900) }
    ensures is { result ≡ bounded_meant 0 1000000 (sum_meant percent fraction) }
    ensures within { IfSome result (λ millionths. millionths ≤ 1000000) }
{
    let percent = percent?;
    let fraction = fraction?;
    bounded(0, 1_000_000, Some(percent + fraction))
}

/// A percentage, in millionths of the whole: one digit to 3, and where a point stands behind them, one digit or 2 more; at
/// most 100.
fn millionths_of(word: &str) -> Option<u64>
    ensures is { result ≡ millionths_meant word.now }
    ensures within { IfSome result (λ millionths. millionths ≤ 1000000) }
{
    match word.split_once('.') {
        Some((percent, fraction)) => {
            sum_of(
                percent_of(percent.as_bytes()),
                fraction_of(fraction.as_bytes()),
            )
        }
        None => percent_of(word.as_bytes()),
    }
}

/// The options without a value.
#[derive(Clone, Copy, PartialEq, Eq)]
enum Flag {
    /// The lines of tests are left out.
    Short,
    /// Tests that ended OK alone are merged.
    Passed,
    /// Records that can't be taken in are left out.
    KeepGoing,
}

/// The options that have a value.
#[derive(Clone, Copy, PartialEq, Eq)]
enum Valued {
    /// A percentage.
    Goal,
    /// The name of a file.
    Waivers,
}

impl<'w> Options<'w> {
    ghost use Rattle.std.specs.Prelude.{◌≡◌, option_map, IfSome, ◌≤◌};
    ghost use Rattle.covd_commands.specs.Options.{no_options, with_value as with_value_meant, with_flag as with_flag_meant, options_in};

    /// None of them.
    pub const fn none() -> Options<'w>
        ensures { options_in result ≡ no_options }
    {
        Options {
            goal: None,
            short: false,
            passed: false,
            keep_going: false,
            waivers: None,
        }
    }

    /// The option without a value beside those that stand before it; None where it has been given.
    fn with_flag(self, flag: Flag) -> Option<Options<'w>>
        ensures { option_map options_in result ≡ with_flag_meant (options_in self.entry) flag }
    {
        match flag {
            Flag::Short if !self.short => Some(Options {
                short: true,
                ..self
            }),
            Flag::Passed if !self.passed => Some(Options {
                passed: true,
                ..self
            }),
            Flag::KeepGoing if !self.keep_going => Some(Options {
                keep_going: true,
                ..self
            }),
            _ => None,
        }
    }

    /// The option with a value beside those that stand before it; None where it has been given, or can't have the value.
    fn with_value(self, name: Valued, value: &'w str) -> Option<Options<'w>>
        ensures { option_map options_in result ≡ with_value_meant (options_in self.entry) name value.now }
    {
        match name {
            Valued::Goal if self.goal.is_none() => {
                let millionths = millionths_of(value)?;
                Some(Options {
                    goal: Some(millionths as u32),
                    ..self
                })
            }
            Valued::Waivers if self.waivers.is_none() => Some(Options {
                waivers: Some(value),
                ..self
            }),
            _ => None,
        }
    }
}

/// The option without a value that a word is.
fn flag_of(word: &str) -> Option<Flag>
    ensures { result ≡ flag_meant word.now }
{
    if word == "--short" {
        return Some(Flag::Short);
    }
    if word == "--passed" {
        return Some(Flag::Passed);
    }
    if word == "--keep-going" {
        return Some(Flag::KeepGoing);
    }
    None
}

/// The option that has a value, which is the next word.
fn valued_of(word: &str) -> Option<Valued>
    ensures { result ≡ valued_meant word.now }
{
    if word == "--goal" {
        return Some(Valued::Goal);
    }
    if word == "--waivers" {
        return Some(Valued::Waivers);
    }
    None
}

/// A word that begins with two hyphens.
fn is_hyphened(word: &str) -> bool
    ensures { IsTrue result ↔ IsTrue (is_hyphened_meant word.now) }
{
    word.as_bytes().starts_with(b"--")
}

/// The options that words begin with beside those before them, and the words behind them. None where a word that begins with
/// two hyphens is no option, where an option lacks its value or has one that it can't have, and where it stands twice.
fn options_from<'w>(given: Options<'w>, words: &'w [String]) -> Option<(Options<'w>, &'w [String])>
    ensures { option_map (λ found. (options_in found.0, map string_bytes found.1.now)) result
        ≡ options_meant None (options_in given.entry) (map string_bytes words.now) }
{
    let Some((word, rest)) = words.split_first() else {
        return Some((given, words));
    };
    if word.as_str() == "--" {
        return Some((given, rest));
    }
    if !is_hyphened(word.as_str()) {
        return Some((given, words));
    }
    if let Some(flag) = flag_of(word.as_str()) {
        let given = given.with_flag(flag)?;
        return options_from(given, rest);
    }
    let name = valued_of(word.as_str())?;
    let (value, rest) = rest.split_first()?;
    let given = given.with_value(name, value.as_str())?;
    options_from(given, rest)
}

/// The options that words begin with, and the words behind them. None where a word that begins with two hyphens is no option,
/// where an option lacks its value or has one that it can't have, and where it stands twice.
pub fn options_of(words: &[String]) -> Option<(Options<'_>, &[String])>
    ensures { option_map (λ found. (options_in found.0, map string_bytes found.1.now)) result
        ≡ options_meant None no_options (map string_bytes words.now) }
{
    options_from(Options::none(), words)
}
