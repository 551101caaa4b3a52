//! The words of the commands that fill a store.
ghost use Rattle.std.specs.Prelude.{◌≡◌, ◌∷◌, [], ℕ, Some, List, map, string_bytes, codes, IfSome, MatchOption};
ghost use Rattle.cov_ground.specs.Limits.{most_tests};
ghost use Rattle.covd_commands.specs.Options.{options_in};
ghost use Rattle.covd_commands.specs.Digits.{written as written_meant, bounded as bounded_meant};
ghost use Rattle.covd_commands.specs.Forms.{form_of as form_meant, most_rounds, Asks, NoneAsked, IsReportCommand, IsNoReport, IsExportCommand, IsNoExport, IsMakeCommand, IsNoMake};

use crate::numbers::{rounds_of, seed_of, tests_of};
use crate::options::{Options, options_of};

/// The options and the words behind a command's own, the first of them apart; None where this is another command, where the
/// options aren't such, or no word is behind them.
fn behind<'w>(command: &str, words: &'w [String]) -> Option<(Options<'w>, &'w str, &'w [String])>
    ensures { MatchOption result (NoneAsked command.now (map string_bytes words.now))
        (λ parts. Asks command.now (map string_bytes words.now) (options_in parts.0)
        (parts.1.now ∷ map string_bytes parts.2.now)) }
{
    let (first, rest) = words.split_first()?;
    if first.as_str() != command {
        return None;
    }
    let (options, rest) = options_of(rest)?;
    let (word, rest) = rest.split_first()?;
    Some((options, word.as_str(), rest))
}

/// The options, the design's name and the records' of `report`.
pub fn report_words(words: &[String]) -> Option<(Options<'_>, &str, &[String])>
    ensures { MatchOption result (IsNoReport (map string_bytes words.now))
        (λ parts. IsReportCommand (map string_bytes words.now) (options_in parts.0) parts.1.now
        (map string_bytes parts.2.now)) }
{
    let (options, design, names) = behind("report", words)?;
    if names.is_empty() {
        return None;
    }
    Some((options, design, names))
}

/// The form in which a store is shown.
#[derive(Clone, Copy, PartialEq, Eq)]
pub enum Form {
    /// The report: tests, coverage, illegal hits and the ranking.
    Report,
    /// A line for each bin.
    Bins,
    /// The bins that are not covered, item by item.
    Holes,
    /// One object of JSON (RFC 8259).
    Json,
    /// A text of XML in the interchange format of UCIS 1.0.
    Ucis,
    /// One page of HTML.
    Html,
}

/// The form that a word of `export` names.
fn form_of(word: &str) -> Option<Form>
    ensures { result ≡ form_meant word.now }
{
    if word == "bins" {
        return Some(Form::Bins);
    }
    if word == "holes" {
        return Some(Form::Holes);
    }
    if word == "json" {
        return Some(Form::Json);
    }
    if word == "ucis" {
        return Some(Form::Ucis);
    }
    if word == "html" {
        return Some(Form::Html);
    }
    None
}

/// The options, the form, the design's name and the records' of `export`.
pub fn export_words(words: &[String]) -> Option<(Options<'_>, Form, &str, &[String])>
    ensures { MatchOption result (IsNoExport (map string_bytes words.now))
        (λ parts. IsExportCommand (map string_bytes words.now) (options_in parts.0) parts.1 parts.2.now
        (map string_bytes parts.3.now)) }
{
    let (options, word, rest) = behind("export", words)?;
    if options.short {
        return None;
    }
    let (design, names) = rest.split_first()?;
    if names.is_empty() {
        return None;
    }
    match form_of(word) {
        Some(form) => Some((options, form, design.as_str(), names)),
        None => None,
    }
}

/// What `make` is to make.
#[derive(Clone, Copy)]
pub struct Numbers {
    /// The seed of the generator.
    pub seed: u64,
    /// Rounds of each test, at most 1,048,576.
    pub rounds: u32,
    /// How many tests, from 1 to 4,096.
    pub tests: u32,
}

/// The three words that are all that there is.
fn three(words: &[String]) -> Option<(&str, &str, &str)>
    ensures { MatchOption result
        ((a b c : List ℕ) → map string_bytes words.now ≡ a ∷ b ∷ c ∷ [] → ⊥)
        (λ parts. map string_bytes words.now ≡ parts.0.now ∷ parts.1.now ∷ parts.2.now ∷ []) }
{
    let (first, rest) = words.split_first()?;
    let (second, rest) = rest.split_first()?;
    let (third, rest) = rest.split_first()?;
    if !rest.is_empty() {
        return None;
    }
    Some((first.as_str(), second.as_str(), third.as_str()))
}

/// The numbers of `make`.
fn numbers_of(seed: &str, rounds: &str, tests: &str) -> Option<Numbers>
    ensures { MatchOption result
        ((s r t : ℕ) → written_meant 20 seed.now ≡ Some s
        → bounded_meant 0 most_rounds (written_meant 7 rounds.now) ≡ Some r
        → bounded_meant 1 most_tests (written_meant 4 tests.now) ≡ Some t → ⊥)
        (λ n. (written_meant 20 seed.now ≡ Some n.seed)
        × (bounded_meant 0 most_rounds (written_meant 7 rounds.now) ≡ Some n.rounds)
        × (bounded_meant 1 most_tests (written_meant 4 tests.now) ≡ Some n.tests)) }
{
    let seed = seed_of(seed)?;
    let rounds = rounds_of(rounds)?;
    let tests = tests_of(tests)?;
    Some(Numbers {
        seed,
        rounds: rounds as u32,
        tests: tests as u32,
    })
}

/// The options, the design's name and the numbers of `make`.
pub fn make_words(words: &[String]) -> Option<(Options<'_>, &str, Numbers)>
    ensures { MatchOption result (IsNoMake (map string_bytes words.now))
        (λ parts. IsMakeCommand (map string_bytes words.now) (options_in parts.0) parts.1.now
        parts.2.seed parts.2.rounds parts.2.tests) }
{
    let (options, design, rest) = behind("make", words)?;
    let (seed, rounds, tests) = three(rest)?;
    match numbers_of(seed, rounds, tests) {
        Some(numbers) => Some((options, design, numbers)),
        None => None,
    }
}
