//! How the bins of a point without an index are asked.
ghost use Rattle.std.specs.Prelude.{◌≡◌, ◌∷◌, [], IfOk, IsTrue};
ghost use Rattle.const_eval.specs.Typs.{Typ as AnyTyp};
ghost use Rattle.design_data.specs.declared.infos.BinRule.TheVariants.{Values, Patterns};
ghost use Rattle.point_tables.specs.Tables.{IsQuestionOf, AreQuestions, AreQuestionsOf};

use crate::tables::{Question, Questions};
use bit_width::Width;
use const_eval::{Typ, typ};
use cov_base::{Memory, ValueSet, ones};
use design_data::{BinInfo, BinRule, ItemInfo, ItemShape};
use std::alloc::Global;
use wildcard_bins::Pattern;

/// The type of the point's values.
fn typ_of(item: &ItemInfo) -> Typ {
    match &item.shape {
        ItemShape::Point(expr) => typ(expr),
        ItemShape::Cross(_) => Typ::of(Width::of(1), false),
    }
}

/// Whether the pattern's numbers are those of the type.
fn has_type(pattern: &Pattern, typ: Typ) -> bool
    ensures { IsTrue result → (pattern.now.width ≡ typ.width) × (pattern.now.signed ≡ typ.signed) }
{
    pattern.width.get() == typ.width().get() && pattern.signed == typ.is_signed()
}

/// The question of a bin of one pattern: by bits, where the pattern's numbers are those of the type.
fn by_pattern(typ: Typ, pattern: &Pattern) -> Question
    ensures { IsQuestionOf typ (Patterns (pattern.now ∷ [])) result }
{
    if !has_type(pattern, typ) {
        return Question::Rule;
    }
    Question::Bits {
        fixed: !pattern.free & ones(typ.width()),
        bits: pattern.bits,
    }
}

/// The question of a bin of patterns.
fn by_patterns(typ: Typ, patterns: &[Pattern]) -> Question
    ensures { IsQuestionOf typ (Patterns patterns.now) result }
{
    match patterns {
        [pattern] => by_pattern(typ, pattern),
        _ => Question::Rule,
    }
}

/// The question of a bin of a set.
fn by_set(set: &ValueSet) -> Question
    ensures { (typ : AnyTyp) → IsQuestionOf typ (Values set.now) result }
{
    let ranges = set.intervals();
    if ranges.len() != 1 {
        return Question::Rule;
    }
    Question::Range {
        low: ranges[0].0,
        high: ranges[0].1,
    }
}

/// The question of a bin with this rule.
fn question_of(typ: Typ, rule: &BinRule) -> Question
    ensures { IsQuestionOf typ rule.now result }
{
    match rule {
        BinRule::Values(set) => by_set(set),
        BinRule::Patterns(patterns) => by_patterns(typ, patterns.as_slice()),
        _ => Question::Rule,
    }
}

/// A question for each bin.
fn question_list(alloc: Global, typ: Typ, bins: &[BinInfo]) -> Result<Vec<Question>, Memory>
    ensures { IfOk result (λ list. AreQuestions typ bins.now list.items) }
{
    let mut list = Vec::new(alloc);
    for bin in bins {
        list.push(question_of(typ, &bin.rule))?;
    }
    Ok(list)
}

/// How the bins are asked one by one, where that is wanted; a point with an index needs no questions.
pub fn questions_of(alloc: Global, item: &ItemInfo, is_wanted: bool) -> Result<Questions, Memory>
    ensures { IfOk result (AreQuestionsOf item.now.bins) }
{
    let typ = typ_of(item);
    if !is_wanted {
        let list = Vec::new(alloc);
        return Ok(Questions { typ, list });
    }
    let list = question_list(alloc, typ, item.bins.as_slice())?;
    Ok(Questions { typ, list })
}
