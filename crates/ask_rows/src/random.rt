//! Random asks, as lines.
use crate::dice::Dice;
use crate::words::put;
use std::alloc::Global;

/// The paths of a design's nodes.
pub trait Paths {
    /// How many nodes there are.
    fn many(&self) -> usize;

    /// Puts the path of the node at a place behind a line.
    fn write(&self, place: u32, line: &mut String);
}

/// Texts of the same tables.
static TEXTS: [&str; 4] = [
    "bit [3:0] v; covergroup g; option.at_least = 2; p: coverpoint v { bins a = {0}; bins b = {[1:3]}; \
     illegal_bins e = {7}; } q: coverpoint v { bins s = (1 => 2); bins d = default; } x: cross p, q; \
     endgroup covergroup k; type_option.merge_instances = 1; p: coverpoint v { bins c[] = {[0:3]}; } \
     endgroup g i = new; k m = new; k n = new;",
    "bit [3:0] v; covergroup g; p: coverpoint v { bins a = {0}; bins c = {[1:9]}; } endgroup covergroup \
     k; type_option.merge_instances = 1; p: coverpoint v { option.at_least = 3; bins c[] = {[0:7]}; \
     ignore_bins h = {5}; } endgroup g i = new; k m = new; k n = new;",
    "bit [3:0] v; covergroup g; p: coverpoint v { option.weight = 3; bins a[] = {[0:15]}; } q: coverpoint \
     v { bins s = (0 => 1 => 2); } endgroup covergroup k; p: coverpoint v; endgroup g i = new; k m = new; \
     k n = new;",
    "bit [3:0] v; covergroup g; endgroup covergroup k; endgroup g i = new; k m = new; k n = new;",
];

/// Asks, in which `#N` stands for a number below N, PATH for the path of a node or one that no node has, STEPS for up to
/// three values that are set, each with a sample behind it, and TEXT for one of the texts.
static ASKS: [&str; 32] = [
    "hello #100",
    "illegal #2",
    "tests #4",
    "name #24",
    "fetch #8 #150",
    "rank",
    "counts #3 PATH",
    "counts #3 PATH",
    "of #3 t#6 PATH",
    "of #3 t#6 PATH",
    "coverage PATH",
    "coverage PATH",
    "coverage PATH",
    "coverage PATH",
    "coverage PATH",
    "coverage PATH",
    "coverage PATH",
    "coverage PATH",
    "exclude PATH",
    "exclude PATH",
    "exclude PATH",
    "include PATH",
    "include PATH",
    "include PATH",
    "admit t#6 STEPS",
    "admit t#6 STEPS",
    "admit t#6 STEPS",
    "admit t#6 STEPS",
    "revise TEXT",
    "late admit t#6 STEPS <- revise TEXT",
    "late admit t#6 STEPS <- exclude PATH",
    "late revise TEXT <- admit t#6 STEPS",
];

/// A place among so many.
fn place_in(dice: &mut Dice, many: usize) -> u32 {
    dice.below(u32::try_from(many).unwrap_or(u32::MAX))
}

/// One of some texts.
fn one_of(dice: &mut Dice, texts: &[&'static str]) -> &'static str {
    let place = place_in(dice, texts.len());
    texts.get(place as usize).copied().unwrap_or("")
}

/// The text of a design, one of some with the same tables.
pub fn random_text(dice: &mut Dice) -> &'static str {
    one_of(dice, &TEXTS)
}

/// Puts a number behind a line.
fn write_number(line: &mut String, number: u32) {
    let _ = write!(line, "{number}");
}

/// Puts a path behind a line: that of a node, or one that no node has.
fn write_path<P: Paths>(dice: &mut Dice, paths: &P, line: &mut String) {
    let many = paths.many();
    let place = place_in(dice, many.saturating_add(1));
    if place as usize >= many {
        return put(line, "g/none");
    }
    paths.write(place, line);
}

/// Puts a value that is set, with a sample behind it, behind a line.
fn write_step(line: &mut String, value: u32, instance: u32) {
    let _ = write!(line, " 0={value} {instance}");
}

/// Puts steps of a record behind a line.
fn write_steps(dice: &mut Dice, line: &mut String) {
    for _ in 0..dice.below(4) {
        let value = dice.below(9);
        write_step(line, value, dice.below(3));
    }
}

/// Puts a word behind a line, with a number below the one behind its `#`.
fn write_plain(dice: &mut Dice, line: &mut String, word: &str) {
    let (word, below) = word.split_once('#').unwrap_or((word, ""));
    put(line, word);
    if let Ok(many) = below.parse() {
        write_number(line, dice.below(many));
    }
}

/// Puts what a word of an ask stands for behind a line.
fn write_word<P: Paths>(dice: &mut Dice, paths: &P, line: &mut String, word: &str) {
    match word {
        "PATH" => write_path(dice, paths, line),
        "STEPS" => write_steps(dice, line),
        "TEXT" => put(line, random_text(dice)),
        _ => write_plain(dice, line, word),
    }
}

/// A random ask over nodes of these paths, as a line.
pub fn random_line<P: Paths>(alloc: Global, dice: &mut Dice, paths: &P) -> String {
    let mut line = String::new(alloc);
    for (place, word) in one_of(dice, &ASKS).split(' ').enumerate() {
        put(&mut line, if place > 0 { " " } else { "" });
        write_word(dice, paths, &mut line, word);
    }
    line
}
