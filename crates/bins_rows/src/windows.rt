//! Windows of samples.
ghost use Rattle.std.specs.Prelude.{◌≤◌};

use crate::sequences::seq_of;
use crate::words::{int_of, show, show_number, split};
use cov_base::Int;
use std::alloc::Global;
use std::io::Print;
use trans_seq::{Seq, cells, window_in};

/// A sample: a number, or `x`.
fn sample_of(word: &str) -> Option<Int> {
    if word == "x" {
        None
    } else {
        Some(int_of(word))
    }
}

/// The samples of the words.
fn samples_of(alloc: Global, text: &str) -> Vec<Option<Int>> {
    let mut samples = Vec::new(alloc);
    for word in text.split_whitespace() {
        let _ = samples.push(sample_of(word));
    }
    samples
}

/// Writes whether the window is a list of the sequence.
fn show_window<R: Print>(rt: &R, alloc: Global, seq: &Seq, samples: &[Option<Int>]) {
    match window_in(alloc, seq, samples) {
        Ok(true) => show(rt, " in"),
        Ok(false) => show(rt, " out"),
        Err(_) => {}
    }
}

/// SEQUENCE / SAMPLES: whether the window is a list of the sequence.
pub(crate) fn window<R: Print>(rt: &R, alloc: Global, row: &str) {
    let (seq, samples) = split(row, '/');
    show_window(rt, alloc, &seq_of(alloc, seq), &samples_of(alloc, samples));
}

/// Whether the window of that number, whose digits to the base 3 are its samples, is a list of the sequence.
fn is_list(alloc: Global, seq: &Seq, len: usize, number: u32) -> bool
    requires { len ≤ 5 }
{
    let mut window = [None; 5];
    let mut rest = number;
    for sample in &mut window {
        *sample = Int::new(i128::from(rest % 3));
        rest /= 3;
    }
    window_in(alloc, seq, &window[..len]).unwrap_or(false)
}

/// How many windows of that many samples from 0 to 2 are lists of the sequence.
fn count_lists(alloc: Global, seq: &Seq, len: usize) -> u32
    requires { len ≤ 5 }
{
    let mut count = 0u32;
    for number in 0..3u32.saturating_pow(len as u32) {
        if is_list(alloc, seq, len, number) {
            count = count.saturating_add(1);
        }
    }
    count
}

/// Writes how many windows of 0 to 5 samples from 0 to 2 are lists of the sequence, and its cells.
fn show_windows<R: Print>(rt: &R, alloc: Global, seq: &Seq) {
    for len in 0..6usize {
        show_number(rt, i128::from(count_lists(alloc, seq, len)));
    }
    show_number(rt, i128::from(cells(seq)));
}

/// SEQUENCE: how many windows are lists of it, and its cells.
pub(crate) fn windows<R: Print>(rt: &R, alloc: Global, row: &str) {
    show_windows(rt, alloc, &seq_of(alloc, row));
}
