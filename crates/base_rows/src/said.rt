//! What words say.
use crate::words::{show, show_number};
use cov_serve::{ServeWords, serve_words};
use std::alloc::Global;
use std::io::Print;
use text_place::{HELP, VERSION, text_of, topic_of};

/// Adds a word.
fn add_word(alloc: Global, words: &mut Vec<String>, word: &str) {
    if let Ok(word) = String::from_str(alloc, word) {
        let _ = words.push(word);
    }
}

/// The words of a text.
fn words_of(alloc: Global, text: &str) -> Vec<String> {
    let mut words = Vec::new(alloc);
    for word in text.split_whitespace() {
        add_word(alloc, &mut words, word);
    }
    words
}

/// Writes the place of a word, or `-`.
fn show_place<R: Print>(rt: &R, place: Option<u32>) {
    match place {
        Some(place) => show_number(rt, i128::from(place)),
        None => show(rt, " -"),
    }
}

/// Writes the places of the design's name and of the address, how many seats there are, and the places of the journal's
/// name and of the readers' address.
fn show_said<R: Print>(rt: &R, said: ServeWords) {
    show_number(rt, i128::from(said.design));
    show_number(rt, i128::from(said.listen));
    show_number(rt, i128::from(said.seats));
    show_place(rt, said.journal);
    show_place(rt, said.readers);
}

/// WORDS: what the words of `covd serve` say.
pub(crate) fn serve<R: Print>(rt: &R, alloc: Global, row: &str) {
    let words = words_of(alloc, row);
    match serve_words(&words) {
        Some(said) => show_said(rt, said),
        None => show(rt, " none"),
    }
}

/// Which text it is: a page by its first line.
fn name_of(text: &'static str) -> &'static str {
    match text {
        HELP => "help",
        VERSION => "version",
        page => page.split_once('\n').unwrap_or((page, "")).0,
    }
}

/// WORDS: the text that is asked for before any command.
pub(crate) fn early<R: Print>(rt: &R, alloc: Global, row: &str) {
    let words = words_of(alloc, row);
    show(rt, " ");
    match topic_of(&words) {
        Some(topic) => show(rt, name_of(text_of(topic))),
        None => show(rt, "none"),
    }
}
