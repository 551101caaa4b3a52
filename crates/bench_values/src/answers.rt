//! What a measurement finds, written in a line.
use std::io::Print;

/// What a measurement finds.
#[derive(Clone, Copy)]
pub enum Found {
    One(u64),
    Two(u64, u64),
    /// How many tokens and how many declarations a text has.
    Tree(u64, u64),
}

fn show_found<R: Print>(rt: &R, found: Found) {
    let _ = match found {
        Found::One(number) => println!(rt; "{number}"),
        Found::Two(first, second) => println!(rt; "{first} {second}"),
        Found::Tree(tokens, decls) => println!(rt; "{tokens} tokens, {decls} declarations"),
    };
}

/// Writes what a measurement found, or that it can't be done.
pub fn show<R: Print>(rt: &R, call: &str, found: Option<Found>) {
    match found {
        Some(found) => show_found(rt, found),
        None => {
            let _ = println!(rt; "{call} can't be done");
        }
    }
}
