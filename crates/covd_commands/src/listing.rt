//! The commands over a design alone: `check` and `tables`.
ghost use Rattle.std.specs.Prelude.{◌≡◌, ◌≤◌, ◌∷◌, [], ℕ, List, map, string_bytes, IfOk, MatchOption};
ghost use Rattle.covd_commands.specs.Listings.{listing_of as listing_meant, listing_text, IsListCommand, IsNoList, Lists};

use crate::Status;
use crate::answer::Answer;
use crate::lines::check_lines;
use crate::loading::{HadDesign, had_design};
use crate::tables::tables_lines;
use cov_base::{Memory, Shelf};
use design_data::Design;
use std::alloc::Global;

/// What is listed of a design.
#[derive(Clone, Copy, PartialEq, Eq)]
pub enum Listing {
    /// How many signals, instances and bins it has, and its bins: `check`.
    Bins,
    /// What a writer of records has to announce: the signals, and the instances with the arguments of their sample
    /// functions: `tables`.
    Tables,
}

/// The listing that a command's word names.
fn listing_of(word: &str) -> Option<Listing>
    ensures { result ≡ listing_meant word.now }
{
    if word == "check" {
        return Some(Listing::Bins);
    }
    if word == "tables" {
        return Some(Listing::Tables);
    }
    None
}

/// The two words that are all that there is.
fn two(words: &[String]) -> Option<(&str, &str)>
    ensures { MatchOption result
        ((a b : List ℕ) → map string_bytes words.now ≡ a ∷ b ∷ [] → ⊥)
        (λ parts. map string_bytes words.now ≡ parts.0.now ∷ parts.1.now ∷ []) }
{
    let (first, rest) = words.split_first()?;
    let (second, rest) = rest.split_first()?;
    if !rest.is_empty() {
        return None;
    }
    Some((first.as_str(), second.as_str()))
}

/// What is to be listed, and the design's name.
pub fn list_words(words: &[String]) -> Option<(Listing, &str)>
    ensures { MatchOption result (IsNoList (map string_bytes words.now))
        (λ parts. IsListCommand (map string_bytes words.now) parts.0 parts.1.now) }
{
    let (command, design) = two(words)?;
    match listing_of(command) {
        Some(listing) => Some((listing, design)),
        None => None,
    }
}

/// The text of a listing.
fn listed(alloc: Global, listing: Listing, design: &Design) -> Result<Vec<u8>, Memory>
    ensures { IfOk result (λ text. text.items ≡ listing_text listing design.now) }
{
    match listing {
        Listing::Bins => check_lines(alloc, design),
        Listing::Tables => tables_lines(alloc, design),
    }
}

/// Loads, compiles and lists.
pub fn list<F: Shelf>(
    alloc: Global,
    listing: Listing,
    design: &str,
    shelf: &mut F,
) -> Result<Answer, Memory>
    ensures same { F.files shelf.new ≡ F.files shelf.old }
    ensures later { F.faults shelf.old ≤ F.faults shelf.new }
    ensures answer { IfOk result (λ a. Lists (F.files shelf.old) (F.faults shelf.old) (F.faults shelf.new)
        listing design.now a.status a.text.items) }
{
    match had_design(alloc, design, shelf)? {
        HadDesign::Compiled(design) => {
            let text = listed(alloc, listing, &design)?;
            Ok(Answer {
                status: Status::Done,
                text,
            })
        }
        HadDesign::Refused(answer) => Ok(answer),
    }
}
