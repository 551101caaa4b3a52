//! The values of lists as bins show them.
ghost use Rattle.std.specs.Prelude.{◌≡◌, ◌<◌, [], ◌∷◌, ◌++◌, ℤ, length, get_or, IsTrue, IfOk, IfSome, OnOk};
ghost use Rattle.cov_base.specs.Sets.{written, set_of};
ghost use Rattle.elab_transitions.specs.Lists.{arrowed, item_once};

use cov_base::{Int, Memory, ValueSet};
use std::alloc::Global;
use std::collections::HashMap;
use std::marker::Model;
use trans_seq::{Item, Repeat};

/// A value of a list as its bin shows it. Contracts see it as the value.
#[derive(Drop)]
struct Shown {
    value: Int,
    /// The value alone.
    set: ValueSet,
    /// The value behind an arrow.
    text: Vec<u8>,
}

impl Model for Shown {
    ghost use Rattle.std.specs.Prelude.{◌≡◌, ℤ, [], ◌∷◌};
    ghost use Rattle.cov_base.specs.Sets.{written, set_of};
    ghost use Rattle.elab_transitions.specs.Lists.{arrowed};

    ghost Value = { ℤ };

    ghost view = { λ s. s.value };

    ghost invariant = { λ s. (s.set ≡ set_of (written ((s.value, s.value) ∷ []))) × (s.text.items ≡ arrowed s.value) };
}

fn add_arrowed(alloc: Global, value: Int, text: &mut Vec<u8>) -> Result<(), Memory>
    ensures { OnOk result (text.new.items ≡ text.old.items ++ arrowed value) }
{
    text.push(b'=')?;
    text.push(b'>')?;
    let digits = value.get().to_string(alloc)?;
    text.extend_from_slice(digits.as_bytes())?;
    Ok(())
}

impl Shown {
    fn of(alloc: Global, value: Int) -> Result<Shown, Memory>
        ensures { IfOk result (λ shown. shown ≡ value) }
    {
        let set = ValueSet::from_ranges(alloc, &[(value, value)])?;
        let mut text = Vec::new(alloc);
        add_arrowed(alloc, value, &mut text)?;
        Ok(Shown { value, set, text })
    }

    fn is_of(&self, value: Int) -> bool
        ensures { IsTrue result → self.now ≡ value }
    {
        self.value.get() == value.get()
    }

    /// The value behind an arrow.
    fn arrowed(&self) -> &[u8]
        ensures { result.now ≡ arrowed self.now }
    {
        self.text.as_slice()
    }

    /// The value, once.
    fn item(&self, alloc: Global) -> Result<Item, Memory>
        ensures { IfOk result (λ item. item ≡ item_once self.now) }
    {
        Ok(Item {
            set: self.set.copy(alloc)?,
            repeat: Repeat::Once,
        })
    }
}

/// The values that lists had so far, each made once: there may be millions of places at which one stands.
#[derive(Drop)]
pub(crate) struct Values {
    shown: Vec<Shown>,
    /// Where a value stands among them. What is found is tested before it is believed.
    places: HashMap<i128, usize>,
    /// Where the last one stands that was asked for.
    last: usize,
}

/// None yet. It takes no memory.
pub(crate) fn no_values(alloc: Global) -> Values {
    Values {
        shown: Vec::new(alloc),
        places: HashMap::new(alloc),
        last: 0,
    }
}

/// Whether the value stands at the place.
fn stands_at(shown: &[Shown], place: usize, value: Int) -> bool
    ensures within { IsTrue result → place < length shown.now }
    ensures is { IsTrue result → (d : ℤ) → get_or shown.now place d ≡ value }
{
    if place >= shown.len() {
        return false;
    }
    shown[place].is_of(value)
}

/// Where the value was found before.
fn found(values: &Values, value: Int) -> Option<usize>
    ensures within { IfSome result (λ place. place < length values.now.shown.items) }
    ensures is { IfSome result (λ place. (d : ℤ) → get_or values.now.shown.items place d ≡ value) }
{
    if let Some(place) = values.places.get(&value.get()) {
        if stands_at(values.shown.as_slice(), *place, value) {
            return Some(*place);
        }
    }
    None
}

/// Makes a value that wasn't found before, and answers where it stands.
fn make(alloc: Global, value: Int, values: &mut Values) -> Result<usize, Memory>
    ensures within { IfOk result (λ place. place < length values.new.shown.items) }
    ensures is { IfOk result (λ place. (d : ℤ) → get_or values.new.shown.items place d ≡ value) }
{
    let place = values.shown.len();
    let shown = Shown::of(alloc, value)?;
    values.shown.push(shown)?;
    values.places.insert(value.get(), place)?;
    Ok(place)
}

fn found_or_made(alloc: Global, value: Int, values: &mut Values) -> Result<usize, Memory>
    ensures within { IfOk result (λ place. place < length values.new.shown.items) }
    ensures is { IfOk result (λ place. (d : ℤ) → get_or values.new.shown.items place d ≡ value) }
{
    match found(values, value) {
        Some(place) => Ok(place),
        None => make(alloc, value, values),
    }
}

/// Where the value stands, which is made where it wasn't there before.
fn place_of(alloc: Global, value: Int, values: &mut Values) -> Result<usize, Memory>
    ensures within { IfOk result (λ place. place < length values.new.shown.items) }
    ensures is { IfOk result (λ place. (d : ℤ) → get_or values.new.shown.items place d ≡ value) }
{
    let last = values.last;
    if stands_at(values.shown.as_slice(), last, value) {
        return Ok(last);
    }
    let place = found_or_made(alloc, value, values)?;
    values.last = place;
    Ok(place)
}

fn add_shown(
    alloc: Global,
    shown: &Shown,
    text: &mut Vec<u8>,
    items: &mut Vec<Item>,
) -> Result<(), Memory>
    ensures text { OnOk result (text.new.items ≡ text.old.items ++ arrowed shown.now) }
    ensures items { OnOk result (items.new.items ≡ items.old.items ++ item_once shown.now ∷ []) }
{
    text.extend_from_slice(shown.arrowed())?;
    items.push(shown.item(alloc)?)?;
    Ok(())
}

/// Adds a value to the text and to the items of its list.
pub(crate) fn add_value(
    alloc: Global,
    value: Int,
    values: &mut Values,
    text: &mut Vec<u8>,
    items: &mut Vec<Item>,
) -> Result<(), Memory>
    ensures text { OnOk result (text.new.items ≡ text.old.items ++ arrowed value) }
    ensures items { OnOk result (items.new.items ≡ items.old.items ++ item_once value ∷ []) }
{
    let place = place_of(alloc, value, values)?;
    add_shown(alloc, &values.shown[place], text, items)
}
