//! The names of the rows: signals, an enumeration's constant k, a formal f and `item`.
use bit_width::Width;
use const_eval::{Meaning, Scope, Typ};
use cov_base::Int;
use cov_tree::{List, Name};
use std::alloc::Global;

/// A signal: its name, width, sign, the low end of its span, and its value.
struct Signal {
    name: u8,
    width: u8,
    signed: bool,
    low: u8,
    value: &'static str,
}

static SIGNALS: [Signal; 9] = [
    Signal {
        name: b'a',
        width: 4,
        signed: false,
        low: 0,
        value: "9",
    },
    Signal {
        name: b'b',
        width: 4,
        signed: false,
        low: 0,
        value: "8",
    },
    Signal {
        name: b'c',
        width: 4,
        signed: true,
        low: 0,
        value: "-3",
    },
    Signal {
        name: b'd',
        width: 8,
        signed: true,
        low: 0,
        value: "-100",
    },
    Signal {
        name: b'e',
        width: 8,
        signed: false,
        low: 0,
        value: "200",
    },
    Signal {
        name: b'u',
        width: 4,
        signed: false,
        low: 0,
        value: "x",
    },
    Signal {
        name: b'w',
        width: 64,
        signed: false,
        low: 0,
        value: "18446744073709551615",
    },
    Signal {
        name: b'x',
        width: 64,
        signed: true,
        low: 0,
        value: "-9223372036854775808",
    },
    Signal {
        name: b'p',
        width: 8,
        signed: false,
        low: 4,
        value: "165",
    },
];

/// The number of a text; None where it is none.
fn number(text: &str) -> Option<Int> {
    Int::new(text.parse::<i128>().ok()?)
}

/// The values of the signals.
pub fn signals(alloc: Global) -> Option<Vec<Option<Int>>> {
    let mut values = Vec::new(alloc);
    for signal in &SIGNALS {
        values.push(number(signal.value)).ok()?;
    }
    Some(values)
}

/// Adds the name of a signal.
fn add_name(
    alloc: Global,
    names: &mut List<(Name, Meaning)>,
    index: u16,
    signal: &Signal,
) -> Option<()> {
    let typ = Typ::of(Width::new(signal.width)?, signal.signed);
    let meaning = Meaning::Signal {
        index,
        typ,
        low: signal.low,
    };
    let name = Name::of(alloc, &[signal.name]).ok()?;
    names.push((name, meaning)).ok()
}

/// The signals by their names, and each once more with another index, which doesn't count.
fn signal_names(alloc: Global) -> Option<List<(Name, Meaning)>> {
    let mut names = List::new(alloc);
    let mut index = 0u16;
    for signal in &SIGNALS {
        add_name(alloc, &mut names, index, signal)?;
        add_name(alloc, &mut names, 99, signal)?;
        index = index.wrapping_add(1);
    }
    Some(names)
}

/// Adds the constant k, which is 2, among the outer names, and the formal f, which is 44, among the inner ones.
fn add_constants(alloc: Global, scope: &mut Scope) -> Option<()> {
    let value = Int::new(2)?;
    let typ = Typ::of(Width::of(32), true);
    let low = None;
    let name = Name::of(alloc, b"k").ok()?;
    scope
        .declare(name, Meaning::Const { value, typ, low })
        .ok()?;
    let value = Int::new(44)?;
    let typ = Typ::of(Width::of(6), false);
    let low = Some(2);
    let name = Name::of(alloc, b"f").ok()?;
    scope
        .declare_inner(name, Meaning::Const { value, typ, low })
        .ok()?;
    Some(())
}

/// All names; `item` has three bits and a sign.
pub fn scope(alloc: Global) -> Option<Scope> {
    let mut scope = Scope::of(alloc, signal_names(alloc)?).ok()?;
    scope.set_item(Some(Typ::of(Width::of(3), true)));
    add_constants(alloc, &mut scope)?;
    Some(scope)
}
