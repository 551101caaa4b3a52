//! Ways to harm a journal of three items.
use crate::answers::{Answers, NONE, ask, show, show_answers};
use crate::made::{CONTENTS, Made, has_none, make_journal, opened, put};
use std::alloc::Global;
use std::io::Print;

/// The bits of a byte.
const BITS: [u8; 8] = [1, 2, 4, 8, 16, 32, 64, 128];

/// Counts the answers with one bit turned, of each byte.
fn ask_turned(alloc: Global, answers: &mut Answers, bytes: &mut Vec<u8>, sums: &[u8], at: usize) {
    for bit in BITS {
        if at < bytes.len() {
            bytes[at] ^= bit;
            ask(alloc, answers, bytes.as_slice(), sums);
            bytes[at] ^= bit;
        }
    }
}

/// A cut at each byte.
pub(crate) fn cut<R: Print>(rt: &R, alloc: Global) {
    let Some(made) = make_journal(alloc) else {
        return
    };
    let mut answers = NONE;
    for len in 0..made.bytes.len() + 1 {
        ask(
            alloc,
            &mut answers,
            &made.bytes.as_slice()[..len],
            made.sums.as_slice(),
        );
    }
    show_answers(rt, &answers);
}

/// Which cuts leave no byte.
pub(crate) fn empty<R: Print>(rt: &R, alloc: Global) {
    let Some(made) = make_journal(alloc) else {
        return
    };
    let mut empty = 0u64;
    let mut other = 0u64;
    for len in 0..made.bytes.len() + 1 {
        match has_none(alloc, &made.bytes.as_slice()[..len]) {
            Some(true) => empty = empty.saturating_add(1),
            Some(false) => other = other.saturating_add(1),
            None => {}
        }
    }
    show(rt, "empty", empty);
    show(rt, "other", other);
}

/// Each bit turned.
pub(crate) fn turned<R: Print>(rt: &R, alloc: Global) {
    let Some(mut made) = make_journal(alloc) else {
        return
    };
    let mut answers = NONE;
    for at in 0..made.bytes.len() {
        ask_turned(
            alloc,
            &mut answers,
            &mut made.bytes,
            made.sums.as_slice(),
            at,
        );
    }
    show_answers(rt, &answers);
}

/// Whether the missing sums are those behind the whole ones that are left.
fn makes_up(alloc: Global, made: &Made, len: usize) -> bool {
    let sums = made.sums.as_slice();
    if len > sums.len() {
        return false;
    }
    match opened(alloc, made.bytes.as_slice(), &sums[..len]) {
        Ok(found) => found.missing.as_slice() == &sums[len / 32 * 32..],
        Err(_) => false,
    }
}

/// A cut of the sums at each byte, and one and two sums too many.
pub(crate) fn sums_cut<R: Print>(rt: &R, alloc: Global) {
    let Some(mut made) = make_journal(alloc) else {
        return
    };
    let mut right = 0u64;
    for len in 0..made.sums.len() + 1 {
        if makes_up(alloc, &made, len) {
            right = right.saturating_add(1);
        }
    }
    show(rt, "made up", right);
    for _ in 0..2 {
        let mut answers = NONE;
        let _ = made.sums.extend_from_slice(&[9; 32]);
        ask(
            alloc,
            &mut answers,
            made.bytes.as_slice(),
            made.sums.as_slice(),
        );
        show_answers(rt, &answers);
    }
}

/// Each bit of the sums turned.
pub(crate) fn sums_turned<R: Print>(rt: &R, alloc: Global) {
    let Some(mut made) = make_journal(alloc) else {
        return
    };
    let mut answers = NONE;
    for at in 0..made.sums.len() {
        for bit in BITS {
            if at < made.sums.len() {
                made.sums[at] ^= bit;
                ask(
                    alloc,
                    &mut answers,
                    made.bytes.as_slice(),
                    made.sums.as_slice(),
                );
                made.sums[at] ^= bit;
            }
        }
    }
    show_answers(rt, &answers);
}

/// A crash before the first sync of one item more: any length up to the written end, with bytes as they were written, or
/// others.
pub(crate) fn torn<R: Print>(rt: &R, alloc: Global) {
    let Some(made) = make_journal(alloc) else {
        return
    };
    let Some((mut bytes, _, _)) = put(alloc, made.bytes.as_slice(), CONTENTS[3], u64::MAX) else {
        return;
    };
    let first = made.bytes.len();
    if first == 0 || bytes.len() < first {
        return;
    }
    bytes[first - 1] = 0;
    let mut answers = NONE;
    for len in first..bytes.len() + 1 {
        ask(
            alloc,
            &mut answers,
            &bytes.as_slice()[..len],
            made.sums.as_slice(),
        );
    }
    for junk in [0, 1, 255] {
        for at in first..bytes.len() {
            bytes[at] = junk;
        }
        for len in first..bytes.len() + 1 {
            ask(
                alloc,
                &mut answers,
                &bytes.as_slice()[..len],
                made.sums.as_slice(),
            );
        }
    }
    show_answers(rt, &answers);
}

/// A crash while the gate of one item more is opened: any byte in its place.
pub(crate) fn gate<R: Print>(rt: &R, alloc: Global) {
    let Some(made) = make_journal(alloc) else {
        return
    };
    let Some((mut bytes, _, _)) = put(alloc, made.bytes.as_slice(), CONTENTS[3], u64::MAX) else {
        return;
    };
    let at = made.bytes.len();
    let mut answers = NONE;
    for byte in 0..=255 {
        if at > 0 && at <= bytes.len() {
            bytes[at - 1] = byte;
        }
        ask(alloc, &mut answers, bytes.as_slice(), made.sums.as_slice());
    }
    show_answers(rt, &answers);
}

/// One item more, where each call of opening and of putting it there fails in turn: 14 and 6, and then none.
pub(crate) fn failing<R: Print>(rt: &R, alloc: Global) {
    let Some(made) = make_journal(alloc) else {
        return
    };
    let mut answers = NONE;
    let mut answered = 0u64;
    for call in 0..21 {
        if let Some((bytes, _, done)) = put(alloc, made.bytes.as_slice(), CONTENTS[3], call) {
            ask(alloc, &mut answers, bytes.as_slice(), made.sums.as_slice());
            if done {
                answered = answered.saturating_add(1);
            }
        }
    }
    show_answers(rt, &answers);
    show(rt, "answered", answered);
}
