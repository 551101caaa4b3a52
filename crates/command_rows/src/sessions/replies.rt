//! The replies of a session.
use crate::words::{say, show, show_number};
use cov_proto::{FrameStep, next_frame};
use cov_workers::Ended;
use std::alloc::Global;
use std::io::Print;

/// The body of the first reply, and what stands behind it; None where there is no whole one.
fn first_reply(written: &[u8]) -> Option<(&[u8], &[u8])> {
    match next_frame(written) {
        FrameStep::Body { len } => Some(written[4..].split_at(len as usize)),
        _ => None,
    }
}

/// Writes bytes in hexadecimal.
fn show_bytes<R: Print>(rt: &R, alloc: Global, what: &str, bytes: &[u8]) {
    if let Ok(digits) = hex::encode(alloc, bytes) {
        show(rt, what, digits.as_str());
    }
}

/// Writes the body of each reply, and answers what is behind them.
fn show_whole<'a, R: Print>(rt: &R, alloc: Global, written: &'a [u8]) -> &'a [u8] {
    let mut rest = written;
    for _ in 0..written.len() {
        let Some((body, behind)) = first_reply(rest) else {
            return rest;
        };
        show_bytes(rt, alloc, "reply", body);
        rest = behind;
    }
    rest
}

/// Writes the body of each reply, and what is behind them.
pub(crate) fn show_replies<R: Print>(rt: &R, alloc: Global, written: &[u8]) {
    let rest = show_whole(rt, alloc, written);
    if !rest.is_empty() {
        show_bytes(rt, alloc, "rest", rest);
    }
}

/// How many replies there are.
fn replies_in(written: &[u8]) -> u64 {
    let mut rest = written;
    for count in 0..u64::MAX {
        let Some((_, behind)) = first_reply(rest) else {
            return count;
        };
        rest = behind;
    }
    u64::MAX
}

/// What stands behind so many replies.
fn behind_replies(written: &[u8], count: u64) -> &[u8] {
    let mut rest = written;
    for _ in 0..count {
        let Some((_, behind)) = first_reply(rest) else {
            return rest;
        };
        rest = behind;
    }
    rest
}

/// Writes how many replies there are, and so many of the last.
pub(crate) fn show_last<R: Print>(rt: &R, alloc: Global, written: &[u8], shown: u64) {
    let count = replies_in(written);
    show_number(rt, "replies", count);
    let last = behind_replies(written, count.saturating_sub(shown));
    show_replies(rt, alloc, last);
}

/// The words for an end.
fn ended_word(ended: Ended) -> &'static str {
    match ended {
        Ended::Bye => "Bye",
        Ended::InputEnd => "InputEnd",
        Ended::TornFrame => "TornFrame",
        Ended::FrameTooLong { .. } => "FrameTooLong",
        Ended::SessionTooLong => "SessionTooLong",
        Ended::ReadFault => "ReadFault",
        Ended::WriteFault => "WriteFault",
        Ended::Memory => "Memory",
    }
}

/// Writes the replies, and how the session ended.
pub(crate) fn show_ended<R: Print>(rt: &R, alloc: Global, written: Option<&[u8]>, ended: Ended) {
    show_replies(rt, alloc, written.unwrap_or(b""));
    show(rt, "ended", ended_word(ended));
}

/// Writes what a caller was answered, and how its session ended.
pub(crate) fn show_caller<R: Print>(
    rt: &R,
    alloc: Global,
    who: &str,
    written: Option<&[u8]>,
    ended: Ended,
) {
    say(rt, who);
    show_ended(rt, alloc, written, ended);
}
