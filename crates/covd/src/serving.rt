//! The command `serve`.
ghost use Rattle.std.specs.Prelude.{◌≡◌, ◌≤◌, length, map, string_bytes, IfOk};
ghost use Rattle.turn_lock.specs.Seats.{free, left};
ghost use Rattle.cov_workers.specs.Sound.{IsSound};
ghost use Rattle.cov_workers.specs.Stores.{opening_of};
ghost use Rattle.cov_workers.specs.Shares.{HasSeat};
ghost use Rattle.covd_core.specs.Starts.{IsServable};
ghost use Rattle.covd.specs.Serving.{is_serve, built};

use cov_base::Pair;
use cov_net::{FileShelf, StdSink, StdSource};
use cov_workers::{Shared, Store, open, serve_store};
use covd_core::{Compiled, ServeWords, Status, serve_start, serve_words};
use covd_hints::{print_address_hint, print_hint};
use std::alloc::Global;
use std::io;
use std::net::{Net, TcpListener, TcpStream};
use std::rt::Files;
use std::sync::Wait;
use std::thread::Threads;
use turn_lock::Seat;

/// Whether the words are those of the server.
pub(crate) fn is_serve(words: &[String]) -> bool
    ensures { result ≡ is_serve (map string_bytes words.now) }
{
    match words.first() {
        Some(word) => word.as_str() == "serve",
        None => false,
    }
}

/// The words, or none where they ask for what isn't built: a journal, or readers.
fn built(words: &[String]) -> &[String]
    ensures { map string_bytes result.now ≡ built (map string_bytes words.now) }
{
    match serve_words(words) {
        Some(said) if said.journal.is_some() || said.readers.is_some() => &[],
        _ => words,
    }
}

/// What the words say, and their design; or the status, whose line was printed.
fn begun<R: Files + Print>(
    rt: &R,
    alloc: Global,
    words: &[String],
) -> Result<(ServeWords, Compiled), Status>
    ensures servable { IfOk result (λ p. IsServable (length words.now) p.0) }
{
    let mut shelf = FileShelf::new(rt);
    let mut source = StdSource::new(io::empty());
    let mut sink = StdSink::new(io::writer(rt));
    let mut link = Pair {
        source: &mut source,
        sink: &mut sink,
    };
    serve_start(alloc, words, &mut shelf, &mut link)
}

/// Prints at which address the server listens: the one that is bound, whose port the system chose where the words have 0.
fn announce<R: Print>(rt: &R, listener: &TcpListener, address: &str) -> io::Result<()> {
    match listener.local_addr() {
        Ok(bound) => println!(rt; "listening {bound}"),
        Err(_) => println!(rt; "listening {address}"),
    }
}

/// Serves the listener's connections by so many workers, each with a seat of its own, until all of them have ended.
fn listen<R: Threads + Wait + Sync + Print + AllocGlobal>(
    rt: &R,
    listener: &TcpListener,
    address: &str,
    shared: &Shared<Store>,
    seat: &mut Seat<Store>,
    workers: u32,
) -> Status
    requires seat { HasSeat opening_of IsSound shared.now seat.old }
    requires room { (workers ≤ free seat.old) × (workers ≤ left seat.old) }
{
    if announce(rt, listener, address).is_err() {
        return Status::WriteFault;
    }
    match serve_store(rt, rt.alloc(), listener, shared, seat, workers, u64::MAX) {
        Ok(()) => Status::NoWorker,
        Err(_) => Status::Memory,
    }
}

/// Serves until every worker has ended, and says with which status the program ends.
pub(crate) fn serve<R>(rt: &R, words: &[String]) -> Status
where
    R: Threads
        + Wait
        + Sync
        + Net<Listener = TcpListener, Stream = TcpStream>
        + Files
        + Print
        + Eprint
        + AllocGlobal,
{
    let asked = built(words);
    let (said, compiled) = match begun(rt, rt.alloc(), asked) {
        Ok(begun) => begun,
        Err(status) => {
            print_hint(rt, words, status);
            return status;
        }
    };
    let Ok(design) = compiled.design().clone() else {
        return Status::Memory;
    };
    // one seat for each worker, and one that splits them off
    let Ok((shared, mut seat)) = open(rt.alloc(), design, said.seats + 1) else {
        return Status::Memory;
    };
    let address = asked[said.listen as usize].as_str();
    let status = match TcpListener::bind(rt, address) {
        Ok(listener) => listen(rt, &listener, address, &shared, &mut seat, said.seats),
        Err(error) => {
            print_address_hint(rt, address, &error);
            Status::NoWorker
        }
    };
    shared.leave(seat);
    status
}
