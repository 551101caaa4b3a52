//! Connections of this machine to itself.
use cov_base::{Door, Failed, Link};
use cov_net::{TcpDoor, TcpLink};
use std::io;
use std::io::{Error, ErrorKind};
use std::net::{OpenListener, SocketAddr, TcpListener, TcpStream};
use std::process::Abort;
use std::test::Fail;

/// One write to a link through the bound.
fn say<L: Link>(link: &mut L) -> Result<usize, Failed> {
    link.write(b"text")
}

/// The next link through the bound.
fn enter<D: Door>(door: &mut D) -> Result<D::Wire, Failed> {
    door.accept()
}

/// Reads with room for three bytes through the bound.
fn expect_text<L: Link>(rt: &impl Abort, link: &mut L) {
    for expected in ["tex", "t", ""] {
        let mut room = [0u8; 3];
        assert!(rt; link.read(&mut room) == Ok(expected.len()));
        assert!(rt; &room[..expected.len()] == expected.as_bytes());
    }
}

#[test]
fn doors_hand_out_connections(rt: HostRuntime) -> Result<(), Fail> {
    let listener = TcpListener::bind(&rt, "127.0.0.1:0")?;
    let mut door = TcpDoor::new(&listener);
    let mut far = TcpLink::new(TcpStream::connect(&rt, listener.local_addr()?)?);
    let mut near = enter(&mut door)?;
    assert!(rt; say(&mut far) == Ok(4));
    drop(far);
    expect_text(&rt, &mut near);
    Ok(())
}

/// A listener of which the connection from one port was given up before it was taken.
#[derive(Drop)]
struct GivenUp<'a, L> {
    listener: &'a L,
    port: u16,
}

impl<L: OpenListener> OpenListener for GivenUp<'_, L> {
    type Stream = L::Stream;

    fn accept(&self) -> io::Result<(L::Stream, SocketAddr)> {
        let (stream, from) = self.listener.accept()?;
        if from.port() == self.port {
            return Err(Error::from(ErrorKind::ConnectionAborted));
        }
        Ok((stream, from))
    }
}

#[test]
fn doors_pass_over_what_was_given_up(rt: HostRuntime) -> Result<(), Fail> {
    let listener = TcpListener::bind(&rt, "127.0.0.1:0")?;
    let gone = TcpStream::connect(&rt, listener.local_addr()?)?;
    let mut far = TcpLink::new(TcpStream::connect(&rt, listener.local_addr()?)?);
    let port = gone.local_addr()?.port();
    let given_up = GivenUp {
        listener: &listener,
        port,
    };
    let mut door = TcpDoor::new(&given_up);
    let mut near = enter(&mut door)?;
    assert!(rt; say(&mut far) == Ok(4));
    drop(far);
    expect_text(&rt, &mut near);
    Ok(())
}

/// A listener that can't accept.
#[derive(Drop)]
struct Broken;

impl OpenListener for Broken {
    type Stream = TcpStream;

    fn accept(&self) -> io::Result<(TcpStream, SocketAddr)> {
        Err(Error::from(ErrorKind::InvalidInput))
    }
}

#[test]
fn doors_fail_where_the_listener_does(rt: HostRuntime) -> Result<(), Fail> {
    let broken = Broken;
    let mut door = TcpDoor::new(&broken);
    let entered = enter(&mut door);
    assert!(rt; entered.is_err());
    Ok(())
}
