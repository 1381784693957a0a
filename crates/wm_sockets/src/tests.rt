//! Links, socket files, listeners and the clock, each over the real system.
use crate::{RealClock, SocketFile, UnixLink, UnixListen};
use std::alloc::Global;
use std::io::ErrorKind;
use std::net::Net;
use std::os::unix::fs::PermissionsExt;
use std::os::unix::net::UnixStream;
use std::process::Abort;
use std::rt::Files;
use std::test::*;
use std::time::Duration;
use std::{env, fs, io, thread};
use wm_ports::{Accepted, Clock, Link, Listen, Received, SendFault};

/// The value, which may go to another thread.
fn moved<T: Send>(value: T) -> T {
    value
}

/// Two links, each to the other.
fn joined(rt: &HostRuntime) -> io::Result<(UnixLink, UnixLink)> {
    let (first, second) = UnixStream::pair(rt)?;
    Ok((moved(UnixLink::new(first)?), moved(UnixLink::new(second)?)))
}

#[test]
fn links_carry_bytes_and_count_faults(rt: HostRuntime) -> io::Result<()> {
    let mut room = [0; 8];
    let (mut link, mut peer) = joined(&rt)?;
    assert_eq!(rt; link.receive(&mut room), Received::Quiet);
    assert_eq!(rt; peer.send(b"words"), Ok(5));
    assert_eq!(rt; link.receive(&mut room), Received::Got(5));
    assert_eq!(rt; &room[..5], b"words".as_slice());
    assert_eq!(rt; link.send(b"back"), Ok(4));
    assert_eq!(rt; peer.receive(&mut room), Received::Got(4));
    drop(peer);
    assert_eq!(rt; link.receive(&mut room), Received::End);
    assert_eq!(rt; link.faults, 0);
    assert_eq!(rt; link.send(b"more"), Err(SendFault::Failed));
    assert_eq!(rt; link.faults, 1);

    let (mut link, peer) = joined(&rt)?;
    link.stream
        .set_write_timeout(Some(Duration::from_millis(30)))?;
    let words = [0; 4096];
    let taken = (0..4096u32)
        .take_while(|_| link.send(&words).is_ok())
        .count();
    assert!(rt;
        0 < taken && taken < 4096,
        "a peer that does not read takes {taken} times"
    );
    assert_eq!(rt; link.faults, 1);
    drop(peer);
    assert_eq!(rt; link.receive(&mut room), Received::Failed);
    assert_eq!(rt; link.faults, 2);
    Ok(())
}

/// Expects a link, to a peer that said this.
fn expect_word(rt: &impl Abort, listen: &mut UnixListen, word: &[u8]) {
    let mut room = [0; 8];
    match listen.accept() {
        Accepted::Link(mut link) => {
            let got = match link.receive(&mut room) {
                Received::Got(n) => n.min(8),
                _ => 0,
            };
            assert_eq!(rt; &room[..got], word);
            listen.give_back(link);
        }
        Accepted::Quiet => assert!(rt; false, "no link in place of {word:?}"),
        Accepted::Failed => assert!(rt; false, "a fault in place of {word:?}"),
    }
}

/// Expects that no link comes, and so many faults.
fn expect_none(rt: &impl Abort, listen: &mut UnixListen, faults: u64) {
    let other = listen.accept();
    assert_eq!(rt; matches!(&other, Accepted::Failed), faults != 0);
    assert_eq!(rt; matches!(&other, Accepted::Quiet), faults == 0);
    assert_eq!(rt; listen.faults, faults);
}

/// Expects that no socket can be put at the path, and that the error is of this kind.
fn expect_refused<R: Abort + Files + Net>(rt: &R, alloc: Global, path: &str, kind: ErrorKind) {
    let refused = SocketFile::bind(rt, alloc, path).map(drop);
    assert_eq!(rt; refused.map_err(|error| error.kind()), Err(kind));
}

/// A file that is no socket is left alone.
fn leave_other_files<R: Abort + Files + Net>(rt: &R, alloc: Global, path: &str) -> io::Result<()> {
    fs::write(rt, path, "kept")?;
    expect_refused(rt, alloc, path, ErrorKind::AlreadyExists);
    assert_eq!(rt; fs::metadata(rt, path)?.len(), 4);
    fs::remove_file(rt, path)
}

/// A server whose file only the owner may use, and which leaves its file behind. A second one does not come beside it.
fn serve<R: Abort + Files + Net>(rt: &R, alloc: Global, path: &str) -> io::Result<()> {
    let file = SocketFile::bind(rt, alloc, path)?;
    let mode = fs::metadata(rt, path)?.permissions().mode();
    assert_eq!(rt; mode & 0o777, 0o600);
    let mut listen = moved(file.listen(rt, alloc)?);
    expect_none(rt, &mut listen, 0);
    let mut client = UnixLink::new(UnixStream::connect(rt, path)?)?;
    assert_eq!(rt; client.send(b"hello"), Ok(5));
    expect_word(rt, &mut listen.try_clone(rt, alloc)?, b"hello");
    expect_refused(rt, alloc, path, ErrorKind::AddrInUse);
    expect_word(rt, &mut listen, b"");
    Ok(())
}

/// The file that an ended server left is replaced, and each server removes no file but its own.
fn replace<R: Abort + Files + Net>(rt: &R, alloc: Global, path: &str) -> io::Result<()> {
    let first = SocketFile::bind(rt, alloc, path)?;
    fs::remove_file(rt, path)?;
    let second = SocketFile::bind(rt, alloc, path)?;
    first.remove(rt)?;
    assert!(rt; fs::exists(rt, path)?);
    second.remove(rt)?;
    assert!(rt; !fs::exists(rt, path)?);
    second.remove(rt)
}

#[test]
fn a_socket_file_is_its_owners_and_goes_with_its_server(rt: HostRuntime) -> io::Result<()> {
    let alloc = rt.alloc();
    let number = std::process::id(rt.process());
    let mut folder = env::temp_dir(&rt)?;
    folder.push(format!(in alloc; "wm_sockets-{number}")?)?;
    // One that a broken run left.
    let _ = fs::remove_dir_all(&rt, folder.as_path());
    fs::create_dir(&rt, folder.as_path())?;
    let path = folder.join(alloc, "ipc")?;
    leave_other_files(&rt, alloc, path.as_str())?;
    serve(&rt, alloc, path.as_str())?;
    replace(&rt, alloc, path.as_str())?;
    fs::remove_dir(&rt, folder.as_path())
}

#[test]
fn a_clock_goes_on_and_no_socket_fails(rt: HostRuntime) -> io::Result<()> {
    let mut clock = moved(RealClock::new(&rt)?);
    let first = clock.now_ms();
    thread::sleep(&rt, Duration::from_millis(20));
    let then = clock.now_ms();
    assert!(rt;
        first < 10_000 && first + 20 <= then && then < 10_000,
        "{first} {then}"
    );

    let mut listen = UnixListen::without_socket();
    expect_none(&rt, &mut listen, 1);
    expect_none(&rt, &mut listen.try_clone(&rt, rt.alloc())?, 1);
    Ok(())
}
