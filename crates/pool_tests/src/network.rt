//! Connections on loopback. Where nothing else is said, a peer connects and writes before the doors are
//! served, and reads behind that: what is sent fits the buffers of the system.
ghost use Rattle.std.specs.Prelude.{◌≡◌, All, IfOk, false, true, vec_len};
ghost use Rattle.rdf_io.specs.Causes.{Rose};

use crate::house::{Came, Ended, LAST_SIZE, NO_CONTENT, post, serve, told};
use rdf_io::{Dial, Door, OpenGate, Source, TcpDial, TcpDoor, send};
use rdf_term::{Memory, Text};
use session::SessionEnd;
use std::alloc::Global;
use std::io::{Read, Write, read_to_string};
use std::net::{Shutdown, TcpListener, TcpStream};
use std::sync::Wait;
use std::test::Fail;
use std::thread::Threads;
use std::{io, thread};
use worker_pool::{DoorStop, RepoCount};

/// How many peers are connected at once.
const PEERS: u32 = 8;

/// How many requests each of them sends.
const REQUESTS: u32 = 100;

const CLOSE: &str = "Connection: close\r\n";

/// So many doors over one listener, each for one connection.
fn doors<'a>(
    alloc: Global,
    listener: &'a TcpListener,
    count: u32,
) -> Result<Vec<TcpDoor<'a>>, Memory>
    ensures count { IfOk result (λ it. vec_len it ≡ count) }
    ensures out { IfOk result (λ it. All (λ d. ⟦<TcpDoor<'a> as Door>⟧.out d ≡ false) it.items) }
{
    let mut doors = Vec::new(alloc);
    for _ in 0..count {
        doors.push(TcpDoor::new(listener, Some(1)))?;
    }
    Ok(doors)
}

/// Serves one connection of a listener.
fn serve_one<R: Threads + Wait + Sync>(
    rt: &R,
    alloc: Global,
    listener: &TcpListener,
) -> Result<Ended, Memory> {
    let mut doors = doors(alloc, listener, 1)?;
    serve(rt, alloc, &mut doors, &OpenGate)
}

/// A listener, and a peer that is connected to it.
fn connected(rt: &HostRuntime) -> io::Result<(TcpListener, TcpStream)> {
    let listener = TcpListener::bind(rt, "127.0.0.1:0")?;
    let peer = TcpStream::connect(rt, listener.local_addr()?)?;
    Ok((listener, peer))
}

/// A POST of one quad, and a request for the size that closes.
fn post_and_size(alloc: Global) -> Result<String, Memory> {
    Ok(format!(in alloc; "{}{LAST_SIZE}", post(alloc, "1")?)?)
}

/// Whether a peer was sent the answers to these two.
fn has_both(alloc: Global, mut peer: TcpStream) -> Result<bool, Fail> {
    let want = format!(in alloc; "{NO_CONTENT}{}", told(alloc, 1, CLOSE)?)?;
    let text = read_to_string(alloc, &mut peer)?;
    Ok(text.as_str() == want.as_str())
}

#[test]
fn requests_in_one_segment(rt: HostRuntime) -> Result<(), Fail> {
    let alloc = rt.alloc();
    let (listener, mut peer) = connected(&rt)?;
    peer.write_all(post_and_size(alloc)?.as_bytes())?;
    let end = serve_one(&rt, alloc, &listener)?;
    assert_eq!(rt; end.doors.as_slice(), [Came::one_session(2)].as_slice());
    assert!(rt; has_both(alloc, peer)?);
    Ok(())
}

/// Sends a text byte by byte.
fn send_slowly(mut peer: TcpStream, text: String) -> io::Result<TcpStream> {
    peer.set_nodelay(true)?;
    for byte in text.as_bytes() {
        peer.write_all(&[*byte])?;
        thread::yield_now();
    }
    Ok(peer)
}

#[test]
fn a_request_byte_by_byte(rt: HostRuntime) -> Result<(), Fail> {
    let alloc = rt.alloc();
    let (listener, peer) = connected(&rt)?;
    let input = post_and_size(alloc)?;
    let Ok(sender) = thread::spawn(&rt, move || send_slowly(peer, input)) else {
        assert!(rt; false, "no thread");
        return Ok(());
    };
    let end = serve_one(&rt, alloc, &listener)?;
    let peer = sender.join(&rt)?;
    assert_eq!(rt; end.doors.as_slice(), [Came::one_session(2)].as_slice());
    assert!(rt; has_both(alloc, peer)?);
    Ok(())
}

/// Sends a POST but for its last bytes.
fn send_part(alloc: Global, peer: &mut TcpStream) -> Result<(), Fail> {
    let input = post(alloc, "1")?;
    let cut = input.len().saturating_sub(5);
    peer.write_all(&input.as_bytes()[..cut])?;
    peer.shutdown(Shutdown::Write)?;
    Ok(())
}

#[test]
fn a_peer_that_closes_in_mid_body(rt: HostRuntime) -> Result<(), Fail> {
    let alloc = rt.alloc();
    let (listener, mut peer) = connected(&rt)?;
    send_part(alloc, &mut peer)?;
    let end = serve_one(&rt, alloc, &listener)?;
    let want = Came {
        stop: DoorStop::Closed,
        sessions: 1,
        end: Some(SessionEnd::Refused),
        answered: 0,
    };
    assert_eq!(rt; end.doors.as_slice(), [want].as_slice());
    let nothing = RepoCount {
        quads: 0,
        commits: 0,
        entries: 0,
    };
    assert_eq!(rt; end.counts.as_slice(), [nothing].as_slice());
    Ok(())
}

/// The requests of a peer: posts of quads of its own, and at last one that closes.
fn requests(alloc: Global, peer: u32) -> Result<String, Memory> {
    let mut text = String::new(alloc);
    for number in 1..REQUESTS {
        let object = format!(in alloc; "{peer} {number}")?;
        text.push_str(post(alloc, object.as_str())?.as_str())?;
    }
    text.push_str(LAST_SIZE)?;
    Ok(text)
}

/// A peer that is connected to a listener, and has sent its requests.
fn busy_peer(rt: &HostRuntime, listener: &TcpListener, number: u32) -> Result<TcpStream, Fail> {
    let alloc = rt.alloc();
    let mut peer = TcpStream::connect(rt, listener.local_addr()?)?;
    peer.write_all(requests(alloc, number)?.as_bytes())?;
    Ok(peer)
}

fn busy_peers(rt: &HostRuntime, listener: &TcpListener) -> Result<Vec<TcpStream>, Fail> {
    let mut peers = Vec::new(rt.alloc());
    for number in 0..PEERS {
        peers.push(busy_peer(rt, listener, number)?)?;
    }
    Ok(peers)
}

/// Whether a peer was sent the answer to each request.
fn has_all(alloc: Global, mut peer: TcpStream) -> io::Result<bool> {
    let text = read_to_string(alloc, &mut peer)?;
    let mut rest = text.as_str();
    for _ in 1..REQUESTS {
        rest = rest.strip_prefix(NO_CONTENT).unwrap_or("");
    }
    Ok(rest.starts_with("HTTP/1.1 200 OK\r\n"))
}

#[test]
fn eight_peers_with_a_hundred_requests_each(rt: HostRuntime) -> Result<(), Fail> {
    let alloc = rt.alloc();
    let listener = TcpListener::bind(&rt, "127.0.0.1:0")?;
    let peers = busy_peers(&rt, &listener)?;
    let mut doors = doors(alloc, &listener, PEERS)?;
    let end = serve(&rt, alloc, &mut doors, &OpenGate)?;
    assert_eq!(rt;
        end.doors.as_slice(),
        [Came::one_session(100); 8].as_slice()
    );
    let want = RepoCount {
        quads: 792,
        commits: 0,
        entries: 800,
    };
    assert_eq!(rt; end.counts.as_slice(), [want].as_slice());
    for peer in peers {
        assert!(rt; has_all(alloc, peer)?);
    }
    Ok(())
}

/// The address of a listener, as a dial is given it.
fn address_of(alloc: Global, listener: &TcpListener) -> Result<Text, Fail> {
    let address = format!(in alloc; "{}", listener.local_addr()?)?;
    Ok(Text::from_chars(alloc, address.as_str())?)
}

/// Takes the next connection of a listener, reads the four bytes of a question, answers, and ends.
fn answer_one(listener: &TcpListener) -> io::Result<(TcpStream, [u8; 4])> {
    let (mut peer, _) = listener.accept()?;
    let mut question = [0; 4];
    peer.read_exact(&mut question)?;
    peer.write_all(b"reply")?;
    peer.shutdown(Shutdown::Write)?;
    Ok((peer, question))
}

#[test]
fn a_dial_gives_a_link_for_one_exchange(rt: HostRuntime) -> Result<(), Fail> {
    let alloc = rt.alloc();
    let listener = TcpListener::bind(&rt, "127.0.0.1:0")?;
    let address = address_of(alloc, &listener)?;
    let mut dial = TcpDial::new(&rt);
    let Ok((mut source, mut sink)) = dial.dial(&address) else {
        assert!(rt; false, "no link");
        return Ok(());
    };
    assert_eq!(rt; send(&mut sink, b"call"), Ok(()));
    let (mut peer, question) = answer_one(&listener)?;
    assert_eq!(rt; question, *b"call");
    let mut answer = [0; 8];
    assert_eq!(rt; source.read(&mut answer), Ok(5));
    assert_eq!(rt; answer, *b"reply\0\0\0");
    assert_eq!(rt; source.read(&mut answer), Ok(0));
    dial.give_back(source, sink);
    // Both ends of the link are closed.
    assert!(rt; read_to_string(alloc, &mut peer)?.is_empty());
    Ok(())
}

/// Whether a dial gives no link to this address. Then it counts the fault, and may be asked again.
fn gives_none<'a>(dial: &mut TcpDial<'a, HostRuntime>, address: &Text) -> bool
    requires { ⟦<TcpDial<'a, HostRuntime> as Dial>⟧.given dial.old ≡ 0 }
    ensures again { result ≡ true → ⟦<TcpDial<'a, HostRuntime> as Dial>⟧.given dial.new ≡ 0 }
    ensures counted { result ≡ true → Rose (⟦<TcpDial<'a, HostRuntime> as Dial>⟧.faults dial.old) (⟦<TcpDial<'a, HostRuntime> as Dial>⟧.faults dial.new) }
{
    dial.dial(address).is_err()
}

/// Texts that are no HOST:PORT.
const NO_ADDRESSES: [&str; 5] = [
    "",
    "127.0.0.1",
    "127.0.0.1:",
    "127.0.0.1:port",
    "127.0.0.1:65536",
];

#[test]
fn a_dial_to_no_address_gives_no_link(rt: HostRuntime) -> Result<(), Fail> {
    for text in NO_ADDRESSES {
        let address = Text::from_chars(rt.alloc(), text)?;
        assert!(rt; gives_none(&mut TcpDial::new(&rt), &address), "{text}");
    }
    Ok(())
}

/// The address of a port on which nobody listens any more.
fn left_address(rt: &HostRuntime) -> Result<Text, Fail> {
    address_of(rt.alloc(), &TcpListener::bind(rt, "127.0.0.1:0")?)
}

#[test]
fn a_dial_is_asked_until_it_gives_a_link(rt: HostRuntime) -> Result<(), Fail> {
    let left = left_address(&rt)?;
    let listener = TcpListener::bind(&rt, "127.0.0.1:0")?;
    let address = address_of(rt.alloc(), &listener)?;
    let mut dial = TcpDial::new(&rt);
    if !gives_none(&mut dial, &left) {
        assert!(rt; false, "a link to nobody");
        return Ok(());
    }
    assert!(rt; dial.dial(&address).is_ok());
    Ok(())
}
