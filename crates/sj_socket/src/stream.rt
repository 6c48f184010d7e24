//! Streams of this machine's own address.
ghost use Rattle.std.specs.Prelude.{◌≡◌, IfOk};
ghost use Rattle.sj_socket.specs.Loopback.{IsLoopback};

use mio::net::{TcpListener, TcpStream};
use std::io;
use std::io::ErrorKind;
use std::net::{IpAddr, Ipv4Addr, Net, SocketAddr};

/// So many tries in vain are a fault.
const TRIES: u32 = 1_000_000;

/// The one address that is bound or reached, with that port. The system chooses a port in place of 0.
fn loopback(port: u16) -> SocketAddr
    ensures { IsLoopback port result }
{
    SocketAddr::new(IpAddr::V4(Ipv4Addr::new(127, 0, 0, 1)), port)
}

/// Whether a call only found nothing to do.
pub(crate) fn is_in_vain(error: &io::Error) -> bool {
    matches!(error.kind(), ErrorKind::WouldBlock | ErrorKind::Interrupted)
}

/// The end of the stream that comes from that address, and the address. A stream from another one is
/// closed, and counts as a try.
pub(crate) fn accept(
    listener: &TcpListener,
    from: SocketAddr,
    tries: u32,
) -> io::Result<(TcpStream, SocketAddr)>
    ensures { IfOk result (λ x. x.1 ≡ from) }
{
    for _ in 0..tries {
        match listener.accept() {
            Ok((far, peer)) => {
                if peer == from {
                    return Ok((far, peer));
                }
            }
            Err(error) => {
                if !is_in_vain(&error) {
                    return Err(error);
                }
            }
        }
    }
    Err(io::Error::from(ErrorKind::TimedOut))
}

/// A listener at a port of the system's choice.
pub(crate) fn listen<R: Net>(net: &R) -> io::Result<(TcpListener, u16)> {
    let listener = TcpListener::bind(net, loopback(0))?;
    let port = listener.local_addr()?.port();
    Ok((listener, port))
}

/// A stream to that port, and the address that its other end sees.
pub(crate) fn connect<R: Net>(net: &R, port: u16) -> io::Result<(TcpStream, SocketAddr)> {
    let near = TcpStream::connect(net, loopback(port))?;
    let from = near.local_addr()?;
    Ok((near, from))
}

/// An end of a stream, with the address of the end on which is written.
pub(crate) type StreamEnd = (TcpStream, SocketAddr);

/// The two ends of a new stream: what is written to the first is read from the second.
pub(crate) fn both_ends<R: Net>(net: &R) -> io::Result<(StreamEnd, StreamEnd)>
    ensures { IfOk result (λ e. e.1.1 ≡ e.0.1) }
{
    let (listener, port) = listen(net)?;
    let near = connect(net, port)?;
    let far = accept(&listener, near.1, TRIES)?;
    near.0.set_nodelay(true)?;
    Ok((near, far))
}
