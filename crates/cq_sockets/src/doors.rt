ghost use Rattle.std.specs.Prelude.{◌≡◌, None, Some};

use cq_base::Text;
use cq_io::{Doors, Failed, StdSink, StdSource};
use std::io::ErrorKind;
use std::net::{Net, TcpListener, TcpStream};
use std::{io, str};

// A socket that listens, and the address at which it was asked to.
#[derive(Drop)]
struct Listening {
    address: Text,
    listener: TcpListener,
}

/// Connections of TCP, as many as were stated, and then no more. A call that was interrupted is made again, and so is one
/// that reports what happened to a connection before it was accepted. A connection is dropped if too many files are open for
/// a second handle on it, and the next one is waited for. Any other failure is a fault of the doors: an address that can't be
/// bound or is none, and a connection for which the operating system has no room. What happens to a connection later is a
/// fault of its own source or sink. Its replies are sent at once, and none waits for another to be acknowledged.
#[derive(Drop)]
pub struct TcpDoors<'a, R> {
    net: &'a R,
    listening: Option<Listening>,
    left: u32,
    faults: u64,
}

impl<'a, R> TcpDoors<'a, R> {
    ghost use Rattle.cq_sockets.specs.Doors.{bound_of, left_of, door_faults};

    /// Doors that listen nowhere yet, for so many connections.
    pub fn new(net: &'a R, connections: u32) -> TcpDoors<'a, R>
        ensures unbound { bound_of result ≡ None }
        ensures left { left_of result ≡ Some connections }
        ensures faults { door_faults result ≡ 0 }
    {
        TcpDoors {
            net,
            listening: None,
            left: connections,
            faults: 0,
        }
    }
}

// A socket that listens at the address, unless that is none or can't be had.
fn listener_at<R: Net<Listener = TcpListener, Stream = TcpStream>>(
    net: &R,
    address: &Text,
) -> Option<TcpListener> {
    let text = str::from_utf8(address.as_bytes()).ok()?;
    TcpListener::bind(net, text).ok()
}

// Linux's numbers of errors for which `ErrorKind` has no variant of their own.
const ENONET: i32 = 64;

const EPROTO: i32 = 71;

const ENOPROTOOPT: i32 = 92;

const EOPNOTSUPP: i32 = 95;

const EHOSTDOWN: i32 = 112;

// Whether `accept` may succeed when it is called again: it was interrupted, or it reports an error of the network that was
// pending on the new connection. accept(2) of Linux lists these, and says to treat them so.
fn is_passing(error: &io::Error) -> bool {
    matches!(
        error.kind(),
        ErrorKind::Interrupted
            | ErrorKind::ConnectionAborted
            | ErrorKind::ConnectionReset
            | ErrorKind::NetworkDown
            | ErrorKind::NetworkUnreachable
            | ErrorKind::HostUnreachable
    ) || matches!(
        error.raw_os_error(),
        Some(ENONET | EPROTO | ENOPROTOOPT | EOPNOTSUPP | EHOSTDOWN)
    )
}

// A connection for a reader and for a writer, unless too many files are open for a second handle on it.
fn ends_of(stream: TcpStream) -> Option<(TcpStream, TcpStream)> {
    // If it can't be set, replies are only slower.
    let _ = stream.set_nodelay(true);
    let reader = stream.try_clone().ok()?;
    Some((reader, stream))
}

// The next connection. One that has only one handle is dropped, and the next one is waited for.
fn next_ends(listener: &TcpListener) -> Option<(TcpStream, TcpStream)> {
    for _ in 0..u64::MAX {
        match listener.accept() {
            Ok((stream, _)) => {
                let ends = ends_of(stream);
                if ends.is_some() {
                    return ends;
                }
            }
            Err(error) => {
                if !is_passing(&error) {
                    return None;
                }
            }
        }
    }
    None
}

impl<'a, R: Net<Listener = TcpListener, Stream = TcpStream>> Doors for TcpDoors<'a, R> {
    type In = StdSource<TcpStream>;

    type Out = StdSink<TcpStream>;

    ghost use Rattle.cq_sockets.specs.Doors.{bound_of, left_of, door_faults};

    ghost faults = { door_faults };

    ghost bound = { bound_of };

    ghost left = { left_of };

    fn bind(&mut self, addr: Text) -> Result<(), Failed> {
        let Some(listener) = listener_at(self.net, &addr) else {
            self.faults = self.faults.saturating_add(1);
            return Err(Failed);
        };
        self.listening = Some(Listening {
            address: addr,
            listener,
        });
        Ok(())
    }

    fn next_door(&mut self) -> Result<Option<(StdSource<TcpStream>, StdSink<TcpStream>)>, Failed> {
        if self.left == 0 {
            return Ok(None);
        }
        let Some(listening) = &self.listening else {
            unreachable!()
        };
        let Some((reader, writer)) = next_ends(&listening.listener) else {
            self.faults = self.faults.saturating_add(1);
            return Err(Failed);
        };
        self.left -= 1;
        Ok(Some((StdSource::new(reader), StdSink::new(writer))))
    }
}
