//! Links over TCP.

ghost use Rattle.std.specs.Prelude.{◌≡◌, ◌≤◌, ◌<◌, length, None, IfOk, IfSome};

use cs_base::{Failed, Faults};
use cs_io::{Heard, Link};
use std::io;
use std::io::{ErrorKind, Read, Write};
use std::net::TcpStream;
use std::time::Duration;

/// How long a read waits for bytes, in milliseconds. Whoever reads looks at a stop sign in between.
const READ_WAIT: u64 = 10;

/// How often a write is made again that was interrupted.
const WRITE_TURNS: u32 = 1_000;

/// How long a write waits for a peer that takes nothing, in seconds. Then it is a fault.
const WRITE_WAIT: u64 = 5;

/// A link over TCP. A read waits a short while for bytes. It tells nothing of its bytes.
#[derive(Drop)]
pub struct TcpLink {
    stream: TcpStream,
    faults: Faults,
}

impl TcpLink {
    /// The link of a stream that was accepted or connected.
    pub fn new(stream: TcpStream) -> io::Result<TcpLink>
        ensures { IfOk result (λ link. link.faults ≡ 0) }
    {
        stream.set_nonblocking(false)?;
        stream.set_read_timeout(Some(Duration::from_millis(READ_WAIT)))?;
        stream.set_write_timeout(Some(Duration::from_secs(WRITE_WAIT)))?;
        stream.set_nodelay(true)?;
        Ok(TcpLink {
            stream,
            faults: Faults::new(),
        })
    }

    /// How many faults it had.
    pub fn faults(&self) -> Faults
        ensures { result ≡ self.now.faults }
    {
        self.faults
    }
}

impl Link for TcpLink {
    ghost remaining = { λ _. None };

    ghost idles = { λ _. None };

    ghost written = { λ _. None };

    ghost faults = { λ s. s.faults };

    fn read(&mut self, buffer: &mut [u8]) -> Result<Heard, Failed> {
        if buffer.is_empty() {
            return Ok(Heard::Bytes(0));
        }
        match self.stream.read(buffer) {
            Ok(0) => Ok(Heard::End),
            Ok(count) => Ok(Heard::Bytes(count)),
            Err(error) if is_for_later(&error) => Ok(Heard::Idle),
            Err(_) => {
                self.faults.raise();
                Err(Failed)
            }
        }
    }

    fn write(&mut self, piece: &[u8]) -> Result<usize, Failed> {
        match send(&mut self.stream, piece) {
            Some(count) => Ok(count),
            None => {
                self.faults.raise();
                Err(Failed)
            }
        }
    }
}

/// Writes a beginning of the piece, and at least one of its bytes. A write that was interrupted is made again.
fn send(stream: &mut TcpStream, piece: &[u8]) -> Option<usize>
    ensures within { IfSome result (λ n. n ≤ length piece.now) }
    ensures some { IfSome result (λ n. 0 < length piece.now → 0 < n) }
{
    for _ in 0..WRITE_TURNS {
        match stream.write(piece) {
            Ok(0) if !piece.is_empty() => return None,
            Ok(count) => return Some(count),
            Err(error) if error.kind() == ErrorKind::Interrupted => {}
            Err(_) => return None,
        }
    }
    None
}

/// Whether the call would have to wait, or to be made again.
pub(crate) fn is_for_later(error: &io::Error) -> bool {
    matches!(error.kind(), ErrorKind::WouldBlock | ErrorKind::Interrupted)
}
