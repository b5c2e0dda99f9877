//! Doors over TCP.

ghost use Rattle.std.specs.Prelude.{◌≡◌, None};

use crate::door::Door;
use crate::tcp_link::{TcpLink, is_for_later};
use cs_base::{Failed, Faults};
use std::io;
use std::io::ErrorKind;
use std::net::{SocketAddr, TcpListener};

/// A door over TCP. It waits for nobody, and tells nothing of its links.
#[derive(Drop)]
pub struct TcpDoor {
    listener: TcpListener,
    faults: Faults,
}

impl TcpDoor {
    /// The door of a listener that does not block.
    pub(crate) fn new(listener: TcpListener) -> TcpDoor
        ensures { result.faults ≡ 0 }
    {
        TcpDoor {
            listener,
            faults: Faults::new(),
        }
    }

    /// Where peers find it.
    pub fn address(&self) -> io::Result<SocketAddr> {
        self.listener.local_addr()
    }

    /// How many faults it had.
    pub fn faults(&self) -> Faults
        ensures { result ≡ self.now.faults }
    {
        self.faults
    }
}

impl Door for TcpDoor {
    type Link = TcpLink;

    ghost given = { λ _. None };

    ghost returned = { λ _. None };

    ghost faults = { λ s. s.faults };

    fn next(&mut self) -> Result<Option<TcpLink>, Failed> {
        let Ok(found) = accepted(&self.listener) else {
            self.faults.raise();
            return Err(Failed);
        };
        Ok(found)
    }

    // The stream is closed where it is dropped.
    fn back(&mut self, _link: TcpLink) {}
}

/// The link of a peer that waits. A peer that has gone again does not wait.
fn accepted(listener: &TcpListener) -> io::Result<Option<TcpLink>> {
    match listener.accept() {
        Ok((stream, _)) => Ok(Some(TcpLink::new(stream)?)),
        Err(error) if is_for_later(&error) || error.kind() == ErrorKind::ConnectionAborted => {
            Ok(None)
        }
        Err(error) => Err(error),
    }
}
