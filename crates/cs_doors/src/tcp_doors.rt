//! The doors of all nodes, over TCP.

ghost use Rattle.std.specs.Prelude.{◌≡◌, None};

use crate::doors::Doors;
use crate::tcp_door::TcpDoor;
use cs_base::{Failed, Faults, NodeId};
use std::alloc::Global;
use std::io;
use std::net::{IpAddr, Ipv4Addr, Net, SocketAddr, TcpListener, TcpStream};

/// The listener of a node, from which its doors have theirs.
#[derive(Drop)]
struct Port {
    node: NodeId,
    number: u16,
    listener: TcpListener,
}

/// Doors over TCP, at one address. A port stays open as long as this value lives. It tells nothing of its doors.
#[derive(Drop)]
pub struct TcpDoors<R> {
    runtime: R,
    address: IpAddr,
    ports: Vec<Port>,
    faults: Faults,
}

impl<R: Copy> TcpDoors<R> {
    /// Doors for peers of this machine alone, at 127.0.0.1.
    pub fn new(runtime: R, alloc: Global) -> TcpDoors<R>
        ensures { result.faults ≡ 0 }
    {
        TcpDoors::at(runtime, alloc, IpAddr::V4(Ipv4Addr::LOCALHOST))
    }

    /// Doors at this address.
    pub fn at(runtime: R, alloc: Global, address: IpAddr) -> TcpDoors<R>
        ensures { result.faults ≡ 0 }
    {
        TcpDoors {
            runtime,
            address,
            ports: Vec::new(alloc),
            faults: Faults::new(),
        }
    }

    /// How many faults there were here or at a door that is back.
    pub fn faults(&self) -> Faults
        ensures { result ≡ self.now.faults }
    {
        self.faults
    }
}

impl<R> Doors for TcpDoors<R>
where
    R: Net<Listener = TcpListener, Stream = TcpStream> + Copy,
{
    type Door = TcpDoor;

    ghost given = { λ _. None };

    ghost returned = { λ _. None };

    ghost faults = { λ s. s.faults };

    ghost lends = { λ _. tt };

    fn listen(&mut self, node: NodeId, port: u16) -> Result<TcpDoor, Failed> {
        let address = SocketAddr::new(self.address, port);
        let Ok(listener) = opened(&self.runtime, address, node, &mut self.ports) else {
            self.faults.raise();
            return Err(Failed);
        };
        Ok(TcpDoor::new(listener))
    }

    fn back(&mut self, _node: NodeId, door: TcpDoor) {
        if door.faults().count() > 0 {
            self.faults.raise();
        }
    }
}

/// A listener of the node's port, which is opened where it is not open yet.
fn opened<R>(
    runtime: &R,
    address: SocketAddr,
    node: NodeId,
    ports: &mut Vec<Port>,
) -> io::Result<TcpListener>
where
    R: Net<Listener = TcpListener, Stream = TcpStream>,
{
    for port in ports.iter() {
        if port.node == node && port.number == address.port() {
            return port.listener.try_clone();
        }
    }
    let listener = TcpListener::bind(runtime, address)?;
    listener.set_nonblocking(true)?;
    let first = listener.try_clone()?;
    ports.push(Port {
        node,
        number: address.port(),
        listener,
    })?;
    Ok(first)
}
