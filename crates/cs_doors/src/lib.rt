//! The doors at which peers wait for a link: the doors of the nodes, in memory and over TCP.
#![tactic(auto)]

mod door;
mod doors;
mod mem_door;
mod mem_doors;
mod tcp_door;
mod tcp_doors;
mod tcp_link;

pub use door::Door;
pub use doors::Doors;
pub use mem_door::{DoorPlan, MemDoor};
pub use mem_doors::MemDoors;
pub use tcp_door::TcpDoor;
pub use tcp_doors::TcpDoors;
pub use tcp_link::TcpLink;

#[cfg(test)]
mod tests;
