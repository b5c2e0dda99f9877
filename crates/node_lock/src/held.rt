//! What lies in the lock's one slot.

use crate::history::History;

#[derive(Drop)]
pub struct Held<S, E> {
    pub state: S,
    pub history: History<E>,
}
