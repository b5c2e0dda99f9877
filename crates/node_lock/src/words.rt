//! The words and the one slot of the lock's table.

use crate::held::Held;
use crate::plays::Law;
use crate::view::{Opening, SeatView};
use atomic_table::{Seat, Shared};

/// The word that counts the tickets drawn.
pub(crate) const TICKET: usize = 0;

/// The word that counts the tickets served, and so tells which one is served now.
pub(crate) const SERVING: usize = 1;

/// The word that is the length of the published history.
pub(crate) const COUNT: usize = 2;

/// The part of the table that threads share.
pub(crate) type LockShared<N, E> = Shared<Option<Held<N, E>>, SeatView<N, E>, Opening<N>, Law<N>>;

/// What a pass steps the table with.
pub(crate) type LockSeat<N, E> = Seat<Option<Held<N, E>>, SeatView<N, E>>;
