//! Links to a peer.

ghost use Rattle.std.specs.Prelude.{◌≡◌, ℕ, ◌≤◌, ◌<◌, List, ◌++◌, length, take, Option, Ok, IfOk, IfSome, OnErr};
ghost use Rattle.std.specs.Option.{option_map};
ghost use Rattle.cs_base.specs.Faults.{HasRisen};
ghost use Rattle.cs_io.specs.Links.{FitsIn, Hears, Idles};

use cs_base::Failed;

/// What a read of a link finds.
#[derive(Clone, Copy, Debug, PartialEq, Eq)]
pub enum Heard {
    /// So many bytes: at least one, where the buffer has room.
    Bytes(usize),
    /// Nothing is there now.
    Idle,
    /// The peer sends nothing more.
    End,
}

/// Where bytes come from a peer, and go to it.
pub trait Link {
    /// The bytes that are still to come, however they are cut and whatever idles lie between, where the link tells them.
    ghost remaining: { Self → Option (List ℕ) };

    /// How many reads find nothing there before the next bytes or the end, where the link tells it.
    ghost idles: { Self → Option ℕ };

    /// The bytes that it took, where the link tells them.
    ghost written: { Self → Option (List ℕ) };

    /// How many faults it had. To take nothing of a piece that has bytes is one.
    ghost faults: { Self → ℕ };

    /// Fills a beginning of the buffer where bytes are there.
    fn read(&mut self, buffer: &mut [u8]) -> Result<Heard, Failed>
        ensures within { IfOk result (FitsIn (length buffer.old)) }
        ensures heard { IfOk result (λ heard. IfSome (remaining self.old) (λ left. Hears heard left buffer.old buffer.new (remaining self.new))) }
        ensures idle { IfOk result (λ heard. IfSome (idles self.old) (λ n. Idles heard n (idles self.new))) }
        ensures unwritten { written self.new ≡ written self.old }
        ensures err { OnErr result ((remaining self.new ≡ remaining self.old) × (idles self.new ≡ idles self.old)) }
        ensures counted { faults self.old ≤ faults self.new }
        ensures failed { OnErr result (HasRisen (faults self.old) (faults self.new)) };

    /// Takes a beginning of the piece, and answers its length.
    fn write(&mut self, piece: &[u8]) -> Result<usize, Failed>
        ensures within { IfOk result (λ n. n ≤ length piece.now) }
        ensures taken { IfOk result (λ n. written self.new ≡ option_map (λ sent. sent ++ take n piece.now) (written self.old)) }
        ensures unread { (remaining self.new ≡ remaining self.old) × (idles self.new ≡ idles self.old) }
        ensures err { OnErr result (written self.new ≡ written self.old) }
        ensures counted { faults self.old ≤ faults self.new }
        ensures failed { OnErr result (HasRisen (faults self.old) (faults self.new)) }
        ensures stuck { result ≡ Ok 0 → 0 < length piece.now → HasRisen (faults self.old) (faults self.new) };
}
