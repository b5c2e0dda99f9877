//! The token of a partition key.

ghost use Rattle.std.specs.Prelude.{◌≡◌, ◌≤◌, ◌*◌, length};
ghost use Rattle.std.specs.Int.{w64, from_le_bytes};
ghost use Rattle.token_ring.specs.Murmur.{mixed_first, mixed_second, sign_extended, tail_word, scrambled, hash_of, token_of};

const FIRST_MULTIPLIER: u64 = 0x87c3_7b91_1142_53d5;

const SECOND_MULTIPLIER: u64 = 0x4cf5_ad43_2745_937f;

/// How many bytes a block has.
const BLOCK: usize = 16;

/// The two halves of the hash on the way.
#[derive(Clone, Copy)]
struct Halves {
    first: u64,
    second: u64,
}

/// The token of a partition key, as Cassandra's `Murmur3Partitioner` gives it.
///
/// It is the first half of MurmurHash3_x64_128 with seed 0, but as in Cassandra the bytes behind the last whole block
/// are sign-extended. -2^63 is the empty key's token alone.
pub fn token(key: &[u8]) -> i64
    ensures { result ≡ token_of key.now }
{
    if key.is_empty() {
        return i64::MIN;
    }
    let hash = first_half(key).cast_signed();
    if hash == i64::MIN { i64::MAX } else { hash }
}

/// The first half of the key's hash.
fn first_half(key: &[u8]) -> u64
    ensures { result ≡ hash_of key.now }
{
    let blocks = key.len() / BLOCK;
    Halves::after_blocks(key, blocks)
        .with_tail(&key[BLOCK * blocks..])
        .finished(key.len() as u64)
}

impl Halves {
    ghost use Rattle.token_ring.specs.Murmur.{with_block, after_blocks, with_tail, finished};

    fn after_blocks(key: &[u8], blocks: usize) -> Halves
        requires { 16 * blocks ≤ length key.now }
        ensures { result ≡ after_blocks key.now blocks }
    {
        let mut halves = Halves {
            first: 0,
            second: 0,
        };
        for block in 0..blocks {
            let at = BLOCK * block;
            halves = halves.with_block(&key[at..at + BLOCK]);
        }
        halves
    }

    #[tactic(auto, unfolding(crate::specs::Murmur::first_after, crate::specs::Murmur::second_after))]
    fn with_block(self, block: &[u8]) -> Halves
        requires { length block.now ≡ 16 }
        ensures { result ≡ with_block self block.now }
    {
        let first = (self.first ^ mix_first(word(&block[..8])))
            .rotate_left(27)
            .wrapping_add(self.second)
            .wrapping_mul(5)
            .wrapping_add(0x52dc_e729);
        let second = (self.second ^ mix_second(word(&block[8..])))
            .rotate_left(31)
            .wrapping_add(first)
            .wrapping_mul(5)
            .wrapping_add(0x3849_5ab5);
        Halves { first, second }
    }

    fn with_tail(self, tail: &[u8]) -> Halves
        requires { length tail.now ≤ 16 }
        ensures { result ≡ with_tail self tail.now }
    {
        let (low, high) = tail.split_at(tail.len().min(8));
        Halves {
            first: self.first ^ mix_first(combine(low)),
            second: self.second ^ mix_second(combine(high)),
        }
    }

    #[tactic(auto, unfolding(crate::specs::Murmur::finished))]
    fn finished(self, len: u64) -> u64
        ensures { result ≡ finished self len }
    {
        let first = (self.first ^ len).wrapping_add(self.second ^ len);
        let second = (self.second ^ len).wrapping_add(first);
        scramble(first).wrapping_add(scramble(second))
    }
}

/// The little-endian number of these eight bytes.
fn word(bytes: &[u8]) -> u64
    requires { length bytes.now ≡ 8 }
    ensures { result ≡ from_le_bytes w64 bytes.now }
{
    u64::from_le_bytes([
        bytes[0], bytes[1], bytes[2], bytes[3], bytes[4], bytes[5], bytes[6], bytes[7],
    ])
}

#[tactic(auto, unfolding(crate::specs::Murmur::mixed_first))]
fn mix_first(word: u64) -> u64
    ensures { result ≡ mixed_first word }
{
    word.wrapping_mul(FIRST_MULTIPLIER)
        .rotate_left(31)
        .wrapping_mul(SECOND_MULTIPLIER)
}

#[tactic(auto, unfolding(crate::specs::Murmur::mixed_second))]
fn mix_second(word: u64) -> u64
    ensures { result ≡ mixed_second word }
{
    word.wrapping_mul(SECOND_MULTIPLIER)
        .rotate_left(33)
        .wrapping_mul(FIRST_MULTIPLIER)
}

/// The exclusive or of a tail's bytes, each sign-extended and shifted to its place.
fn combine(bytes: &[u8]) -> u64
    requires { length bytes.now ≤ 8 }
    ensures { result ≡ tail_word bytes.now (length bytes.now) }
{
    let mut word = 0;
    for (i, byte) in bytes.iter().enumerate() {
        word ^= sign_extend(*byte) << (8 * i);
    }
    word
}

fn sign_extend(byte: u8) -> u64
    ensures { result ≡ sign_extended byte }
{
    i64::from(byte.cast_signed()).cast_unsigned()
}

/// The last step of the hash, `fmix64`.
#[tactic(auto, unfolding(crate::specs::Murmur::scrambled))]
fn scramble(word: u64) -> u64
    ensures { result ≡ scrambled word }
{
    let once = (word ^ (word >> 33)).wrapping_mul(0xff51_afd7_ed55_8ccd);
    let twice = (once ^ (once >> 33)).wrapping_mul(0xc4ce_b9fe_1a85_ec53);
    twice ^ (twice >> 33)
}
