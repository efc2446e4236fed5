//! The compression function of SHA-256 (FIPS 180-4, section 6.2.2).
ghost use Rattle.std.specs.Prelude.{◌≡◌, ◌<◌, ◌≤◌};
ghost use Rattle.sha256.specs.Compression.{added, after_round, compressed, schedule, schedule_word, start};

use crate::words::{big_sigma_0, big_sigma_1, ch, maj, small_sigma_0, small_sigma_1};

/// How many bytes a block has.
pub(crate) const BLOCK_SIZE: usize = 64;

/// A block of the message.
pub(crate) type Block = [u8; BLOCK_SIZE];

/// The hash value.
pub(crate) type Words = [u32; 8];

/// How many rounds a block goes through, each with a constant and a word of the schedule.
const ROUNDS: usize = 64;

/// The constants of the rounds.
const K: [u32; ROUNDS] = [
    0x428a2f98, 0x71374491, 0xb5c0fbcf, 0xe9b5dba5, 0x3956c25b, 0x59f111f1, 0x923f82a4, 0xab1c5ed5,
    0xd807aa98, 0x12835b01, 0x243185be, 0x550c7dc3, 0x72be5d74, 0x80deb1fe, 0x9bdc06a7, 0xc19bf174,
    0xe49b69c1, 0xefbe4786, 0x0fc19dc6, 0x240ca1cc, 0x2de92c6f, 0x4a7484aa, 0x5cb0a9dc, 0x76f988da,
    0x983e5152, 0xa831c66d, 0xb00327c8, 0xbf597fc7, 0xc6e00bf3, 0xd5a79147, 0x06ca6351, 0x14292967,
    0x27b70a85, 0x2e1b2138, 0x4d2c6dfc, 0x53380d13, 0x650a7354, 0x766a0abb, 0x81c2c92e, 0x92722c85,
    0xa2bfe8a1, 0xa81a664b, 0xc24b8b70, 0xc76c51a3, 0xd192e819, 0xd6990624, 0xf40e3585, 0x106aa070,
    0x19a4c116, 0x1e376c08, 0x2748774c, 0x34b0bcb5, 0x391c0cb3, 0x4ed8aa4a, 0x5b9cca4f, 0x682e6ff3,
    0x748f82ee, 0x78a5636f, 0x84c87814, 0x8cc70208, 0x90befffa, 0xa4506ceb, 0xbef9a3f7, 0xc67178f2,
];

/// The word at place `t` of the schedule, from the sixteen words before it.
fn next_word(w: &[u32; ROUNDS], t: usize) -> u32
    requires { (16 ≤ t) × (t < 64) }
    ensures { result ≡ schedule_word w.now t }
{
    w[t - 16]
        .wrapping_add(small_sigma_0(w[t - 15]))
        .wrapping_add(w[t - 7])
        .wrapping_add(small_sigma_1(w[t - 2]))
}

/// The message schedule of a block.
fn expand(block: &Block) -> [u32; ROUNDS]
    ensures { result ≡ schedule block.now }
{
    let mut w = [0; ROUNDS];
    let (words, _) = block.as_chunks::<4>();
    for (t, word) in words.iter().enumerate() {
        w[t] = u32::from_be_bytes(*word);
    }
    // By place, since each further word is made of four that stand before it in the same array.
    for t in 16..ROUNDS {
        w[t] = next_word(&w, t);
    }
    w
}

/// The working variables of a block.
#[derive(Clone, Copy)]
pub(crate) struct Working {
    a: u32,
    b: u32,
    c: u32,
    d: u32,
    e: u32,
    f: u32,
    g: u32,
    h: u32,
}

impl Working {
    /// The working variables at the start of a block: the hash value so far.
    fn from_words(words: &Words) -> Working
        ensures { result ≡ start words.now }
    {
        let [a, b, c, d, e, f, g, h] = *words;
        Working {
            a,
            b,
            c,
            d,
            e,
            f,
            g,
            h,
        }
    }

    /// Round `t`, with its word of the schedule.
    fn round(self, t: usize, w: u32) -> Working
        requires { t < 64 }
        ensures { result ≡ after_round self t w }
    {
        // what depends on the round before by the fewest steps is added first: the order of sums decides how long a round takes
        let sum = K[t]
            .wrapping_add(w)
            .wrapping_add(self.h)
            .wrapping_add(ch(self.e, self.f, self.g));
        let sigma = big_sigma_1(self.e);
        let t1 = sum.wrapping_add(sigma);
        let t2 = big_sigma_0(self.a).wrapping_add(maj(self.a, self.b, self.c));
        Working {
            a: t1.wrapping_add(t2),
            b: self.a,
            c: self.b,
            d: self.c,
            e: self.d.wrapping_add(sum).wrapping_add(sigma),
            f: self.e,
            g: self.f,
            h: self.g,
        }
    }

    /// Adds the working variables to the hash value.
    fn add_to(self, words: &mut Words)
        ensures { words.new ≡ added words.old self }
    {
        *words = [
            words[0].wrapping_add(self.a),
            words[1].wrapping_add(self.b),
            words[2].wrapping_add(self.c),
            words[3].wrapping_add(self.d),
            words[4].wrapping_add(self.e),
            words[5].wrapping_add(self.f),
            words[6].wrapping_add(self.g),
            words[7].wrapping_add(self.h),
        ];
    }
}

/// Takes one more block into the hash value.
pub(crate) fn compress(words: &mut Words, block: &Block)
    ensures { words.new ≡ compressed words.old block.now }
{
    let w = expand(block);
    let mut working = Working::from_words(words);
    // Eight rounds a turn: a loop over the words with one round a turn runs at 0.85 of this speed, below plain Rust, since the
    // compiler then moves each variable from one name to the next.
    for i in 0..ROUNDS / 8 {
        let t = 8 * i;
        working = working
            .round(t, w[t])
            .round(t + 1, w[t + 1])
            .round(t + 2, w[t + 2])
            .round(t + 3, w[t + 3])
            .round(t + 4, w[t + 4])
            .round(t + 5, w[t + 5])
            .round(t + 6, w[t + 6])
            .round(t + 7, w[t + 7]);
    }
    working.add_to(words);
}
