//! The hash of keys and of prefixes.
ghost use Rattle.std.specs.Prelude.{◌≡◌, ◌+◌, ◌*◌, ◌%◌, ◌^◌, ◌<◌, ◌≤◌, length, take};
ghost use Rattle.slate_filter.specs.Hash.{filter_hash, finished, low_first, sip_round, taken_in};

/// The bytes of a word.
const WORD_LEN: usize = 8;

/// What SipHash keeps between words.
#[derive(Clone, Copy)]
struct Sip {
    v0: u64,
    v1: u64,
    v2: u64,
    v3: u64,
}

impl Sip {
    /// The state before the first word, with both keys zero.
    const START: Sip = Sip {
        v0: 0x736f_6d65_7073_6575,
        v1: 0x646f_7261_6e64_6f6d,
        v2: 0x6c79_6765_6e65_7261,
        v3: 0x7465_6462_7974_6573,
    };
}

/// SipHash-1-3 with both keys zero.
pub fn filter_hash(key: &[u8]) -> u64
    ensures { result ≡ filter_hash key.now }
{
    let mut state = Sip::START;
    let mut rest = key;
    while rest.len() >= WORD_LEN {
        state = taken_in(state, first_word(rest));
        rest = &rest[WORD_LEN..];
    }
    finished(taken_in(state, last_word(rest, key.len())))
}

/// The first eight bytes, low first.
#[inline(always)]
fn first_word(bytes: &[u8]) -> u64
    requires { 8 ≤ length bytes.now }
    ensures { result ≡ low_first (take 8 bytes.now) }
{
    u64::from_le_bytes([
        bytes[0], bytes[1], bytes[2], bytes[3], bytes[4], bytes[5], bytes[6], bytes[7],
    ])
}

/// The last bytes, fewer than 8, low first, with the length of all in the highest byte.
#[inline(always)]
fn last_word(rest: &[u8], len: usize) -> u64
    requires { length rest.now < 8 }
    ensures { result ≡ low_first rest.now + len % 256 * 2 ^ 56 }
{
    let mut word = 0;
    let mut weight = 1;
    for byte in rest {
        word += u64::from(*byte) * weight;
        weight *= 256;
    }
    word + (len % 256) as u64 * 0x100_0000_0000_0000
}

/// A word taken in by one round.
#[inline(always)]
fn taken_in(state: Sip, word: u64) -> Sip
    ensures { result ≡ taken_in state word }
{
    let mixed = sip_round(Sip {
        v3: state.v3 ^ word,
        ..state
    });
    Sip {
        v0: mixed.v0 ^ word,
        ..mixed
    }
}

/// The hash of a state that has taken in all words.
fn finished(state: Sip) -> u64
    ensures { result ≡ finished state }
{
    let Sip { v0, v1, v2, v3 } = sip_round(sip_round(sip_round(Sip {
        v2: state.v2 ^ 0xff,
        ..state
    })));
    v0 ^ v1 ^ (v2 ^ v3)
}

/// One round: four sums, each with the rotations that follow it.
#[inline(always)]
fn sip_round(state: Sip) -> Sip
    ensures { result ≡ sip_round state }
{
    let v0 = state.v0.wrapping_add(state.v1);
    let v1 = state.v1.rotate_left(13) ^ v0;
    let v2 = state.v2.wrapping_add(state.v3);
    let v3 = state.v3.rotate_left(16) ^ v2;
    let last0 = v0.rotate_left(32).wrapping_add(v3);
    let last2 = v2.wrapping_add(v1);
    Sip {
        v0: last0,
        v1: v1.rotate_left(17) ^ last2,
        v2: last2.rotate_left(32),
        v3: v3.rotate_left(21) ^ last0,
    }
}
