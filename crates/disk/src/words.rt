//! The words that IDENTIFY DEVICE gives of a disk.

ghost use Rattle.std.specs.Prelude.{◌≡◌, ◌<◌, ◌&&◌, if◌then◌else◌};
ghost use Rattle.disk.specs.Claimed.{part, words_for};

/// What a disk claims: its blocks, 48-bit commands, a cache, and the 48-bit write through it.
#[derive(Clone, Copy)]
pub struct Claims {
    pub blocks: u64,
    pub wide: bool,
    pub cache: bool,
    pub through: bool,
}

impl Claims {
    /// The write through the cache is a 48-bit command.
    pub(crate) fn writes_through(&self) -> bool
        ensures { result ≡ (self.now.wide && self.now.through) }
    {
        self.wide && self.through
    }
}

fn pick<T: Copy>(on: bool, set: T, clear: T) -> T
    ensures { result ≡ (if on then set else clear) }
{
    if on { set } else { clear }
}

/// The 16 bits of `n` from `unit`, a power of two, on.
fn bits_from(n: u64, unit: u64) -> u16
    requires { 0 < unit }
    ensures { result ≡ part n unit }
{
    (n / unit % 65536) as u16
}

/// The words of a disk with these claims and its cache off.
pub fn identify_words(claims: Claims) -> [u16; 256]
    ensures { result ≡ words_for claims }
{
    let short = pick(!claims.wide, claims.blocks, 0);
    let long = pick(claims.wide, claims.blocks, 0);
    let mut words = [0; 256];
    words[60] = bits_from(short, 1);
    words[61] = bits_from(short, 1 << 16);
    words[82] = pick(claims.cache, 1 << 5, 0);
    words[83] = pick(claims.wide, 1 << 14 | 1 << 10, 1 << 14);
    words[84] = pick(claims.writes_through(), 1 << 6, 0);
    words[100] = bits_from(long, 1);
    words[101] = bits_from(long, 1 << 16);
    words[102] = bits_from(long, 1 << 32);
    words[103] = bits_from(long, 1 << 48);
    words
}
