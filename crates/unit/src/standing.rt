//! The state of a unit, and the words by which a drive is fit for one.

ghost use Rattle.std.specs.Prelude.{◌≡◌, ◌+◌, ◌^◌, ◌<◌, ◌≤◌, true, false, MatchOption};
ghost use Rattle.ata.specs.Words.{claims, wide, through, blocks_of};
ghost use Rattle.unit.specs.Fitness.{is_fit, KnownFrom, Past, InRange};
ghost use Rattle.transfer.specs.Talk.{judged};
ghost use Rattle.unit.specs.Attached.{Begins};

use crate::known::Facts;
use ata::Answer;
use cdb::Extent;
use transfer::{Lba, Width, judge};

/// Unfit for good; an attention to be reported first; or ready. Of a drive that is fit there are facts to remember.
#[derive(Clone, Copy)]
pub enum Phase {
    Unfit,
    Attention(Facts),
    Ready(Facts),
}

impl Phase {
    /// How a unit begins, by the answer to IDENTIFY DEVICE and its words.
    pub(crate) fn first(answer: Answer, words: &[u16; 256]) -> Phase
        ensures { Begins (judged answer) words.now result }
    {
        match judge(answer) {
            Err(_) => Phase::Unfit,
            Ok(()) => match Facts::from_words(words) {
                None => Phase::Unfit,
                Some(facts) => Phase::Attention(facts),
            },
        }
    }
}

// Whether a word has the bit of that value.
fn claims(words: &[u16; 256], at: usize, bit: u16) -> bool
    requires { at < 256 }
    ensures { result ≡ claims words.now at bit }
{
    words[at] & bit != 0
}

// Words, the low one first: the library puts bytes together, and no words.
fn block_count(words: &[u16; 256]) -> u64
    ensures { result ≡ blocks_of words.now }
{
    if claims(words, 83, 1 << 10) {
        u64::from(words[100])
            + 65536 * u64::from(words[101])
            + 4294967296 * u64::from(words[102])
            + 281474976710656 * u64::from(words[103])
    } else {
        u64::from(words[60]) + 65536 * u64::from(words[61])
    }
}

impl Facts {
    /// What the words say, where they say that the drive is fit.
    pub(crate) fn from_words(words: &[u16; 256]) -> Option<Facts>
        ensures { MatchOption result (is_fit words.now ≡ false) (λ f. KnownFrom words.now f) }
    {
        let wide = claims(words, 83, 1 << 10);
        let blocks = block_count(words);
        let reach = if wide { 1 << 48 } else { 1 << 28 };
        let ata_device = !claims(words, 0, 1 << 15);
        let words_valid = claims(words, 83, 1 << 14) && !claims(words, 83, 1 << 15);
        if !ata_device || !words_valid || blocks == 0 || blocks >= reach {
            return None;
        }
        let width = if wide { Width::Bits48 } else { Width::Bits28 };
        Some(Facts {
            blocks,
            width,
            through: claims(words, 84, 1 << 6),
        })
    }

    /// Where a range starts, unless it goes past the end.
    pub(crate) fn start(&self, extent: Extent) -> Option<Lba>
        ensures { MatchOption result (Past self.now extent) (λ a. InRange self.now extent a.value) }
    {
        let blocks = self.blocks;
        if extent.block >= blocks || u64::from(extent.count) > blocks - extent.block {
            return None;
        }
        Lba::new(extent.block)
    }
}
