//! The ones' complement sum (RFC 1071). It takes four bytes a step with the lower byte first, as this processor holds them,
//! and folds at the end of a block, which the definition knows nothing of: by section 2, (A) and (B), neither grouping nor the
//! order of bytes changes a sum, but for the order of its own two bytes. A sum of a few bytes goes word by word, since a fold
//! at its end would take longer than they do.

ghost use Rattle.std.specs.Prelude.{◌≡◌, ◌+◌, ◌*◌, ◌<◌, ◌≤◌, length};
ghost use Rattle.sq_base.specs.InternetSum.{word_sum, reduced};

/// From how many bytes on a sum takes four a step.
const LONG: usize = 8;

/// How many bytes are summed before a fold: an even number, so that no word lies in two blocks.
const BLOCK: usize = 0x1_0000;

/// The ones' complement sum of `start` and the big-endian words of the bytes, not complemented. An odd last byte is padded
/// with a zero byte.
pub fn inet_sum(start: u16, bytes: &[u8]) -> u16
    ensures { result ≡ reduced (start + word_sum bytes.now) }
{
    if bytes.len() < LONG {
        short_sum(start, bytes)
    } else {
        long_sum(start, bytes)
    }
}

/// The sum of a few bytes, word by word.
fn short_sum(start: u16, bytes: &[u8]) -> u16
    ensures { result ≡ reduced (start + word_sum bytes.now) }
{
    let mut sum = start;
    let mut rest = bytes;
    while let [high, low, others @ ..] = rest {
        sum = added(sum, u16::from_be_bytes([*high, *low]));
        rest = others;
    }
    if let [high] = rest {
        sum = added(sum, u16::from(*high) << 8);
    }
    sum
}

/// The sum and a word, with the carry added at the end.
fn added(sum: u16, word: u16) -> u16
    ensures { result ≡ reduced (sum + word) }
{
    let whole = u32::from(sum) + u32::from(word);
    let folded = if whole > 0xffff {
        whole - 0xffff
    } else {
        whole
    };
    folded as u16
}

/// The same, block by block. It stands apart, so that a sum of a few bytes is small where it is called.
#[inline(never)]
fn long_sum(start: u16, bytes: &[u8]) -> u16
    ensures { result ≡ reduced (start + word_sum bytes.now) }
{
    let mut sum = start.swap_bytes();
    let mut rest = bytes;
    while rest.len() > BLOCK {
        let (block, others) = rest.split_at(BLOCK);
        sum = folded(block_sum(sum, block));
        rest = others;
    }
    folded(block_sum(sum, rest)).swap_bytes()
}

/// The sum with all its carries added at its end.
fn folded(sum: u64) -> u16
    ensures { result ≡ reduced sum }
{
    if sum == 0 {
        0
    } else {
        ((sum - 1) % 0xffff + 1) as u16
    }
}

/// The sum of `start` and the words of at most a block, each with its bytes turned. Its carries stand above its lowest 16 bits.
fn block_sum(start: u16, block: &[u8]) -> u64
    requires { length block.now ≤ 65536 }
    ensures { reduced (256 * result) ≡ reduced (256 * start + word_sum block.now) }
{
    let mut sum = u64::from(start);
    let mut rest = block;
    while let [a, b, c, d, others @ ..] = rest {
        sum += u64::from(u32::from_le_bytes([*a, *b, *c, *d]));
        rest = others;
    }
    sum + u64::from(last_words(rest))
}

/// The words of fewer than four bytes, as they would be read with zero bytes behind them.
fn last_words(rest: &[u8]) -> u32
    requires { length rest.now < 4 }
    ensures { reduced (256 * result) ≡ reduced (word_sum rest.now) }
{
    match rest {
        [a, b, c, ..] => u32::from_le_bytes([*a, *b, *c, 0]),
        [a, b] => u32::from_le_bytes([*a, *b, 0, 0]),
        [a] => u32::from(*a),
        [] => 0,
    }
}
