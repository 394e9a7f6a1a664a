//! Numbers among the words.
ghost use Rattle.std.specs.Prelude.{◌≡◌, ◌↔◌, ℕ, ◌<◌, ◌≤◌, ◌^◌, Some, IfSome, IsTrue, decimal};

use itoa::Buffer;

/// The number that the word writes, in decimal digits without a sign and without a leading zero but in `0`.
pub(crate) fn number(word: &str, most: u32) -> Option<u32>
    ensures written { IfSome result (λ n. word.now ≡ decimal n) }
    ensures fits { IfSome result (λ n. n ≤ most) }
    ensures only { (n : ℕ) → n ≤ most → word.now ≡ decimal n → result ≡ Some n }
{
    let n = parsed(word)?;
    if n > most {
        return None;
    }
    if !is_written(n, word) {
        return None;
    }
    Some(n)
}

fn parsed(word: &str) -> Option<u32>
    ensures { (n : ℕ) → n < 2 ^ 32 → word.now ≡ decimal n → result ≡ Some n }
{
    word.parse::<u32>().ok()
}

fn is_written(n: u32, word: &str) -> bool
    ensures { IsTrue result ↔ (word.now ≡ decimal n) }
{
    let mut buffer = Buffer::new();
    buffer.format(n) == word
}
