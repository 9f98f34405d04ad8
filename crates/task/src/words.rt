// Lists of 16-bit words, which positions, operator lists and cards are handed over as.
ghost use Rattle.std.specs.Prelude.{◌≡◌, slice_index};

// The word at i, and 0 past the end.
pub fn word(words: &[u16], i: usize) -> u16
    ensures { result ≡ slice_index words.now i }
{
    words.get(i).copied().unwrap_or(0)
}
