// Sets of codes as bytes: code c is bit c mod 8 of byte c div 8, the lowest bit first.
ghost use Rattle.std.specs.Prelude.{◌≡◌, ℕ, ◌/◌, ◌<◌, min, Bool, not, ◌&&◌, ◌||◌, length, replicate, ◌==◌, nat_lt};
ghost use Rattle.shelves.specs.Shelves.{bit_of, bytes_for};
ghost use Rattle.shelves.specs.Filing.{count};
ghost use Rattle.records.specs.Bits.{reach};

// Whether the code c is in the set.
pub fn bit(bytes: &[u8], c: usize) -> bool
    ensures { result ≡ bit_of bytes.now c }
{
    bytes
        .get(c / 8)
        .is_some_and(|byte| (byte >> (c % 8)) % 2 == 1)
}

// The bytes that so many bits take.
pub fn bytes_for(bits: usize) -> usize
    ensures { result ≡ bytes_for bits }
{
    bits.div_ceil(8)
}

// Any set of codes that can be filed.
pub trait CodeSet {
    ghost members: { Self → ℕ → Bool };

    fn contains(&self, c: usize) -> bool
        ensures { result ≡ members self.now c };
}

// The set that bytes hold. It has no equality: bytes of two lengths may hold one set.
#[derive(Clone, Copy)]
pub struct Bytes<'a> {
    pub bytes: &'a [u8],
}

impl CodeSet for Bytes<'_> {
    ghost members = { λ s. bit_of s.bytes.now };

    fn contains(&self, c: usize) -> bool {
        bit(self.bytes, c)
    }
}

#[tactic(auto, using(crate::proofs::Putting::put_bit))]
fn put(bytes: &mut [u8], c: usize)
    requires { c / 8 < length bytes.old }
    ensures { (d : ℕ) → bit_of bytes.new d ≡ (d == c || bit_of bytes.old d) }
{
    bytes[c / 8] |= 1 << (c % 8);
}

// Whether the code c is in the set, and not yet in the bytes.
fn is_new<C: CodeSet>(bytes: &[u8], set: &C, c: usize) -> bool
    ensures { result ≡ (C.CodeSet.members set.now c && not (bit_of bytes.now c)) }
{
    set.contains(c) && !bit(bytes, c)
}

// Adds the members of the set below `size` to the bytes, as far as these reach, and answers how many are new.
pub fn join<C: CodeSet>(bytes: &mut [u8], set: &C, size: usize) -> usize
    ensures bits { (d : ℕ) → bit_of bytes.new d ≡ (bit_of bytes.old d || (nat_lt d (reach bytes.old size) && C.CodeSet.members set.now d)) }
    ensures new { result ≡ count (reach bytes.old size) (λ c. C.CodeSet.members set.now c && not (bit_of bytes.old c)) }
{
    // A loop, not a chain: each code both changes the bytes and is counted.
    let mut new = 0;
    for c in 0..size.min(bytes.len().saturating_mul(8)) {
        if is_new(bytes, set, c) {
            put(bytes, c);
            new += 1;
        }
    }
    new
}

// Empties the bytes.
pub fn clear(bytes: &mut [u8])
    ensures { bytes.new ≡ replicate (length bytes.old) 0 }
{
    bytes.fill(0);
}
