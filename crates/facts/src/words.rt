// Sets as slices of words: number n is bit n % 64 of word n / 64. Every set type is made of these functions.
ghost use Rattle.std.specs.Prelude.{◌≡◌, ℕ, ◌+◌, ◌*◌, ◌/◌, ◌%◌, ◌^◌, ◌<◌, ◌≤◌, true, not, length, IfSome, IsTrue, ◌↔◌, slice_index};
ghost use Rattle.facts.specs.Digest.{digest as digest_of, stirred};
ghost use Rattle.facts.specs.Field.{bytes as bytes_of, number as number_at, words as words_at};
ghost use Rattle.facts.specs.Words.{common as common_of, has, insert as inserted, none, subset, union as union_of, without};
ghost use Rattle.facts.specs.Members.{Next};

const WORD_BITS: usize = 64;

const WORD_BYTES: usize = 8;

// odd, so that nothing is lost, and of irregular bits: 2^64 over the golden ratio
const SPREAD: u64 = 0x9E37_79B9_7F4A_7C15;

// A number past the last word is no member.
pub(crate) fn contains(words: &[u64], number: usize) -> bool
    ensures { result ≡ has words.now number }
{
    number / WORD_BITS < words.len() && (words[number / WORD_BITS] >> (number % WORD_BITS)) & 1 == 1
}

// A number past the last word changes nothing.
pub(crate) fn insert(words: &mut [u64], number: usize)
    ensures { words.new ≡ inserted words.old number }
{
    if number / WORD_BITS < words.len() {
        words[number / WORD_BITS] |= 1u64 << (number % WORD_BITS);
    }
}

// The lowest member that is not below `from`. It looks at words, so it passes over 64 numbers at a time.
pub(crate) fn next(words: &[u64], from: usize) -> Option<usize>
    requires { length words.now < 2 ^ 32 }
    ensures member { Next words.now from result }
    ensures within { IfSome result (λ n. n / 64 < length words.now) }
{
    let mut at = from;
    while at / WORD_BITS < words.len() {
        let rest = words[at / WORD_BITS] >> (at % WORD_BITS);
        if rest != 0 {
            return Some(at + rest.trailing_zeros() as usize);
        }
        at = (at / WORD_BITS + 1) * WORD_BITS;
    }
    None
}

pub(crate) fn is_subset(words: &[u64], other: &[u64]) -> bool
    requires { length words.now ≡ length other.now }
    ensures test { result ≡ subset words.now other.now }
    ensures members { IsTrue result ↔ ((n : ℕ) → has words.now n ≡ true → has other.now n ≡ true) }
{
    words
        .iter()
        .zip(other)
        .all(|(word, other)| *word & *other == *word)
}

pub(crate) fn is_empty(words: &[u64]) -> bool
    ensures { result ≡ none words.now }
{
    words.iter().all(|word| *word == 0)
}

pub(crate) fn intersects(words: &[u64], other: &[u64]) -> bool
    requires { length words.now ≡ length other.now }
    ensures { result ≡ not (none (common_of words.now other.now)) }
{
    words
        .iter()
        .zip(other)
        .any(|(word, other)| *word & *other != 0)
}

// The two loops that change words read the other set by place: what a loop over `zip` writes has no name in an invariant.
pub(crate) fn unite(words: &mut [u64], other: &[u64])
    requires { length words.old ≡ length other.now }
    ensures { words.new ≡ union_of words.old other.now }
{
    for (i, word) in words.iter_mut().enumerate() {
        *word |= other[i];
    }
}

pub(crate) fn remove(words: &mut [u64], other: &[u64])
    requires { length words.old ≡ length other.now }
    ensures { words.new ≡ without words.old other.now }
{
    for (i, word) in words.iter_mut().enumerate() {
        *word &= !other[i];
    }
}

fn stir(mixed: u64, word: u64) -> u64
    ensures { result ≡ stirred mixed word }
{
    let product = (mixed ^ word).wrapping_mul(SPREAD);
    product ^ (product >> 32)
}

// A number that spreads sets over the buckets of a table.
pub(crate) fn digest(words: &[u64]) -> u64
    ensures { result ≡ digest_of words.now }
{
    let mixed = words.iter().fold(0, |mixed, word| stir(mixed, *word));
    stir(mixed, 0)
}

// The word of the eight bytes from `at` on.
fn read_word(bytes: &[u8], at: usize) -> u64
    requires { at + 8 ≤ length bytes.now }
    ensures { result ≡ number_at 8 bytes.now at }
{
    let mut field = [0; WORD_BYTES];
    field.copy_from_slice(&bytes[at..at + WORD_BYTES]);
    u64::from_le_bytes(field)
}

// Fills the words from the bytes from `at` on.
pub(crate) fn read(words: &mut [u64], bytes: &[u8], at: usize)
    requires { at + 8 * length words.old ≤ length bytes.now }
    ensures { words.new ≡ words_at (length words.old) bytes.now at }
{
    for (i, word) in words.iter_mut().enumerate() {
        *word = read_word(bytes, at + WORD_BYTES * i);
    }
}

// The byte at place `k` of the set's field.
fn byte_at(words: &[u64], k: usize) -> u8
    requires { k / 8 < length words.now }
    ensures { result ≡ slice_index words.now (k / 8) / 2 ^ (8 * (k % 8)) % 256 }
{
    words[k / WORD_BYTES].to_le_bytes()[k % WORD_BYTES]
}

// Writes the words into a field of as many bytes.
pub(crate) fn write(words: &[u64], field: &mut [u8])
    requires { length field.old ≡ 8 * length words.now }
    ensures bytes { field.new ≡ bytes_of (8 * length words.now) words.now }
    ensures read_back { words_at (length words.now) field.new 0 ≡ words.now }
{
    for (k, byte) in field.iter_mut().enumerate() {
        *byte = byte_at(words, k);
    }
}
