ghost use Rattle.std.specs.Prelude.{◌≡◌, ℕ, ◌+◌, ◌*◌, ◌/◌, ◌%◌, ◌<◌, ◌≤◌, true, false, not, ◌&&◌, ◌||◌, length, replicate, IfSome, IsTrue, ◌↔◌, MatchOption, ◌==◌, nat_lt, slice_index};
ghost use Rattle.facts.specs.Digest.{digest as digest_of};
ghost use Rattle.facts.specs.Field.{bytes as bytes_of, field_bytes, part, set_words, words as words_at};
ghost use Rattle.facts.specs.Members.{Next};
ghost use Rattle.facts.specs.Words.{bit, common, has, insert as inserted, none, size, subset, union as union_of, without};

use crate::words;

// the words of a set of facts and of a set of actions, and the bytes of a set of facts in a file
pub const WORDS: usize = 4;

const ACTION_WORDS: usize = 8;

pub const BYTES: usize = 32;

// how many facts there can be
pub const FACTS: usize = 256;

// What names a member: a fact or an action.
pub trait Number: Copy {
    ghost number: { Self → ℕ };

    fn number(self) -> usize
        ensures { result ≡ number self };
}

impl Number for u8 {
    ghost number = { λ n. n };

    fn number(self) -> usize {
        u16::from(self).number()
    }
}

impl Number for u16 {
    ghost number = { λ n. n };

    fn number(self) -> usize {
        usize::from(self)
    }
}

// A set of numbers, 64 for each word.
#[derive(Clone, Copy, PartialEq, Eq, Debug)]
pub struct BitSet<const N: usize> {
    words: [u64; N],
}

// A set of facts 0 to 255.
pub type FactSet = BitSet<WORDS>;

// A set of action numbers 0 to 511.
pub type ActionSet = BitSet<ACTION_WORDS>;

impl<const N: usize> BitSet<N> {
    pub fn empty() -> BitSet<N>
        ensures words { result.words ≡ replicate N 0 }
        ensures members { (n : ℕ) → has result.words n ≡ false }
    {
        BitSet { words: [0; N] }
    }

    pub fn contains<M: Number>(&self, number: M) -> bool
        ensures { result ≡ has self.now.words (M.number number) }
    {
        words::contains(&self.words, number.number())
    }

    // Adds a number; one past the last that a set can have changes nothing.
    pub fn insert<M: Number>(&mut self, number: M)
        ensures words { self.new.words ≡ inserted self.old.words (M.number number) }
        ensures members { (n : ℕ) → has self.new.words n ≡ (has self.old.words n || (nat_lt (M.number number) (64 * N) && M.number number == n)) }
    {
        words::insert(&mut self.words, number.number());
    }
}

impl FactSet {
    // The lowest fact of the set that is not below `from`.
    pub fn next(&self, from: usize) -> Option<u8>
        ensures { Next self.now.words from result }
    {
        words::next(&self.words, from).map(|fact| fact as u8)
    }

    pub fn is_subset(&self, other: &FactSet) -> bool
        ensures test { result ≡ subset self.now.words other.now.words }
        ensures members { IsTrue result ↔ ((f : ℕ) → has self.now.words f ≡ true → has other.now.words f ≡ true) }
    {
        words::is_subset(&self.words, &other.words)
    }

    pub fn is_empty(&self) -> bool
        ensures { result ≡ none self.now.words }
    {
        words::is_empty(&self.words)
    }

    pub fn intersects(&self, other: &FactSet) -> bool
        ensures { result ≡ not (none (common self.now.words other.now.words)) }
    {
        words::intersects(&self.words, &other.words)
    }

    pub fn union(&self, other: &FactSet) -> FactSet
        ensures words { result.words ≡ union_of self.now.words other.now.words }
        ensures members { (f : ℕ) → has result.words f ≡ (has self.now.words f || has other.now.words f) }
    {
        let mut joined = *self;
        words::unite(&mut joined.words, &other.words);
        joined
    }

    pub fn difference(&self, other: &FactSet) -> FactSet
        ensures words { result.words ≡ without self.now.words other.now.words }
        ensures members { (f : ℕ) → has result.words f ≡ (has self.now.words f && not (has other.now.words f)) }
    {
        let mut rest = *self;
        words::remove(&mut rest.words, &other.words);
        rest
    }

    // How many facts of a goal the state lacks.
    pub fn missing(&self, state: &FactSet) -> u16
        ensures { result ≡ size (without self.now.words state.now.words) }
    {
        let mut count = 0;
        for (i, word) in self.words.iter().enumerate() {
            count += (*word & !state.words[i]).count_ones() as u16;
        }
        count
    }

    // A number that spreads sets over the buckets of a table.
    pub fn digest(&self) -> u64
        ensures { result ≡ digest_of self.now.words }
    {
        words::digest(&self.words)
    }
}

impl FactSet {
    // The set whose field begins at the byte `at`, where the bytes reach that far.
    pub fn read(bytes: &[u8], at: usize) -> Option<FactSet>
        ensures words { MatchOption result (length bytes.now < at + field_bytes) (λ s. (at + field_bytes ≤ length bytes.now) × (s.words ≡ words_at set_words bytes.now at)) }
        ensures members { IfSome result (λ s. (f : ℕ) → f < 256 → has s.words f ≡ (bit (slice_index bytes.now (at + f / 8)) (f % 8) == 1)) }
        ensures written_again { IfSome result (λ s. bytes_of field_bytes s.words ≡ part field_bytes bytes.now at) }
    {
        if bytes.len() < BYTES || bytes.len() - BYTES < at {
            return None;
        }
        let mut set = FactSet::empty();
        words::read(&mut set.words, bytes, at);
        Some(set)
    }

    // The bytes of the set's field.
    pub fn to_bytes(&self) -> [u8; BYTES]
        ensures bytes { result ≡ bytes_of field_bytes self.now.words }
        ensures read_back { words_at set_words result 0 ≡ self.now.words }
    {
        let mut field = [0u8; BYTES];
        words::write(&self.words, &mut field);
        field
    }
}
