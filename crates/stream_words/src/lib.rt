// Words, numbers of four bytes that stand low byte first: slices to bytes and back, and buffers for the slices of the
// replay list.
#![tactic(auto)]

ghost use Rattle.std.specs.Prelude.{◌≡◌, ℕ, ◌*◌, ◌+◌, ◌≤◌, min, length, replicate};
ghost use Rattle.std.specs.Float.{nan, binary32};
ghost use Rattle.std.specs.Float.Ieee.{of_bits, to_bits};
ghost use Rattle.std.proofs.lemmas.List.Edits.{sets};
ghost use Rattle.loops.specs.Loops.{tabulate};
ghost use Rattle.stream_words.specs.Words.{word_at, word_in, word_bytes, fitting, HasFront};

use floats::{from_bits, to_bits};
use stream_bytes::{put_u32, read_u32};

// A value that stands in one word: a float as its bits, a cell as itself.
pub trait Word: Copy {
    // The value of a word, and the word of a value.
    ghost of_word: { ℕ → Self };

    ghost word_of: { Self → ℕ };

    // What the definitions read past the end of a slice.
    ghost past: { Self };

    fn from_word(word: u32) -> Self
        ensures { result ≡ of_word word };

    fn to_word(self) -> u32
        ensures { result ≡ word_of self };
}

impl Word for f32 {
    ghost of_word = { of_bits binary32 };

    ghost word_of = { to_bits binary32 };

    ghost past = { nan };

    fn from_word(word: u32) -> f32 {
        from_bits(word)
    }

    fn to_word(self) -> u32 {
        to_bits(self)
    }
}

impl Word for u32 {
    ghost of_word = { λ w. w };

    ghost word_of = { λ x. x };

    ghost past = { 0 };

    fn from_word(word: u32) -> u32 {
        word
    }

    fn to_word(self) -> u32 {
        self
    }
}

// The values of the longest slice of the replay list.
const LONGEST: usize = 10500;

// Returns a buffer of 10,500 values, each x: as many as the longest slice of the replay list has.
pub fn buffer<T: Copy>(x: T) -> [T; LONGEST]
    ensures value { 10500 ≡ length result }
    ensures value_2 { result ≡ replicate 10500 x }
{
    [x; LONGEST]
}

// Returns n, or the length of the buffer if that is less. The first fact is what taking so many values of the buffer
// requires.
pub fn held<T>(n: usize, buffer: &[T]) -> usize
    ensures has_front { HasFront result buffer.now }
    ensures value { result ≡ min n (length buffer.now) }
{
    n.min(buffer.len())
}

// The word at a place, 0 where the bytes end before its last one: no Option, since the definition `word_at` says so.
pub fn word_at(bytes: &[u8], at: usize) -> u32
    ensures { result ≡ word_at bytes.now at }
{
    if bytes.len() < 4 || bytes.len() - 4 < at {
        return 0;
    }
    read_u32(bytes, at)
}

// Fills a slice with the values of the words at the front of the bytes. A place past the last number is past the bytes
// too.
pub fn words_from<T: Word>(bytes: &[u8], v: &mut [T])
    ensures { v.new ≡ tabulate (length v.old) (λ i. T.of_word (word_at bytes.now (4 * i))) }
{
    for (i, x) in v.iter_mut().enumerate() {
        *x = T::from_word(word_at(bytes, i.saturating_mul(4)));
    }
}

// Writes the words of a slice to the bytes from `at` on.
pub fn put_words<T: Word>(out: &mut [u8], at: usize, v: &[T])
    requires { at + 4 * length v.now ≤ length out.old }
    ensures { out.new ≡ sets out.old at (word_bytes (length v.now) (word_in T.word_of T.past v.now)) }
{
    for (i, x) in v.iter().enumerate() {
        put_u32(out, at + 4 * i, x.to_word());
    }
}

// Writes a slice's words to the front of the bytes, as many as fit. Returns how many bytes they take.
pub fn words_into<T: Word>(v: &[T], out: &mut [u8]) -> usize
    ensures has_front { HasFront result out.new }
    ensures value { result ≡ 4 * fitting v.now out.old }
    ensures out_after { out.new ≡ sets out.old 0
        (word_bytes (fitting v.now out.old) (word_in T.word_of T.past v.now)) }
{
    let n = v.len().min(out.len() / 4);
    put_words(out, 0, &v[..n]);
    4 * n
}
