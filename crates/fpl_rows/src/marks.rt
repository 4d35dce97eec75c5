ghost use Rattle.std.specs.Prelude.{◌≡◌, ◌≤◌, ◌<◌, ◌+◌, ◌-◌, ◌*◌, ◌/◌, ◌^◌, true, false, ℕ, length, replicate, slice_set, slice_index_or, min, IfOk};
ghost use Rattle.std.specs.Int.{bit_at};
ghost use Rattle.fpl_rows.specs.Marking.{IsRest, IsWithin, bit_in, bits_in};

use std::alloc::{AllocError, Global};
use std::marker::Model;

/// Which places are marked, a bit for each. They are sought between the least and the greatest
/// word that may have one.
#[derive(Drop)]
pub struct Marks {
    words: Vec<u64>,
    size: usize,
    // words below `low` and from `high` on are 0
    low: usize,
    high: usize,
}

impl Model for Marks {
    ghost use Rattle.std.specs.Prelude.{List, Bool, length, ◌<◌, ◌≤◌, ◌*◌, ◌^◌};
    ghost use Rattle.fpl_rows.specs.Marking.{AreBits, bits_in};

    ghost Value = { List Bool };

    ghost view = { λ m. bits_in m.words.items m.size };

    ghost invariant = { λ m. AreBits m.words.items m.size m.low m.high };
}

/// A place, and where its word may have marks behind it: by the bits of `rest`, the first for the
/// place after it, before place `end`.
#[derive(Clone, Copy, Debug)]
pub struct Cursor {
    pub place: usize,
    pub rest: u64,
    pub end: usize,
}

/// After which bit of a word the last 1 stands.
fn end_in(word: u64) -> usize
    ensures most { result ≤ 64 }
    ensures none { (i : ℕ) → result ≤ i → bit_at word i ≡ 0 }
{
    64 - word.leading_zeros() as usize
}

/// The same of the bits below `most`.
fn end_in_part(word: u64, most: usize) -> usize
    requires { most < 64 }
    ensures most { result ≤ 64 }
    ensures none { (i : ℕ) → result ≤ i → i < most → bit_at word i ≡ 0 }
{
    end_in(word & ((1u64 << most) - 1))
}

/// At which bit of a word the first 1 stands, or 64.
fn start_in(word: u64) -> usize
    ensures most { result ≤ 64 }
    ensures none { (i : ℕ) → i < result → bit_at word i ≡ 0 }
    ensures above { (i : ℕ) → 64 ≤ i → bit_at word i ≡ 0 }
{
    if word == 0 {
        64
    } else {
        word.trailing_zeros() as usize
    }
}

/// The same of the bits from `least` on.
fn start_in_part(word: u64, least: usize) -> usize
    requires { least < 64 }
    ensures most { result ≤ 64 }
    ensures none { (i : ℕ) → least ≤ i → i < result → bit_at word i ≡ 0 }
{
    start_in(word & (u64::MAX << least))
}

/// After which bit the last 1 below `most` stands, where none stands from word `count` on.
fn end_of_words(words: &[u64], low: usize, count: usize, most: usize) -> usize
    requires count { count ≤ length words.now }
    requires few { count < 2 ^ 32 }
    requires before { (k : ℕ) → k < low → slice_index_or words.now k 0 ≡ 0 }
    requires none { (j : ℕ) → 64 * count ≤ j → j < most → bit_in words.now j ≡ false }
    ensures at_most { result ≤ most }
    ensures none { (j : ℕ) → result ≤ j → j < most → bit_in words.now j ≡ false }
{
    let mut k = count;
    while k > low {
        k -= 1;
        // mostly there is none
        if words[k] != 0 {
            return (64 * k + end_in(words[k])).min(most);
        }
    }
    0
}

fn end_among(words: &[u64], low: usize, high: usize, most: usize) -> usize
    requires within { IsWithin words.now low high }
    requires few { high < 2 ^ 32 }
    ensures at_most { result ≤ most }
    ensures none { (j : ℕ) → result ≤ j → j < most → bit_in words.now j ≡ false }
{
    let k = most / 64;
    if k < high {
        let end = end_in_part(words[k], most % 64);
        if end > 0 {
            (64 * k + end).min(most)
        } else {
            end_of_words(words, low, k, most)
        }
    } else {
        end_of_words(words, low, high, most)
    }
}

/// At which bit the first 1 from `from` on stands, or the end, where none stands before word
/// `first`.
fn start_of_words(words: &[u64], first: usize, high: usize, from: usize, end: usize) -> usize
    requires high { high ≤ length words.now }
    requires few { high < 2 ^ 32 }
    requires after { (k : ℕ) → high ≤ k → slice_index_or words.now k 0 ≡ 0 }
    requires from { from ≤ end }
    requires none { (j : ℕ) → from ≤ j → j < 64 * first → bit_in words.now j ≡ false }
    ensures at_least { from ≤ result }
    ensures at_most { result ≤ end }
    ensures none { (j : ℕ) → from ≤ j → j < result → bit_in words.now j ≡ false }
{
    let mut k = first;
    while k < high {
        let start = start_in(words[k]);
        if start < 64 {
            return (64 * k + start).max(from).min(end);
        }
        k += 1;
    }
    end
}

fn start_among(words: &[u64], low: usize, high: usize, from: usize, end: usize) -> usize
    requires within { IsWithin words.now low high }
    requires few { high < 2 ^ 32 }
    requires from { from ≤ end }
    ensures at_least { from ≤ result }
    ensures at_most { result ≤ end }
    ensures none { (j : ℕ) → from ≤ j → j < result → bit_in words.now j ≡ false }
{
    let k = from / 64;
    if k < low {
        start_of_words(words, low, high, from, end)
    } else if k < high {
        let start = start_in_part(words[k], from % 64);
        if start < 64 {
            (64 * k + start).max(from).min(end)
        } else {
            start_of_words(words, k + 1, high, from, end)
        }
    } else {
        start_of_words(words, k, high, from, end)
    }
}

/// The bits of the word of a place that stand behind it.
#[inline(always)]
fn rest_of(words: &[u64], place: usize) -> u64
    requires { place / 64 < length words.now }
    ensures { (j : ℕ) → place < j → j < 64 * (place / 64 + 1) → bit_at result (j - place - 1) ≡ 0 → bit_in words.now j ≡ false }
{
    (words[place / 64] >> (place % 64)) >> 1
}

/// At bit `bit` of word `k`, or at the end where that comes first.
#[inline(always)]
fn cursor_at(words: &[u64], k: usize, bit: usize, size: usize) -> Cursor
    requires word { k < length words.now }
    requires few { k < 2 ^ 32 }
    requires bit { bit < 64 }
    ensures place { result.place ≡ min (64 * k + bit) size }
    ensures rest { IsRest (bits_in words.now size) result.place result.rest result.end }
{
    Cursor {
        place: (64 * k + bit).min(size),
        rest: (words[k] >> bit) >> 1,
        end: (64 * (k + 1)).min(size),
    }
}

/// At the first 1 of the words from `first` on, or at the end.
#[inline(always)]
fn cursor_of_words(words: &[u64], first: usize, high: usize, size: usize) -> Cursor
    requires high { high ≤ length words.now }
    requires few { high < 2 ^ 32 }
    requires after { (k : ℕ) → high ≤ k → slice_index_or words.now k 0 ≡ 0 }
    ensures at_least { (from : ℕ) → from ≤ 64 * first → from ≤ size → from ≤ result.place }
    ensures at_most { result.place ≤ size }
    ensures none { (j : ℕ) → 64 * first ≤ j → j < result.place → bit_in words.now j ≡ false }
    ensures rest { IsRest (bits_in words.now size) result.place result.rest result.end }
{
    let mut k = first;
    while k < high {
        // mostly there is none
        if words[k] != 0 {
            let start = start_in(words[k]);
            if start < 64 {
                return cursor_at(words, k, start, size);
            }
        }
        k += 1;
    }
    Cursor {
        place: size,
        rest: 0,
        end: size,
    }
}

/// Makes the words from `low` to `high` 0, which are all that may be another.
fn unmark(words: &mut [u64], low: usize, high: usize)
    requires { IsWithin words.old low high }
    ensures { words.new ≡ replicate (length words.old) 0 }
{
    for k in low..high {
        words[k] = 0;
    }
}

impl Marks {
    /// `size` places without a mark.
    pub fn new(alloc: Global, size: u32) -> Result<Marks, AllocError>
        ensures { IfOk result (λ m. m ≡ replicate size false) }
    {
        let count = size as usize / 64 + 1;
        let mut words = Vec::with_capacity(alloc, count)?;
        words.resize(count, 0u64)?;
        Ok(Marks {
            words,
            size: size as usize,
            low: count,
            high: 0,
        })
    }

    /// Marks place `k`.
    pub fn mark(&mut self, k: usize)
        requires { k < length self.old }
        ensures { self.new ≡ slice_set self.old k true }
    {
        let at = k / 64;
        self.words[at] = self.words[at] | (1u64 << (k % 64));
        self.low = self.low.min(at);
        self.high = self.high.max(at + 1);
    }

    /// After which place the last mark below `most` stands: from there on there is none.
    pub fn end_below(&self, most: usize) -> usize
        ensures at_most { result ≤ most }
        ensures none { (k : ℕ) → result ≤ k → k < most → slice_index_or self.now k false ≡ false }
    {
        end_among(&self.words, self.low, self.high, most)
    }

    /// At which place from `from` on the first mark stands: up to there there is none.
    pub fn start_from(&self, from: usize) -> usize
        requires { from ≤ length self.now }
        ensures at_least { from ≤ result }
        ensures at_most { result ≤ length self.now }
        ensures none { (k : ℕ) → from ≤ k → k < result → slice_index_or self.now k false ≡ false }
    {
        start_among(&self.words, self.low, self.high, from, self.size)
    }

    /// The first place from `from` on that has a mark, or the end: up to there there is none.
    pub fn cursor_from(&self, from: usize) -> Cursor
        requires from { from ≤ length self.now }
        ensures at_least { from ≤ result.place }
        ensures at_most { result.place ≤ length self.now }
        ensures none { (k : ℕ) → from ≤ k → k < result.place → slice_index_or self.now k false ≡ false }
        ensures rest { IsRest self.now result.place result.rest result.end }
    {
        // mostly a word begins there
        if from % 64 == 0 {
            let first = (from / 64).max(self.low);
            return cursor_of_words(&self.words, first, self.high, self.size);
        }
        let place = self.start_from(from);
        Cursor {
            place,
            rest: rest_of(&self.words, place),
            end: (64 * (place / 64 + 1)).min(self.size),
        }
    }

    /// The next place behind one that has a mark, or the end.
    #[inline(always)]
    pub fn after(&self, at: Cursor) -> Cursor
        requires place { at.place < length self.now }
        requires rest { IsRest self.now at.place at.rest at.end }
        ensures at_least { at.place + 1 ≤ result.place }
        ensures at_most { result.place ≤ length self.now }
        ensures none { (k : ℕ) → at.place + 1 ≤ k → k < result.place → slice_index_or self.now k false ≡ false }
        ensures rest { IsRest self.now result.place result.rest result.end }
    {
        // its invariant bounds the places
        let _size = self.size;
        let skip = start_in(at.rest);
        if skip < 64 && at.place + 1 + skip < at.end {
            Cursor {
                place: at.place + 1 + skip,
                rest: (at.rest >> skip) >> 1,
                end: at.end,
            }
        } else {
            self.cursor_from(at.end.max(at.place + 1))
        }
    }

    /// Takes each mark off.
    pub fn clear(&mut self)
        ensures { self.new ≡ replicate (length self.old) false }
    {
        unmark(&mut self.words, self.low, self.high);
        self.low = self.words.len();
        self.high = 0;
    }
}
