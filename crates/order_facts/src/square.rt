//! Which node is joined to which: for each node a row of words, with a bit for each node.

ghost use Rattle.std.specs.Prelude.{◌≡◌, ◌≢◌, ℕ, ◌+◌, ◌^◌, ◌<◌, ◌≤◌, length, IfOk, IfSome, IfNone};
ghost use Rattle.std.specs.Int.{bit_at};
ghost use Rattle.order_facts.specs.Square.{entry, Joins, IsEmptySquare, RaisesEntry, JoinsRow, JoinsSet};
ghost use Rattle.order_facts.specs.Square.{JoinsThrough};
ghost use Rattle.order_facts.specs.Words.{JoinsWords, IsNextBit, IsNextJoined};

use crate::node_set::NodeSet;
use std::alloc::{AllocError, Global};
use std::marker::Model;

/// For each two nodes, whether the first is joined to the second.
#[derive(Debug, Drop)]
pub struct Square {
    size: usize,
    width: usize,
    words: Vec<u64>,
}

impl Model for Square {
    ghost use Rattle.order_facts.specs.Square.{Grid};
    ghost use Rattle.order_facts.specs.Words.{grid_of, AreRows};

    ghost Value = { Grid };

    ghost view = { λ m. grid_of m.size m.width m.words.items };

    ghost invariant = { λ m. AreRows m.size m.width m.words.items };
}

// The least bit of a word from `start` on that is set.
fn next_bit(word: u64, start: usize) -> Option<usize>
    requires { start < 64 }
    ensures found { IfSome result (λ bit. IsNextBit word start bit) }
    ensures none { IfNone result ((bit : ℕ) → start ≤ bit → bit_at word bit ≡ 0) }
{
    let rest = word >> start;
    if rest == 0 {
        return None;
    }
    Some(start + rest.trailing_zeros() as usize)
}

// Sets the bits of so many words in as many others.
fn join_words(words: &mut Vec<u64>, into: usize, from: usize, count: usize)
    requires into { into + count ≤ length words.old.items }
    requires from { from + count ≤ length words.old.items }
    requires apart { (j k : ℕ) → j < k → k < count → into + j ≢ from + k }
    ensures { JoinsWords words.old.items words.new.items words.old.items into from count }
{
    for k in 0..count {
        words[into + k] |= words[from + k];
    }
}

// Sets the bits of so many words of others in as many of these.
fn join_others(words: &mut Vec<u64>, into: usize, others: &[u64], count: usize)
    requires into { into + count ≤ length words.old.items }
    requires others { count ≤ length others.now }
    ensures { JoinsWords words.old.items words.new.items others.now into 0 count }
{
    for k in 0..count {
        words[into + k] |= others[k];
    }
}

impl Square {
    /// A table of so many nodes that joins none of them.
    pub fn new(alloc: Global, size: usize) -> Result<Square, AllocError>
        ensures { IfOk result (λ m. IsEmptySquare m size) }
    {
        let width = size.div_ceil(64);
        let count = size.checked_mul(width).ok_or(AllocError)?;
        let words = vec![in alloc; 0; count]?;
        Ok(Square { size, width, words })
    }

    /// The same table once more.
    pub fn copy(&self) -> Result<Square, AllocError>
        ensures { IfOk result (λ m. m ≡ self.now) }
    {
        let words = Vec::from_slice(self.allocator(), &self.words)?;
        Ok(Square {
            size: self.size,
            width: self.width,
            words,
        })
    }

    /// How many nodes it has.
    pub fn size(&self) -> usize
        ensures { result ≡ self.now.size }
    {
        self.size
    }

    pub fn allocator(&self) -> Global {
        *self.words.allocator()
    }

    /// Whether it joins the first node to the second.
    pub fn get(&self, from: usize, to: usize) -> bool
        requires from { from < self.now.size }
        requires to { to < self.now.size }
        ensures { result ≡ entry self.now from to }
    {
        let word = self.words[from * self.width + to / 64];
        word >> (to % 64) & 1 == 1
    }

    /// Joins the first node to the second.
    #[inline]
    pub fn raise(&mut self, from: usize, to: usize)
        requires from { from < self.old.size }
        requires to { to < self.old.size }
        ensures { RaisesEntry self.old self.new from to }
    {
        let place = from * self.width + to / 64;
        self.words[place] |= 1 << (to % 64);
    }

    /// Joins the row's node to what `through` is joined to.
    pub fn join_row(&mut self, row: usize, through: usize)
        requires row { row < self.old.size }
        requires through { through < self.old.size }
        ensures { JoinsRow self.old self.new row through }
    {
        let width = self.width;
        join_words(&mut self.words, row * width, through * width, width);
    }

    /// Joins the row's node to the nodes of a set.
    pub fn join_set(&mut self, row: usize, set: &NodeSet)
        requires row { row < self.old.size }
        requires size { length set.now ≡ self.old.size }
        ensures { JoinsSet self.old self.new row set.now }
    {
        let width = self.width;
        let count = width.min(set.words.len());
        join_others(&mut self.words, row * width, &set.words, count);
    }

    /// Joins whatever is joined to `through` to what that is joined to.
    pub fn join(&mut self, through: usize)
        requires { through < self.old.size }
        ensures { JoinsThrough self.old self.new through }
    {
        for row in 0..self.size() {
            if self.get(row, through) {
                self.join_row(row, through);
            }
        }
    }

    /// The least node from `start` on that it joins the node to.
    pub fn next(&self, from: usize, start: usize) -> Option<usize>
        requires { from < self.now.size }
        ensures found { IfSome result (λ to. IsNextJoined self.now from start to) }
        ensures none { IfNone result ((to : ℕ) → start ≤ to → ¬ Joins self.now from to) }
        ensures fits { IfSome result (λ to. to + 1 < 2 ^ 64) }
    {
        let mut at = start;
        while at < self.size {
            let word = self.words[from * self.width + at / 64];
            let first = at / 64 * 64;
            if let Some(bit) = next_bit(word, at % 64) {
                let to = first + bit;
                return if to < self.size { Some(to) } else { None };
            }
            at = first + 64;
        }
        None
    }
}
