// The table of a chart, and what its words stand for.
ghost use Rattle.std.specs.Prelude.{◌≡◌, ◌+◌, ◌*◌, ℕ, get_or};
ghost use Rattle.cond.specs.Meaning.{true_in};
ghost use Rattle.line.specs.Words.{part_at, limit_at, moves_from, holds_from, latches_from};
ghost use Rattle.evolve.specs.Table.{count_in, condition_at};
ghost use Rattle.evolve.specs.Parts.{walked};

use crate::Chart;
use cond::View;
use line::{Head, Known, Table};

impl Chart<'_> {
    // A word of the table: past its end there are zeros.
    fn word(&self, at: usize) -> u32
        ensures { result ≡ get_or self.now.table.now at 0 }
    {
        let table = self.table;
        table.get(at).copied().unwrap_or(0)
    }

    // The most firings that an evolution may have.
    pub(crate) fn limit(&self) -> u32
        ensures { result ≡ get_or self.now.table.now limit_at 0 }
    {
        self.word(Known::LIMIT)
    }

    // How many lines of a kind there are, by the word of the head that says so.
    fn count(&self, at: usize) -> u32
        ensures { result ≡ count_in self.now.table.now at }
    {
        self.word(at).min(Head::LINES)
    }

    // What the rows of a kind come to, the last row first: `more` adds a row to what was found.
    pub(crate) fn walk<T: Copy, F: Fn(T, u32) -> T>(&self, kind: usize, nothing: T, more: F) -> T
        requires { F.IsAlwaysCallable more }
        ensures { (J : ℕ → T → T) → ((i : ℕ) (found r : T) → F.post more found i r → r ≡ J i found) → result ≡ walked J nothing 0 (count_in self.now.table.now kind) }
    {
        let mut found = nothing;
        for i in (0..self.count(kind)).rev() {
            found = more(found, i);
        }
        found
    }

    // The steps before move i.
    pub(crate) fn before(&self, i: u32) -> u32
        ensures { result ≡ get_or self.now.table.now (moves_from + 3 * i) 0 }
    {
        self.word(Table::MOVES + 3 * (i as usize))
    }

    // The steps after move i.
    pub(crate) fn after(&self, i: u32) -> u32
        ensures { result ≡ get_or self.now.table.now (moves_from + 3 * i + 1) 0 }
    {
        self.word(Table::MOVES + 3 * (i as usize) + 1)
    }

    // Where the condition of move i lies.
    pub(crate) fn condition(&self, i: u32) -> u32
        ensures { result ≡ get_or self.now.table.now (moves_from + 3 * i + 2) 0 }
    {
        self.word(Table::MOVES + 3 * (i as usize) + 2)
    }

    // The row of hold i.
    pub(crate) fn hold(&self, i: u32) -> u32
        ensures { result ≡ get_or self.now.table.now (holds_from + i) 0 }
    {
        self.word(Table::HOLDS + i as usize)
    }

    // The row of latch i.
    pub(crate) fn latch_row(&self, i: u32) -> u32
        ensures { result ≡ get_or self.now.table.now (latches_from + i) 0 }
    {
        self.word(Table::LATCHES + i as usize)
    }

    // Whether the condition that a word names is true in the view. Conditions are looked up here alone.
    pub(crate) fn condition_holds(&self, word: u32, view: &View) -> bool
        ensures { result ≡ true_in view.now (condition_at self.now.text.now word) }
    {
        cond::holds(self.part(word), view)
    }

    // The part of the text that a word names by its place and its length.
    fn part(&self, word: u32) -> &[u8]
        ensures { result.now ≡ part_at self.now.text.now word }
    {
        let len = self.text.len();
        let from = ((word / 128) as usize).min(len);
        let end = (from + (word % 128) as usize).min(len);
        &self.text[from..end]
    }
}
