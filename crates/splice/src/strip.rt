// Drawing an episode as a strip one line wide.
ghost use Rattle.std.specs.Prelude.{◌≡◌, ◌+◌, ◌-◌, ◌*◌, ◌/◌, ◌%◌, ◌<◌, ◌≤◌, length};
ghost use Rattle.words.specs.Bits.{holds, tally};
ghost use Rattle.splice.specs.Strips.{columns_of, edge, mark_of, column_mark, Tiled, Drawn};

use crate::episode::Episode;
use std::fmt;
use words::{WORD_BITS, Word, count_ones, word_below};

const WIDEST: usize = 64;

// How much of a column is advert.
#[derive(Clone, Copy, Debug, Default, PartialEq, Eq)]
pub enum Mark {
    #[default]
    Clear,
    Part,
    Full,
}

// A mark for each column, in order, and none behind them. An array, since a strip is copied, and neither a Vec nor an ArrayVec is.
#[derive(Clone, Copy, Debug, PartialEq, Eq)]
pub struct Strip {
    marks: [Option<Mark>; WIDEST],
}

impl Strip {
    // The strip that shows where an episode is advert. Its columns leave no sample out.
    pub fn of(episode: &Episode) -> Strip
        ensures drawn { Drawn episode.now.samples episode.now.mask.items result }
        ensures tiled { Tiled episode.now.samples }
    {
        let words = episode.words();
        let columns = Columns {
            samples: episode.samples(),
        };
        let mut marks = [None; WIDEST];
        // By number, which a mark is worked out from; `collect` could run out of memory.
        for column in 0..columns.count() {
            marks[column] = Some(columns.mark(words, column));
        }
        Strip { marks }
    }
}

// The columns in which an episode of so many samples is drawn.
#[derive(Clone, Copy, Debug, PartialEq, Eq)]
struct Columns {
    samples: usize,
}

impl Columns {
    fn count(self) -> usize
        ensures { result ≡ columns_of self.samples }
    {
        self.samples.min(WIDEST)
    }

    // The sample at which a column starts, and past the last column the episode's end. What every column has and what is
    // left over are shared out apart, since the product of column and samples can pass 64 bits.
    fn start(self, column: usize) -> usize
        requires some { 0 < self.samples }
        requires within { column ≤ columns_of self.samples }
        ensures value { result ≡ edge self.samples column }
        ensures bound { result ≤ self.samples }
    {
        let count = self.count();
        column * (self.samples / count) + column * (self.samples % count) / count
    }

    // The mark of a column, by the samples from its start up to the next one's.
    fn mark(self, words: &[Word], column: usize) -> Mark
        requires reaches { self.samples ≤ 64 * length words.now }
        requires within { column < columns_of self.samples }
        ensures { result ≡ column_mark self.samples words.now column }
    {
        let start = self.start(column);
        let end = self.start(column + 1);
        Mark::new(advert_between(words, start, end), end - start)
    }
}

impl Mark {
    // The mark of a column of so many samples, of which so many are advert.
    fn new(advert: usize, samples: usize) -> Mark
        ensures { result ≡ mark_of advert samples }
    {
        if advert == 0 {
            Mark::Clear
        } else if advert == samples {
            Mark::Full
        } else {
            Mark::Part
        }
    }
}

// How many samples from `start` up to but excluding `end` are advert.
// The count begins at the start's word, so that only two words are masked; what lies before the start is taken off.
fn advert_between(words: &[Word], start: usize, end: usize) -> usize
    requires order { start ≤ end }
    requires within { end ≤ 64 * length words.now }
    ensures { result ≡ tally (holds words.now) start (end - start) }
{
    let whole = count_ones(&words[start / WORD_BITS..end / WORD_BITS]);
    whole + advert_before(words, end) - advert_before(words, start)
}

// How many samples of the word that has `sample` lie before it and are advert. At the row's end there is no such word.
fn advert_before(words: &[Word], sample: usize) -> usize
    ensures { result ≡ tally (holds words.now) (64 * (sample / 64)) (sample % 64) }
{
    let index = sample / WORD_BITS;
    // A match: through `map_or` the proof of the missing word did not close.
    match words.get(index) {
        Some(word) => count_ones(&[word & word_below(sample, index)]),
        None => 0,
    }
}

impl fmt::Display for Mark {
    fn fmt<W: fmt::Write>(&self, f: &mut fmt::Formatter<W>) -> fmt::Result {
        match *self {
            Mark::Clear => f.write_str("."),
            Mark::Part => f.write_str("+"),
            Mark::Full => f.write_str("#"),
        }
    }
}

impl fmt::Display for Strip {
    fn fmt<W: fmt::Write>(&self, f: &mut fmt::Formatter<W>) -> fmt::Result {
        f.write_str("|")?;
        for mark in self.marks.iter().map_while(|mark| *mark) {
            write!(f, "{mark}")?;
        }
        f.write_str("|")
    }
}
