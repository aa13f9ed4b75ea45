ghost use Rattle.std.specs.Prelude.{◌≡◌, not};
ghost use Rattle.lic_text.specs.Physical.{is_empty};

use crate::words::Words;

/// A logical line with words.
#[derive(Clone, Copy)]
pub struct Line<'a> {
    pub(crate) first: u32,
    // None of them is taken.
    pub(crate) words: Words<'a>,
}

impl<'a> Line<'a> {
    ghost use Rattle.lic_text.specs.Left.{worded_line, words_left};

    /// The number of its first physical line, counted from 1.
    pub fn first(&self) -> u32
        ensures { result ≡ (worded_line self.now).0 }
    {
        self.first
    }

    /// Its words in order, each a slice of the file: the longest runs of bytes that are neither space nor tab.
    pub fn words(&self) -> Words<'a>
        ensures { words_left result ≡ (worded_line self.now).1 }
    {
        self.words
    }

    pub(crate) fn has_words(&self) -> bool
        ensures { result ≡ not (is_empty (worded_line self.now).1) }
    {
        self.words().next().is_some()
    }
}
