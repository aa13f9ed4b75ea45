ghost use Rattle.std.specs.Prelude.{◌≡◌, ◌<◌, ◌≤◌, ◌∷◌, [], length};
ghost use Rattle.lic_text.specs.Physical.{physical_lines};
ghost use Rattle.lic_text.specs.Left.{words_left};
ghost use Rattle.lic_text.specs.Lines.{words_of};
ghost use Rattle.lic_text.specs.Prefix.{joined_text};

use crate::physical::{after_blanks, cut_line, strip_last, word_end};

/// The words of a logical line, each a slice of the file.
#[derive(Clone, Copy)]
pub struct Words<'a> {
    // What is left of the physical line that is read.
    pub(crate) text: &'a [u8],
    // The file from the physical line on that continues it; empty where none does.
    pub(crate) further: &'a [u8],
}

impl<'a> Words<'a> {
    ghost use Rattle.std.specs.Iterator.{YieldsFirstBy};
    ghost use Rattle.lic_text.specs.Left.{words_left};

    /// The words of a logical line from this physical line of it on, behind which the file goes on.
    pub(crate) fn beginning(text: &'a [u8], behind: &'a [u8]) -> Words<'a>
        ensures words { words_left result ≡ words_of (joined_text (text.now ∷ physical_lines behind.now)) }
        ensures within { length result.further.now ≤ length behind.now }
    {
        match strip_last(text, b'\\') {
            Some(front) => Words {
                text: front,
                further: behind,
            },
            None => Words { text, further: &[] },
        }
    }

    /// The next word of the physical line that is read.
    fn next_here(&mut self) -> Option<&'a [u8]>
        ensures further { self.new.further.now ≡ self.old.further.now }
        ensures word { YieldsFirstBy (λ word. word.now) words_of self.old.text.now result self.new.text.now }
    {
        let text = after_blanks(self.text);
        if text.is_empty() {
            self.text = text;
            return None;
        }
        let (word, text) = text.split_at(word_end(text));
        self.text = text;
        Some(word)
    }

    /// Goes on to the next physical line.
    fn go_on(&mut self)
        requires { 0 < length self.old.further.now }
        ensures words { words_left self.new ≡ words_of (joined_text (physical_lines self.old.further.now)) }
        ensures nearer { length self.new.further.now < length self.old.further.now }
    {
        let (text, rest) = cut_line(self.further);
        *self = Words::beginning(text, rest);
    }
}

/// The words of a text, each a slice of it: its longest runs of bytes that are neither space nor tab.
pub fn words_in(text: &[u8]) -> Words<'_>
    ensures { words_left result ≡ words_of text.now }
{
    Words { text, further: &[] }
}

impl<'a> Iterator for Words<'a> {
    ghost use Rattle.std.specs.Iterator.{YieldsFirstBy, item_count};
    ghost use Rattle.lic_text.specs.Left.{words_left};

    type Item = &'a [u8];

    ghost next_gives = { YieldsFirstBy (λ word. word.now) words_left };

    ghost remaining = { item_count words_left };

    fn next(&mut self) -> Option<&'a [u8]> {
        while !self.further.is_empty() {
            if let Some(word) = self.next_here() {
                return Some(word);
            }
            self.go_on();
        }
        self.next_here()
    }
}
