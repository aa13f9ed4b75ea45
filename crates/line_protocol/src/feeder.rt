//! Lines out of a stream that comes in pieces.
ghost use Rattle.std.specs.Prelude.{◌≡◌, ◌+◌, ◌<◌, ◌≤◌, ◌++◌, ◌∷◌, [], true, false, length, take, drop, IfSome, IfNone};
ghost use Rattle.line_protocol.specs.Streams.{IsFlat, waiting};
ghost use Rattle.line_protocol.specs.Feeding.{Feeds};

use std::marker::Model;

/// The most bytes that a line may have, without its LF.
pub const LINE_LIMIT: usize = 1024;

/// What a piece gave.
#[derive(Clone, Copy, Debug, PartialEq, Eq)]
pub enum Fed {
    /// A line, with this many bytes of the piece, the LF among them.
    Line(usize),
    /// No line yet. All of the piece was taken.
    More,
    /// A line of more than 1,024 bytes.
    TooLong,
}

/// Makes lines of pieces, however the stream is cut.
///
/// Contracts see it as the bytes that it holds (those since the last LF, or the line that it gave last), whether a line
/// was given last, and whether a line was too long.
#[derive(Drop)]
pub struct Feeder {
    len: usize,
    given: bool,
    over: bool,
    bytes: [u8; LINE_LIMIT],
}

impl Model for Feeder {
    ghost use Rattle.std.specs.Prelude.{take};
    ghost use Rattle.line_protocol.specs.Streams.{Held, IsHeld};

    ghost Value = { Held };

    ghost view = { λ f. record { bytes = take f.len f.bytes; given = f.given; over = f.over } };

    ghost invariant = { λ f. IsHeld f.len (take f.len f.bytes) f.over };
}

impl Feeder {
    /// A feeder that was given nothing.
    pub fn make() -> Feeder
        ensures { result ≡ record { bytes = []; given = false; over = false } }
    {
        Feeder {
            len: 0,
            given: false,
            over: false,
            bytes: [0; LINE_LIMIT],
        }
    }

    /// The line that was given last, without its LF.
    pub fn line(&self) -> &[u8]
        ensures { result.now ≡ self.now.bytes }
    {
        &self.bytes[..self.len]
    }

    /// How many bytes came since the last LF, or 0 once a line was too long.
    pub fn rest(&self) -> usize
        ensures { result ≡ length (waiting self.now) }
    {
        if self.given { 0 } else { self.len }
    }

    /// As it was made, also after a line that was too long.
    pub fn clear(&mut self)
        ensures { self.new ≡ record { bytes = []; given = false; over = false } }
    {
        self.len = 0;
        self.given = false;
        self.over = false;
    }

    /// Begins a new line where one was given.
    fn begin(&mut self)
        ensures { self.new ≡ record { bytes = waiting self.old; given = false; over = self.old.over } }
    {
        if self.given {
            self.len = 0;
            self.given = false;
        }
    }

    /// Holds nothing any more.
    fn overflow(&mut self) -> Fed
        ensures result { result ≡ Fed.TooLong }
        ensures over { self.new ≡ record { bytes = []; given = false; over = true } }
    {
        self.len = 0;
        self.given = false;
        self.over = true;
        Fed::TooLong
    }

    /// Takes bytes of a piece, up to its first LF. `TooLong` comes exactly where 1,025 bytes came since the last LF
    /// with no LF among them, and from then on always.
    pub fn feed(&mut self, piece: &[u8]) -> Fed
        ensures { Feeds self.old self.new piece.now result }
    {
        if self.over {
            return Fed::TooLong;
        }
        self.begin();
        match line_feed_at(piece) {
            Some(at) => {
                if at > LINE_LIMIT - self.len {
                    return self.overflow();
                }
                append(&mut self.bytes, self.len, &piece[..at]);
                self.len += at;
                self.given = true;
                Fed::Line(at + 1)
            }
            None => {
                if piece.len() > LINE_LIMIT - self.len {
                    return self.overflow();
                }
                append(&mut self.bytes, self.len, piece);
                self.len += piece.len();
                Fed::More
            }
        }
    }
}

/// Where the first LF stands.
fn line_feed_at(piece: &[u8]) -> Option<usize>
    ensures found { IfSome result (λ i. (i < length piece.now) × IsFlat (take i piece.now) × (piece.now ≡ take i piece.now ++ 10 ∷ drop (i + 1) piece.now)) }
    ensures none { IfNone result (IsFlat piece.now) }
{
    for (i, byte) in piece.iter().enumerate() {
        if *byte == b'\n' {
            return Some(i);
        }
    }
    None
}

/// Writes a piece behind the first bytes.
fn append(bytes: &mut [u8], len: usize, piece: &[u8])
    requires { len + length piece.now ≤ length bytes.old }
    ensures { take (len + length piece.now) bytes.new ≡ take len bytes.old ++ piece.now }
{
    bytes[len..len + piece.len()].copy_from_slice(piece);
}
