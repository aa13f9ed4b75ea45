ghost use Rattle.std.specs.Prelude.{◌≡◌, ◌^◌, ◌<◌, length};
ghost use Rattle.lic_text.specs.Lines.{lines_of};
ghost use Rattle.lic_text.specs.LinesLeft.{lines_left};

use crate::logical::Lines;

/// The logical lines of a licence, options or script file, of any bytes.
///
/// These are the rules, which are this project's own. Blanks are space and tab.
///
/// - A physical line ends at LF or at the end of the file, and the one CR before that is no part of it. Physical lines
///   are numbered from 1. A file that ends in LF has no further line.
/// - A physical line that continues none and whose first byte that isn't blank is `#` is a comment. It is passed over
///   whole, however long it is and also where it ends in a backslash.
/// - Any other physical line that ends in a backslash is continued by the next one, whatever that begins with. One
///   space stands in the place of the backslash.
/// - A logical line without words is passed over.
///
/// The lines end at the first fault. It is `LineTooLong` exactly where a logical line has more than 8,192 bytes,
/// joining spaces counted and CR, LF and backslashes that continue not. It is `OpenContinuation` exactly where the file
/// ends in a continued line that isn't too long, the space in the place of its last backslash counted.
pub fn lines(file: &[u8]) -> Lines<'_>
    requires { length file.now < 2 ^ 32 }
    ensures { lines_left result ≡ lines_of file.now }
{
    Lines {
        rest: file,
        passed: 0,
    }
}
