ghost use Rattle.std.specs.Prelude.{◌≡◌};
ghost use Rattle.lic_text.specs.Lines.{fault_of};

use crate::extent::Extent;
use crate::fault::TextFault;

/// The most bytes of a logical line.
const LINE_LIMIT: usize = 8192;

/// The fault of the logical line with this number and extent.
pub(crate) fn fault_of(first: u32, extent: &Extent) -> Option<TextFault>
    ensures { result ≡ fault_of first extent.now.length extent.now.is_open }
{
    if extent.length > LINE_LIMIT {
        Some(TextFault::LineTooLong(first))
    } else if extent.is_open {
        Some(TextFault::OpenContinuation(first))
    } else {
        None
    }
}
