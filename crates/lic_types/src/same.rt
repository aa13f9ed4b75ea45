ghost use Rattle.std.specs.Prelude.{◌≡◌, nat_eq};
ghost use Rattle.std.specs.Cmp.Lexicographic.{pointwise};

/// Whether two texts have the same bytes. It looks at one byte after the other: names and words mostly have a few, for
/// which `==`, which is made for long runs, takes several times as many steps.
pub fn same_bytes(text: &[u8], other: &[u8]) -> bool
    ensures { result ≡ pointwise nat_eq text.now other.now }
{
    let (mut left, mut right) = (text, other);
    while let ([a, more @ ..], [b, others @ ..]) = (left, right) {
        if a != b {
            return false;
        }
        left = more;
        right = others;
    }
    left.is_empty() && right.is_empty()
}
