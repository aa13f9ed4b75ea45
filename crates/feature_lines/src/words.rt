ghost use Rattle.std.specs.Prelude.{◌≡◌};
ghost use Rattle.std.specs.Str.{str_eq_ignore_ascii_case};

/// Whether a word is this keyword, in any ASCII case.
pub(crate) fn is_word(word: &[u8], keyword: &[u8]) -> bool
    ensures { result ≡ str_eq_ignore_ascii_case word.now keyword.now }
{
    word.eq_ignore_ascii_case(keyword)
}
