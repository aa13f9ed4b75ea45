ghost use Rattle.options_text.specs.Laws.{CanonicalReadsBack, CanonicalStays};

/// The canonical text of what a file says says the same: equal groups, rules and notes, each at its own line.
///
/// It does nothing when it runs: a call tells it to the caller's proof.
pub fn canonical_text_reads_back()
    ensures { CanonicalReadsBack }
{}

/// The canonical text of what a canonical text says is that text, byte by byte.
///
/// It does nothing when it runs: a call tells it to the caller's proof.
pub fn canonical_text_stays()
    ensures { CanonicalStays }
{}
