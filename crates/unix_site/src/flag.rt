//! Whether the bell of a site has rung.
ghost use Rattle.std.specs.Arc.{arc_value};
ghost use Rattle.std.specs.Prelude.{◌≡◌, IfOk};

use std::alloc::Global;
use std::io;
use std::sync::Arc;
use std::sync::atomic::{AtomicU64, Ordering};

/// The flag of a site, which is not 0 once any of the site's bells was rung.
#[derive(Drop)]
pub(crate) struct BellFlag {
    word: Arc<AtomicU64, Global>,
}

impl BellFlag {
    /// Looks at this flag.
    pub(crate) fn of(word: Arc<AtomicU64, Global>) -> BellFlag
        ensures { result.word ≡ word }
    {
        BellFlag { word }
    }

    /// One more that looks at the same flag. It fails where too many do.
    pub(crate) fn another(&self) -> io::Result<BellFlag>
        ensures { IfOk result (λ bell. arc_value bell.word ≡ arc_value self.now.word) }
    {
        Ok(BellFlag {
            word: Arc::try_clone(&self.word)?,
        })
    }

    /// Whether any of the site's bells was rung.
    pub(crate) fn is_rung(&self) -> bool {
        self.word.load(Ordering::SeqCst) != 0
    }
}
