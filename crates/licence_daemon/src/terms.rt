use feature_lines::Licence;
use options_text::Options;

/// What a daemon serves: a licence, and the options of each rule set.
#[derive(Drop)]
pub struct Terms {
    /// The licence.
    pub licence: Licence,
    /// The options of the rule sets, of which the first holds at first.
    pub sets: Vec<Options>,
}
