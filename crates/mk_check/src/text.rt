//! What a script has written, and what it counts.
ghost use Rattle.std.specs.Prelude.{◌≡◌};
ghost use Rattle.mk_check.specs.Feed as feed;

use mk_core::Answer;

/// A script's text, and the counts of its operations that were answered and, of these, of those that were refused.
#[derive(Drop)]
pub struct Text {
    pub bytes: Vec<u8>,
    pub ops: u64,
    pub refused: u64,
}

/// Whether the answer refuses its operation.
pub fn is_refusal(answer: Answer) -> bool
    ensures { result ≡ feed.is_refusal answer }
{
    matches!(
        answer,
        Answer::Full | Answer::Fault | Answer::Null | Answer::Double
    )
}
