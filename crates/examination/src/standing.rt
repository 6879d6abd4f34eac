ghost use Rattle.std.specs.Prelude.{◌≤◌};

use history::verdict::Verdict;

pub mod events;

// How many bars stand, and the verdict.
#[derive(Clone, Copy)]
pub(crate) struct Standing {
    pub(crate) bars: usize,
    pub(crate) verdict: Verdict,
    ghost few: { bars ≤ 16 },
}
