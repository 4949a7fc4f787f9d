ghost use Rattle.std.specs.Prelude.{◌≡◌, All};
ghost use Rattle.facet_engine.specs.Sessions.{HaveOneNumber, HasSeen, NamesSession};

use crate::held::HeldPairs;
use pair_manager::Pass;

/// A session: its number, its token of each chronicle, and the pairs that it holds. All operations that it enters
/// have its number.
///
/// Use each session on one thread at a time. Sessions on different threads work concurrently.
#[derive(Drop)]
pub struct Session {
    /// The number of the session, from 1.
    pub number: u32,
    /// What the session has seen: its token of each chronicle.
    pub pass: Pass,
    /// The pairs that it holds, by their names.
    pub held: HeldPairs,
    ghost numbers: { HaveOneNumber number pass },
    ghost own: { NamesSession number pass },
    ghost seen: { All (λ h. HasSeen pass h.pair) held },
}
