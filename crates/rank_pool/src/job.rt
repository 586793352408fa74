//! A job, and the gate before its turns.
ghost use Rattle.std.specs.Prelude.{◌≡◌, ℕ, Bool, if◌then◌else◌};

/// What a turn answers: whether the job has more to do.
#[derive(Drop)]
pub enum JobTurn {
    /// The job wants another turn, whether or not this one brought it forward.
    More,
    /// The job is over, and gets no further turn.
    Over,
}

/// Work that is done in turns, beside values that all jobs of a run share. Any thread may give a job its next turn,
/// one at a time.
pub trait Job: Send + Drop {
    /// What all jobs of a run share, by reference.
    type Shared: Sync;

    /// Whether it is over.
    ghost over: { Self → Bool };

    /// Which job it is.
    ghost which: { Self → ℕ };

    /// Whether it belongs to these shared values.
    ghost belongs: { Self → Self.Shared → Type 0 };

    /// Does a part of the work, and answers `Over` exactly where the job is then over. A job stays the one that it
    /// is, and belongs to the shared values as before. A turn that finds that it has to wait for another job answers
    /// `More`: how long it looks before that, and whether it lets another thread run (`yield_now`), is its own affair.
    /// A job that is over when it is given gets one turn as well, which answers `Over`.
    fn turn(&mut self, shared: &Self::Shared) -> JobTurn
        requires { belongs self.old shared.now }
        ensures belongs { belongs self.new shared.now }
        ensures which { which self.new ≡ which self.old }
        ensures over { result ≡ (if over self.new then JobTurn.Over else JobTurn.More) };
}

/// What a worker calls right before each turn, in its own thread. It may hold the turn back.
pub trait Gate: Sync {
    /// `job` is the job's place in the list that was given, and `turn` the number of this turn of the job, both
    /// counted from 0. A turn whose number would be above 2^64 - 1 has that number.
    fn before(&self, job: u32, turn: u64);
}

/// A gate that is always open.
pub struct OpenGate;

impl Gate for OpenGate {
    fn before(&self, _job: u32, _turn: u64) {}
}
