//! The state of a session.
ghost use Rattle.std.specs.Prelude.{◌≡◌, ◌≤◌};
ghost use Rattle.patr_shell.specs.Spoken.{state_seen, at_first, HasLimit};

/// What the commands of a session set.
#[derive(Clone, Copy, Debug, PartialEq, Eq)]
pub struct State {
    /// The most edges that a chart may have, from 1 to 200,000.
    pub limit: u32,
    /// Whether each analysis is written with its features.
    pub features: bool,
    /// Whether the number of edges is written.
    pub count: bool,
}

impl State {
    /// The state at the beginning of a session: both switches are off.
    pub fn first(limit: u32) -> State
        requires { (1 ≤ limit) × (limit ≤ 200000) }
        ensures state { state_seen result ≡ at_first limit }
        ensures limit { HasLimit result }
    {
        State {
            limit,
            features: false,
            count: false,
        }
    }
}
