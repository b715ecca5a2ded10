//! How many sessions have rows, and how many rows each may have.
ghost use Rattle.std.specs.Prelude.{◌≡◌, ◌≤◌, ◌+◌, ◌-◌, true, cond, nat_lt};

// At most so many sessions, and so many rows of each.
const SESSIONS: usize = 32;

const ROWS: usize = 16;

// Whether one more may come to a session that has so many, where so many sessions have some.
pub(crate) fn has_room(among: usize, sessions: usize) -> bool
    ensures { result ≡ cond (nat_lt 0 among) (nat_lt among 16) (nat_lt sessions 32) }
{
    if 0 < among {
        among < ROWS
    } else {
        sessions < SESSIONS
    }
}

// How many sessions have some, with one more of a session that has so many.
pub(crate) fn with_session(among: usize, sessions: usize) -> usize
    requires { sessions ≤ 32 }
    ensures { result ≡ cond (nat_lt 0 among) sessions (sessions + 1) }
{
    if 0 < among { sessions } else { sessions + 1 }
}

// How many sessions have some, with one less of a session that has so many then.
pub(crate) fn without_session(among: usize, sessions: usize) -> usize
    requires { 1 ≤ sessions }
    ensures { result ≡ cond (nat_lt 0 among) sessions (sessions - 1) }
{
    if 0 < among { sessions } else { sessions - 1 }
}

// How many sessions have some, without all of a session that has so many.
pub(crate) fn without_all(among: usize, sessions: usize) -> usize
    requires { nat_lt 0 among ≡ true → 1 ≤ sessions }
    ensures { result ≡ cond (nat_lt 0 among) (sessions - 1) sessions }
{
    if 0 < among { sessions - 1 } else { sessions }
}
