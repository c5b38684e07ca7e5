// The answer of a fresh session (SCOPE 7.2) and of reopening (SCOPE 9.3) in numbers, for the C boundary.
#![tactic(auto)]

ghost use Rattle.std.specs.Prelude.{◌≡◌, ℕ};
ghost use Rattle.config.specs.Numbers.{number_of};
ghost use Rattle.host_starts.specs.Sessions.{started_in_c, not_started, fresh_start, reopen_start};
ghost use Rattle.host_starts.specs.Told.{cause, fresh_told, reopening_told};

use config::{ChunkPos, Refusal, Refused, TerrainConfig};
use session_calls::{Opened, Session};

// The answer of a fresh session or of reopening: the record, the number and line of a refusal, and of the journal the number of
// whole lines and of trailing bytes.
#[repr(C)]
#[derive(Drop)]
pub struct Start {
    pub session: Session,
    pub number: u32,
    pub line: usize,
    pub lines: usize,
    pub trailing: usize,
}

// A refusal in numbers: any number, and any line.
#[derive(Clone, Copy)]
pub struct Cause {
    pub number: u32,
    pub line: usize,
}

// What refuses a session has a number and a line.
pub trait Refuses {
    ghost number: { Self → ℕ };

    ghost line: { Self → ℕ };

    fn in_numbers(self) -> Cause
        ensures { result ≡ cause (number self) (line self) };
}

// One that is about no line has line 0.
impl Refuses for Refusal {
    ghost number = { number_of };

    ghost line = { λ _. 0 };

    fn in_numbers(self) -> Cause {
        Cause {
            number: self.number(),
            line: 0,
        }
    }
}

impl Refuses for Refused {
    ghost number = { λ refused. number_of refused.refusal };

    ghost line = { λ refused. refused.line };

    fn in_numbers(self) -> Cause {
        Cause {
            number: self.refusal.number(),
            line: self.line,
        }
    }
}

impl Refuses for Cause {
    ghost number = { λ refused. refused.number };

    ghost line = { λ refused. refused.line };

    fn in_numbers(self) -> Cause {
        self
    }
}

fn begin(session: Session, lines: usize, trailing: usize) -> Start
    ensures { result ≡ started_in_c session lines trailing }
{
    Start {
        session,
        number: 0,
        line: 0,
        lines,
        trailing,
    }
}

// A refusal has no record: all its numbers are 0.
fn begin_none(cause: Cause) -> Start
    ensures { result ≡ not_started cause.number cause.line }
{
    let config = TerrainConfig {
        seed: 0,
        sea_level: 0,
        world_height_blocks: 0,
        chunk_size: 0,
    };
    let pos = ChunkPos {
        cx: 0,
        cy: 0,
        cz: 0,
    };
    let session = Session {
        config,
        pos,
        count: 0,
        used: 0,
        active: 0,
    };
    Start {
        session,
        number: cause.number,
        line: cause.line,
        lines: 0,
        trailing: 0,
    }
}

pub fn fresh_start<E: Refuses>(answer: Result<Session, E>) -> Start
    ensures { result ≡ fresh_start (fresh_told E.number E.line answer) }
{
    match answer {
        Ok(session) => begin(session, 1, 0),
        Err(refused) => begin_none(refused.in_numbers()),
    }
}

pub fn reopen_start<E: Refuses>(answer: Result<Opened, E>) -> Start
    ensures { result ≡ reopen_start (reopening_told E.number E.line answer) }
{
    match answer {
        Ok(opened) => begin(opened.session, opened.lines, opened.trailing),
        Err(refused) => begin_none(refused.in_numbers()),
    }
}
