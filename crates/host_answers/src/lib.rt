// Each answer of a call on cells in numbers, for the C boundary: the refusal's number (SCOPE 10), 0 where the call is accepted, its line,
// and its values.
#![tactic(auto)]

ghost use Rattle.std.specs.Prelude.{◌≡◌, ℕ, List, []};
ghost use Rattle.config.specs.Answers.{says};
ghost use Rattle.chunk.specs.Replies.{one_number, yes};
ghost use Rattle.chunk_batch.specs.Replies.{says_written};
ghost use Rattle.chunk_border.specs.Border.{says_extracted};
ghost use Rattle.host_answers.specs.Answers.{answer, first_of, answer_of, batch_answer, batch_answer_of};
ghost use Rattle.host_answers.specs.Answers.{border_answered, border_in_c_does};

use chunk_batch::Batched;
use chunk_border::Face;
use config::Refusal;

// The answer of a call on cells: the number of its refusal or 0, its line, and its value.
#[repr(C)]
#[derive(Drop)]
pub struct Answer {
    pub number: u32,
    pub line: usize,
    pub value: usize,
}

// The answer of a batch on bare cells: how many groups were written, and the count.
#[repr(C)]
#[derive(Drop)]
pub struct BatchAnswer {
    pub number: u32,
    pub line: usize,
    pub written: usize,
    pub count: u32,
}

// What an accepted call tells: its values, of which C has the first, or 0 where there is none.
pub trait Tells {
    ghost values: { Self → List ℕ };

    fn value(self) -> usize
        ensures { result ≡ first_of (values self) };
}

// How many cells are not air.
impl Tells for u32 {
    ghost values = { one_number };

    fn value(self) -> usize {
        self as usize
    }
}

// A cell's id.
impl Tells for u16 {
    ghost values = { one_number };

    fn value(self) -> usize {
        usize::from(self)
    }
}

// Yes is 1, no is 0.
impl Tells for bool {
    ghost values = { λ b. one_number (yes b) };

    fn value(self) -> usize {
        usize::from(self)
    }
}

// How many ids were listed.
impl Tells for usize {
    ghost values = { one_number };

    fn value(self) -> usize {
        self
    }
}

// What was asked for lies in the lent slice.
impl Tells for () {
    ghost values = { λ _. [] };

    fn value(self) -> usize {
        0
    }
}

// A refusal of any number: its line is 0, and it has no value.
pub fn refused(number: u32) -> Answer
    ensures { result ≡ answer number 0 0 }
{
    Answer {
        number,
        line: 0,
        value: 0,
    }
}

// The same of a batch.
pub fn refused_batch(number: u32) -> BatchAnswer
    ensures { result ≡ batch_answer number 0 0 0 }
{
    BatchAnswer {
        number,
        line: 0,
        written: 0,
        count: 0,
    }
}

impl<T: Tells> From<Result<T, Refusal>> for Answer {
    ghost from_gives = { λ told answer. answer ≡ answer_of (says T.values told) };

    fn from(told: Result<T, Refusal>) -> Answer {
        match told {
            Ok(value) => Answer {
                number: 0,
                line: 0,
                value: value.value(),
            },
            Err(refusal) => refused(refusal.number()),
        }
    }
}

impl From<Result<Batched, Refusal>> for BatchAnswer {
    ghost from_gives = { λ told answer. answer ≡ batch_answer_of (says_written told) };

    fn from(told: Result<Batched, Refusal>) -> BatchAnswer {
        match told {
            Ok(batched) => BatchAnswer {
                number: 0,
                line: 0,
                written: batched.written,
                count: batched.count,
            },
            Err(refusal) => refused_batch(refusal.number()),
        }
    }
}

// The border on the side of a number. SCOPE 10.6: a number that names no face gets 99, before all other tests.
pub fn extract_border(cells: &[u16], size: usize, n: u32, border: &mut [u16]) -> Result<(), Refusal>
    ensures { border_answered (answer_of (says_extracted result)) border.new ≡ border_in_c_does n size cells.now border.old }
{
    let face = Face::try_from(n)?;
    chunk_border::extract_border(cells, size, face, border)
}
