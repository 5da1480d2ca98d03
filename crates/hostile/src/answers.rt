// Which answer the first line of a text gives.
ghost use Rattle.std.specs.Prelude.{◌<◌};

use std::fmt;

// The numbers of refusals are 1 to this.
pub(crate) const LAST_REFUSAL: u8 = 22;

// A refusal by its number: it is read from a text, which may have one that no `Refusal` has, and these are counted too.
#[derive(Clone, Copy, PartialEq, Eq, Debug)]
pub(crate) enum Answer {
    Done,
    Refused(u8),
    Spent,
}

impl fmt::Display for Answer {
    fn fmt<W: fmt::Write>(&self, f: &mut fmt::Formatter<W>) -> fmt::Result {
        match self {
            Answer::Done => write!(f, "done"),
            Answer::Refused(number) => write!(f, "refused {number}"),
            Answer::Spent => write!(f, "spent"),
        }
    }
}

// How many rows of counts there are: a refusal's is its own number, and the last is that of texts which give none of these.
pub(crate) const ROWS: usize = 25;

pub(crate) fn row_of(answer: Option<Answer>) -> usize
    ensures { result < 25 }
{
    match answer {
        Some(Answer::Done) => 0,
        Some(Answer::Refused(number @ 1..=LAST_REFUSAL)) => number as usize,
        Some(Answer::Spent) => 23,
        _ => 24,
    }
}

// The answer of a text: a refusal's number has one digit or two.
pub(crate) fn answer_of(text: &[u8]) -> Option<Answer> {
    if text.starts_with(b"done ") {
        return Some(Answer::Done);
    }
    if text.starts_with(b"spent ") {
        return Some(Answer::Spent);
    }
    match text.strip_prefix(b"refused ")? {
        [tens @ b'0'..=b'9', ones @ b'0'..=b'9', ..] => {
            Some(Answer::Refused(10 * (tens - b'0') + (ones - b'0')))
        }
        [ones @ b'0'..=b'9', ..] => Some(Answer::Refused(ones - b'0')),
        _ => None,
    }
}
