// Plays 10,000 generated files, and prints how many of each sort gave each answer. All answers occur but eight: 11 and 12 are the writer's, 15 to 18
// no page's, and 20 and 21 need a floor. The last line counts what must never be: a text that is none of these, or a byte changed behind the text.
#![tactic(auto)]

use answers::{Answer, LAST_REFUSAL, ROWS, answer_of, row_of};
use draft::Draft;
use std::io;
use std::io::Write;

mod answers;
mod code;
mod dice;
mod draft;
mod files;

// How many files of each sort.
const PLAIN: u64 = 3000;

const HEADED: u64 = 3000;

const LIKELY: u64 = 4000;

// One byte more than a file may have.
const ROOM: usize = pagefile::LONGEST_FILE + 1;

// What stands in the buffer before a call.
const FILL: u8 = 0xcc;

// How many files of a sort gave each answer, by rows.
type Counts = [u64; ROWS];

// The same for all three sorts.
#[derive(Drop)]
struct Table {
    plain: Counts,
    headed: Counts,
    likely: Counts,
}

// The answer that a file gets, where the buffer stays as it was behind the text.
fn answer_to(file: &[u8]) -> Option<Answer> {
    let mut room = [FILL; printout::LONGEST_REPORT];
    let written = player::play(file, &mut room);
    let (text, behind) = room.split_at(written);
    if behind.iter().all(|byte| *byte == FILL) {
        answer_of(text)
    } else {
        None
    }
}

// Plays so many files, each made in this way, and counts the answers.
fn tally<F: Fn(&mut Draft)>(make: F, count: u64) -> Counts
    requires { F.IsAlwaysCallable make }
{
    let mut draft = Draft::new();
    let mut counts: Counts = [0; ROWS];
    for _ in 0..count {
        make(&mut draft);
        let row = row_of(answer_to(draft.file()));
        counts[row] = counts[row].wrapping_add(1);
    }
    counts
}

// A line: the answer's name, and how many files of each sort gave it.
fn write_line(out: &mut impl Write, answer: Option<Answer>, table: &Table) -> io::Result<()> {
    match answer {
        Some(answer) => write!(out, "{answer}")?,
        None => write!(out, "none of these")?,
    }
    let row = row_of(answer);
    let plain = table.plain[row];
    let headed = table.headed[row];
    let likely = table.likely[row];
    write!(out, ": plain {plain}, headed {headed}, likely {likely}\n")
}

// A line for each answer.
fn write_table(out: &mut impl Write, table: &Table) -> io::Result<()> {
    write_line(out, Some(Answer::Done), table)?;
    for number in 1..=LAST_REFUSAL {
        write_line(out, Some(Answer::Refused(number)), table)?;
    }
    write_line(out, Some(Answer::Spent), table)?;
    write_line(out, None, table)
}

fn main(rt: HostRuntime) -> io::Result<()> {
    let table = Table {
        plain: tally(Draft::plain, PLAIN),
        headed: tally(Draft::headed, HEADED),
        likely: tally(Draft::likely, LIKELY),
    };
    write_table(&mut io::writer(&rt), &table)
}
