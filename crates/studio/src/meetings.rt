// Where two instructions meet, the earlier first, and how.
ghost use Rattle.std.specs.Prelude.{◌≡◌, find, option_map};
ghost use Rattle.manual.specs.Places.{byte};
ghost use Rattle.manual.specs.Locations.{bytes_from};
ghost use Rattle.studio.specs.Meetings.{all_places, paper_of_place, paper_of_meeting};
ghost use Rattle.studio.specs.inner.Meetings.{registers, in_mask, is_shared, lowest_meeting, first_of, meeting_in, meeting_by};

use crate::{Manner, Meeting, Place};
use machine::{Footprint, Places};
use refusals::Refusal;

// The least register in a mask.
fn lowest_register(mask: u8) -> Option<u8>
    ensures { result ≡ find (in_mask mask) registers }
{
    (0..8).find(|k| (mask >> k) % 2 == 1)
}

// The least byte of two ranges, in a memory of so many bytes: where the one that starts later starts, if that is in the other.
#[tactic(auto, using(crate::proofs::laws::meetings::Bytes::ranging))]
fn lowest_byte(one: Places, other: Places, bytes: usize) -> Option<usize>
    ensures { option_map byte result ≡ find (is_shared one other) (bytes_from 0 bytes) }
{
    let first = one.start.max(other.start);
    let shared = first - one.start < one.length && first - other.start < other.length;
    (shared && first < bytes).then_some(first)
}

// The lowest place that is in both, in a memory of so many bytes.
fn lowest_shared(one: Places, other: Places, bytes: usize) -> Option<Place>
    ensures { option_map paper_of_place result ≡ find (is_shared one other) (all_places bytes) }
{
    let mmx = lowest_register(one.mmx & other.mmx).map(Place::Mmx);
    let integer = lowest_register(one.integers & other.integers).map(Place::Integer);
    let byte = lowest_byte(one, other, bytes).map(Place::Byte);
    let mark = (one.zero && other.zero).then_some(Place::ZeroMark);
    mmx.or(integer).or(byte).or(mark)
}

// The meeting at that place, in a manner.
fn lowest_meeting(one: Places, other: Places, manner: Manner, bytes: usize) -> Option<Meeting>
    ensures { paper_of_meeting result ≡ lowest_meeting bytes manner one other }
{
    lowest_shared(one, other, bytes).map(|place| Meeting::At(place, manner))
}

// The first of two meetings, if there are any.
#[tactic(auto, using(crate::proofs::laws::meetings::Ordering::lesser_first))]
fn first_of(one: Option<Meeting>, other: Option<Meeting>) -> Option<Meeting>
    ensures { paper_of_meeting result ≡ first_of (paper_of_meeting one) (paper_of_meeting other) }
{
    match (one, other) {
        (Some(here), Some(there)) => Some(here.min(there)),
        _ => one.or(other),
    }
}

// EMMS is named before any place; else the lowest place where two instructions meet, and there the first manner.
#[tactic(auto, using(crate::proofs::laws::meetings::Naming::naming))]
fn meeting(first: Footprint, second: Footprint, bytes: usize) -> Option<Meeting>
    ensures { paper_of_meeting result ≡ meeting_in bytes first second }
{
    if machine::kinds_meet(first.kind, second.kind) {
        return Some(Meeting::Emms);
    }
    let both = lowest_meeting(first.writes, second.writes, Manner::BothWrite, bytes);
    let write_read = lowest_meeting(first.writes, second.reads, Manner::WriteRead, bytes);
    let read_write = lowest_meeting(first.reads, second.writes, Manner::ReadWrite, bytes);
    first_of(both, first_of(write_read, read_write))
}

// The meeting of two steps, by their footprints: one that is refused meets none.
pub(crate) fn met(
    first: Result<Footprint, Refusal>,
    second: Result<Footprint, Refusal>,
    bytes: usize,
) -> Option<Meeting>
    ensures { paper_of_meeting result ≡ meeting_by bytes first second }
{
    match (first, second) {
        (Ok(one), Ok(other)) => meeting(one, other, bytes),
        _ => None,
    }
}
