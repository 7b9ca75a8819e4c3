// The register kept in blocks, for C, Rust and Python: an area of blocks is lent, and any content of its is answered.
ghost use Rattle.blocks.specs.Answers.{listed_from, survey_said};
ghost use Rattle.export.specs.Blocks.{EmptyHanded, AddHanded, FetchHanded, RemoveHanded, HeadHanded, Surveyed};
ghost use Rattle.scope.specs.Answers.{says};

use crate::tables::placement_in;
use crate::{number_of, tell};
use blocks::{Listed, Survey};
use scope::answers::Placement;
use scope::refusals::{Reason, Refusal};

// Makes an empty area, whatever it held: 0; else 26, with the area as it was.
pub fn hwemiduk_blocks_empty(area: &mut [u8]) -> u8
    ensures { EmptyHanded area.old result area.new }
{
    number_of(keeping::empty(area))
}

// Adds a line with an allowed placement under a number: 0; else 13 where fewer entries than a placement has are lent, the line's own refusals, 18, 26, 25, 23 or 24,
// with the place, and the area as it was.
pub fn hwemiduk_blocks_add(
    area: &mut [u8],
    number: u32,
    placement: &[u16],
    line: &[u8],
    place: &mut usize,
) -> u8
    ensures { AddHanded area.old number placement.now line.now place.old result place.new area.new }
{
    if placement.len() < Placement::COPIES {
        *place = 0;
        return Reason::ShortArea as u8;
    }
    tell(
        keeping::add(area, number, placement_in(placement), line),
        place,
    )
}

// Fetches the entry under a number: 0 with its placement in the first entries lent, its line at the front of an output of any length and the line's length; else 13
// where fewer entries than a placement has are lent, 26, 25 or 22, or 15 with the length needed, and all else as it was.
pub fn hwemiduk_blocks_fetch(
    area: &[u8],
    number: u32,
    placement: &mut [u16],
    out: &mut [u8],
    needed: &mut usize,
) -> u8
    ensures { FetchHanded area.now number placement.old out.old needed.old result placement.new out.new needed.new }
{
    if placement.len() < Placement::COPIES {
        return Reason::ShortArea as u8;
    }
    match keeping::fetch(area, number, out) {
        Ok(fetched) => {
            placement[..Placement::COPIES].copy_from_slice(&fetched.at);
            *needed = fetched.size;
            0
        }
        Err(refusal) => {
            if refusal.reason == Reason::ShortOutput {
                *needed = refusal.place;
            }
            refusal.reason as u8
        }
    }
}

// Removes the entry under a number: 0; else 26, 25 or 22, with the area as it was.
pub fn hwemiduk_blocks_remove(area: &mut [u8], number: u32) -> u8
    ensures { RemoveHanded area.old number result area.new }
{
    number_of(keeping::remove(area, number))
}

// A listed entry, handed out.
fn tell_listed(answer: Result<Listed, Refusal>, block: &mut usize, number: &mut u32) -> u8
    ensures { HeadHanded (says answer) block.old number.old result block.new number.new }
{
    match answer {
        Ok(listed) => {
            *block = listed.block;
            *number = listed.number;
            0
        }
        Err(refusal) => refusal.reason as u8,
    }
}

// The first sound first block from a block on, and its entry's number: 0 with both; else 26, or 17 where there is none.
pub fn hwemiduk_blocks_entry(area: &[u8], from: usize, block: &mut usize, number: &mut u32) -> u8
    ensures { HeadHanded (listed_from area.now from) block.old number.old result block.new number.new }
{
    tell_listed(keeping::entry_from(area, from), block, number)
}

// A survey, handed out.
fn tell_survey(
    answer: Result<Survey, Refusal>,
    free: &mut usize,
    first: &mut usize,
    further: &mut usize,
    other: &mut usize,
    unsound: &mut usize,
) -> u8
    ensures { Surveyed (says answer) free.old first.old further.old other.old unsound.old result free.new first.new further.new other.new unsound.new }
{
    match answer {
        Ok(survey) => {
            *free = survey.free;
            *first = survey.first;
            *further = survey.further;
            *other = survey.other;
            *unsound = survey.unsound;
            0
        }
        Err(refusal) => refusal.reason as u8,
    }
}

// How many blocks of an area are free, first and further ones, of no such kind, and unsound: 0 with all five; else 26.
pub fn hwemiduk_blocks_survey(
    area: &[u8],
    free: &mut usize,
    first: &mut usize,
    further: &mut usize,
    other: &mut usize,
    unsound: &mut usize,
) -> u8
    ensures { Surveyed (survey_said area.now) free.old first.old further.old other.old unsound.old result free.new first.new further.new other.new unsound.new }
{
    tell_survey(keeping::survey(area), free, first, further, other, unsound)
}
