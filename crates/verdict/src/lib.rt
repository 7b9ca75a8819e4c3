// Refusals 1 to 12, 21 "after 10" and 19 "after 12": the first that is due in this order, "at its first place in the line".
#![tactic(auto)]

ghost use Rattle.std.specs.Prelude.{◌≡◌, ℕ};
ghost use Rattle.scope.specs.Answers.{refuses, reason_number, says};
ghost use Rattle.scope.specs.Bytes.{is_printable};
ghost use Rattle.scope.specs.Line.{Line};
ghost use Rattle.scope.specs.Reading.{holds, reading};
ghost use Rattle.classes.specs.Runs.{span};
ghost use Rattle.verdict.specs.Due.{WalkedLine, FirstOf, by_code, unread};
ghost use Rattle.verdict.specs.Says.{VerdictSays, JudgedSays};

use rules::Found;
use scope::refusals::{Reason, Refusal};
use scope::tables::Tables;
use sheet::Sheet;

// What an accepted line has: so many residues, brackets and floaters.
#[derive(Clone, Copy, Debug, PartialEq, Eq)]
pub struct Noted {
    pub residues: usize,
    pub brackets: usize,
    pub floaters: usize,
}

// The place of the first byte outside 32 to 126; the line's length where there is none.
fn printable_end(line: &[u8]) -> usize
    ensures { result ≡ span is_printable line.now }
{
    classes::run_end(line, 0, classes::is_printable)
}

// Refusal 3; or 4, at the place where no line goes on.
fn not_read(line: &[u8], place: usize) -> Refusal
    ensures { refuses (reason_number result.reason) result.place ≡ unread line.now place }
{
    let end = printable_end(line);
    if end < line.len() {
        Refusal {
            reason: Reason::OutsideByte,
            place: end,
        }
    } else {
        Refusal {
            reason: Reason::Order,
            place,
        }
    }
}

// The first refusal due of 5 to 12, 19 and 21, where `least` is the first of 5 to 9 and 19, and how many copies float where none is due: the rules are asked where none of 5 to 9 is.
fn first_due(line: &[u8], sheet: &Sheet, brackets: usize, least: usize) -> Found
    requires { WalkedLine line.now sheet.now.heads sheet.now.parts brackets least }
    ensures { (l : Line ℕ) → reading line.now ≡ holds l → FirstOf l result.first result.floaters }
{
    if least < dues::RULED {
        return Found {
            first: least,
            floaters: 0,
        };
    }
    rules::rules_due(line, sheet, brackets, least)
}

// What the first refusal due says of a line that has so much.
fn by_code(c: usize, noted: Noted) -> Result<Noted, Refusal>
    ensures { (l : Line ℕ) → says result ≡ by_code l c noted }
{
    if c < dues::NONE {
        Err(Refusal {
            reason: dues::reason_of(c),
            place: dues::place_of(c),
        })
    } else {
        Ok(noted)
    }
}

// The refusal of a line; or that it is accepted, and what it holds in the sheet, which may hold anything before.
pub fn judge(line: &[u8], sheet: &mut Sheet) -> Result<Noted, Refusal>
    ensures { JudgedSays line.now result sheet.new }
{
    if line.is_empty() {
        return Err(Refusal {
            reason: Reason::EmptyLine,
            place: 0,
        });
    }
    if Tables::LINE < line.len() {
        return Err(Refusal {
            reason: Reason::LongLine,
            place: Tables::LINE,
        });
    }
    match walk::walk(line, sheet) {
        Err(stuck) => Err(not_read(line, stuck.at)),
        Ok(walked) => {
            let found = first_due(line, sheet, walked.brackets, walked.least);
            by_code(
                found.first,
                Noted {
                    residues: walked.residues,
                    brackets: walked.brackets,
                    floaters: found.floaters,
                },
            )
        }
    }
}

// Whether a line is accepted, or its refusal.
pub fn verdict_on(line: &[u8]) -> Result<(), Refusal>
    ensures { VerdictSays line.now result }
{
    let mut sheet = Sheet::new();
    match judge(line, &mut sheet) {
        Ok(_) => Ok(()),
        Err(refusal) => Err(refusal),
    }
}
