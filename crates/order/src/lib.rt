// What a byte does outside brackets, by how far the order of the line has come.
#![tactic(auto)]

ghost use Rattle.std.specs.Prelude.{◌≡◌, cond, eqb};
ghost use Rattle.scope.specs.Bytes.{open_square};
ghost use Rattle.scope.specs.Reading.{square, front, labile, declared, element, further, group_first, in_group, undecided, counted, referred, at_front, act, may_end};

use classes::{is_digit, is_letter};
use scope::grammar::{Act, Kind, Mode, Section, Slot};

fn square_slot(kind: Kind, refers: bool, after: Mode) -> Slot
    ensures { result ≡ square kind refers after }
{
    Slot {
        kind,
        shut: b']',
        refers,
        labels: true,
        after,
        referred: after,
    }
}

// A bracket at the front: of a run or of the N-terminus.
fn front_slot() -> Slot
    ensures { result ≡ front }
{
    Slot {
        kind: Kind::Unknown,
        shut: b']',
        refers: true,
        labels: true,
        after: Mode::Undecided,
        referred: Mode::Referred,
    }
}

fn labile_slot() -> Slot
    ensures { result ≡ labile }
{
    Slot {
        kind: Kind::Labile,
        shut: b'}',
        refers: false,
        labels: false,
        after: Mode::Labiles,
        referred: Mode::Labiles,
    }
}

// The bracket of a modification that is declared once.
fn declared_slot() -> Slot
    ensures { result ≡ declared }
{
    Slot {
        kind: Kind::Declared,
        shut: b']',
        refers: false,
        labels: false,
        after: Mode::Tagged,
        referred: Mode::Tagged,
    }
}

// Where an element of the sequence may begin.
#[tactic(auto, unfolding(scope::specs::Reading::element))]
fn at_element(b: u8) -> Act
    ensures { result ≡ element b }
{
    match b {
        _ if is_letter(b) => Act::Residue(Section::Plain, Mode::Single),
        b'(' => Act::Go(Mode::Opened),
        _ => Act::Stop,
    }
}

// The same, behind an element: or the C-terminus.
#[tactic(auto, unfolding(scope::specs::Reading::further))]
fn behind_element(b: u8) -> Act
    ensures { result ≡ further b }
{
    if b == b'-' {
        Act::Go(Mode::CStart)
    } else {
        at_element(b)
    }
}

#[tactic(auto, unfolding(scope::specs::Reading::group_first))]
fn at_group(section: Section, mode: Mode, b: u8) -> Act
    ensures { result ≡ group_first section mode b }
{
    if is_letter(b) {
        Act::Residue(section, mode)
    } else {
        Act::Stop
    }
}

#[tactic(auto, unfolding(scope::specs::Reading::in_group))]
fn within_group(section: Section, mode: Mode, end: Mode, b: u8) -> Act
    ensures { result ≡ in_group section mode end b }
{
    match b {
        _ if is_letter(b) => Act::Residue(section, mode),
        b'[' => Act::Begin(square_slot(Kind::OnResidue, true, mode)),
        b')' => Act::Go(end),
        _ => Act::Stop,
    }
}

// Behind a bracket at the front.
#[tactic(auto, unfolding(scope::specs::Reading::undecided))]
fn behind_undecided(b: u8) -> Act
    ensures { result ≡ undecided b }
{
    match b {
        b'[' => Act::Begin(front_slot()),
        b'?' => Act::RunEnds,
        b'-' => Act::TermEnds,
        _ => Act::Stop,
    }
}

// The same, after a count in this run.
#[tactic(auto, unfolding(scope::specs::Reading::counted))]
fn behind_counted(b: u8) -> Act
    ensures { result ≡ counted b }
{
    match b {
        b'[' => Act::Begin(square_slot(Kind::Unknown, false, Mode::Counted)),
        b'?' => Act::RunEnds,
        _ => Act::Stop,
    }
}

// The same, after a reference.
#[tactic(auto, unfolding(scope::specs::Reading::referred))]
fn behind_referred(b: u8) -> Act
    ensures { result ≡ referred b }
{
    match b {
        b'[' => Act::Begin(square_slot(Kind::Unknown, true, Mode::Referred)),
        b'-' => Act::TermEnds,
        _ => Act::Stop,
    }
}

// Where a run, a labile bracket, the N-terminus or the sequence may begin.
fn at_front(b: u8) -> Act
    ensures { result ≡ at_front b }
{
    match b {
        b'[' => Act::Begin(front_slot()),
        b'{' => Act::Begin(labile_slot()),
        _ => at_element(b),
    }
}

// The same, where a declaration may begin.
#[tactic(auto, unfolding(scope::specs::Reading::act))]
fn at_declarations(b: u8) -> Act
    ensures { result ≡ act Mode.Front b }
{
    if b == b'<' {
        Act::Go(Mode::Angle)
    } else {
        at_front(b)
    }
}

#[tactic(auto, unfolding(scope::specs::Reading::act))]
fn at_angle(b: u8) -> Act
    ensures { result ≡ act Mode.Angle b }
{
    if b == b'[' {
        Act::Begin(declared_slot())
    } else {
        Act::Stop
    }
}

#[tactic(auto, unfolding(scope::specs::Reading::act))]
fn behind_tagged(b: u8) -> Act
    ensures { result ≡ act Mode.Tagged b }
{
    if b == b'@' { Act::Places } else { Act::Stop }
}

#[tactic(auto, unfolding(scope::specs::Reading::act))]
fn behind_listed(b: u8) -> Act
    ensures { result ≡ act Mode.Listed b }
{
    if b == b'>' {
        Act::Go(Mode::Front)
    } else {
        Act::Stop
    }
}

#[tactic(auto, unfolding(scope::specs::Reading::act))]
fn behind_labile(b: u8) -> Act
    ensures { result ≡ act Mode.Labiles b }
{
    match b {
        b'{' => Act::Begin(labile_slot()),
        b'[' => Act::Begin(square_slot(Kind::NTerm, true, Mode::NTerms)),
        _ => at_element(b),
    }
}

#[tactic(auto, unfolding(scope::specs::Reading::act))]
fn behind_nterm(b: u8) -> Act
    ensures { result ≡ act Mode.NTerms b }
{
    match b {
        b'[' => Act::Begin(square_slot(Kind::NTerm, true, Mode::NTerms)),
        b'-' => Act::Go(Mode::Start),
        _ => Act::Stop,
    }
}

fn bracket_only(b: u8, kind: Kind, refers: bool, after: Mode) -> Act
    ensures { result ≡ cond (eqb b open_square) (Act.Begin (square kind refers after)) Act.Stop }
{
    if b == b'[' {
        Act::Begin(square_slot(kind, refers, after))
    } else {
        Act::Stop
    }
}

fn bracket_or_further(b: u8, kind: Kind, refers: bool, after: Mode) -> Act
    ensures { result ≡ cond (eqb b open_square) (Act.Begin (square kind refers after)) (further b) }
{
    if b == b'[' {
        Act::Begin(square_slot(kind, refers, after))
    } else {
        behind_element(b)
    }
}

#[tactic(auto, unfolding(scope::specs::Reading::act))]
fn at_undecided(b: u8) -> Act
    ensures { result ≡ act Mode.Undecided b }
{
    if b == b'^' {
        Act::Go(Mode::Caret)
    } else {
        behind_undecided(b)
    }
}

#[tactic(auto, unfolding(scope::specs::Reading::act))]
fn at_counted(b: u8) -> Act
    ensures { result ≡ act Mode.Counted b }
{
    if b == b'^' {
        Act::Go(Mode::Caret)
    } else {
        behind_counted(b)
    }
}

#[tactic(auto, unfolding(scope::specs::Reading::act))]
fn at_caret(b: u8) -> Act
    ensures { result ≡ act Mode.Caret b }
{
    if is_digit(b) { Act::Digit } else { Act::Stop }
}

#[tactic(auto, unfolding(scope::specs::Reading::act))]
fn at_counting(b: u8) -> Act
    ensures { result ≡ act Mode.Counting b }
{
    if is_digit(b) {
        Act::Digit
    } else {
        behind_counted(b)
    }
}

#[tactic(auto, unfolding(scope::specs::Reading::act))]
fn at_opened(b: u8) -> Act
    ensures { result ≡ act Mode.Opened b }
{
    if b == b'?' {
        Act::Go(Mode::UnsureOpened)
    } else {
        at_group(Section::RangeFirst, Mode::InRange, b)
    }
}

// What a byte does: an arm for each mode is the table of 01.
#[tactic(auto, unfolding(scope::specs::Reading::act))]
pub fn act_of(mode: Mode, b: u8) -> Act
    ensures { result ≡ act mode b }
{
    match mode {
        Mode::Front => at_declarations(b),
        Mode::Angle => at_angle(b),
        Mode::Tagged => behind_tagged(b),
        Mode::Listed => behind_listed(b),
        Mode::Runs => at_front(b),
        Mode::Undecided => at_undecided(b),
        Mode::Counted => at_counted(b),
        Mode::Referred => behind_referred(b),
        Mode::Caret => at_caret(b),
        Mode::Counting => at_counting(b),
        Mode::Labiles => behind_labile(b),
        Mode::NTerms => behind_nterm(b),
        Mode::Start => at_element(b),
        Mode::Single => bracket_or_further(b, Kind::OnResidue, true, Mode::Single),
        Mode::Opened => at_opened(b),
        Mode::UnsureOpened => at_group(Section::UnsureFirst, Mode::InUnsure, b),
        Mode::InRange => within_group(Section::RangeNext, Mode::InRange, Mode::RangeEnd, b),
        Mode::InUnsure => within_group(Section::UnsureNext, Mode::InUnsure, Mode::UnsureEnd, b),
        Mode::RangeEnd => bracket_only(b, Kind::OnRange, false, Mode::Ranged),
        Mode::Ranged => bracket_or_further(b, Kind::OnRange, false, Mode::Ranged),
        Mode::UnsureEnd => behind_element(b),
        Mode::CStart | Mode::CTerms => bracket_only(b, Kind::CTerm, true, Mode::CTerms),
    }
}

// Whether a line may end here.
pub fn may_end(mode: Mode) -> bool
    ensures { result ≡ may_end mode }
{
    matches!(
        mode,
        Mode::Single | Mode::Ranged | Mode::UnsureEnd | Mode::CTerms
    )
}
