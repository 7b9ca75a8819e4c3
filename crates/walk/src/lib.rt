// A line, walked once: a row for each bracket and each part, the letters, and the first refusal due of 5 to 9 and 19; or the place of refusal 4.
#![tactic(auto)]

ghost use Rattle.std.specs.Prelude.{◌≡◌, cond, ◌∷◌, map, ◌+◌, ◌-◌, ◌*◌, ◌<◌, ◌≤◌, min, ltb, length, drop, set, replicate};
ghost use Rattle.std.proofs.lemmas.List.Edits.{sets};
ghost use Rattle.scope.specs.Bytes.{is_letter, upper as inUpper, wide_limit};
ghost use Rattle.scope.specs.Layout.{section_code};
ghost use Rattle.scope.specs.Kinds.{kind_code, is_kind};
ghost use Rattle.labels.specs.Says.{score_code};
ghost use Rattle.scope.specs.Limits.{line_limit, residue_limit, bracket_limit, part_limit, count_limit};
ghost use Rattle.scope.specs.Lists.{part};
ghost use Rattle.scope.specs.Reading.{position_of};
ghost use Rattle.classes.specs.Runs.{span};
ghost use Rattle.sheet.specs.declared.Sheet.{Sheet};
ghost use Rattle.sheet.specs.Fields.{head_row, HeadFits};
ghost use Rattle.walk.specs.Stages.{with_heads, with_letters, Upto, Low, first_stage};
ghost use Rattle.walk.specs.Steps.{gone_to, settled_in, head_put, Settled, count_put, wrong_count, CountNoted, places_put, PlacesStep, behind, group_of, letters_put, sections_put, RunSays, run_behind, HeadSays, NotedSays, least_before, BracketAsks, BracketStep, Stepped};
ghost use Rattle.walk.specs.Walked.{WalkSays};

use inside::Parts;
use scope::grammar::{Act, Kind, Mode, Section, Slot, Stuck};
use scope::tables::Tables;
use sheet::{Head, Sheet};

// How many residues and brackets a line holds, and the first refusal due of 5 to 9 and 19.
#[derive(Clone, Copy, Debug, PartialEq, Eq)]
pub struct Walked {
    pub residues: usize,
    pub brackets: usize,
    pub least: usize,
}

// How far a line is walked: the place, how far its order has come, the number of residues, the position of the group's first, the numbers of brackets, of those that
// are settled and of parts that are noted, and the first refusal due.
#[derive(Clone, Copy, Debug, PartialEq, Eq)]
struct Stage {
    at: usize,
    mode: Mode,
    residues: usize,
    group: usize,
    brackets: usize,
    run: usize,
    parts: usize,
    least: usize,
}

// A byte that only carries the order on.
fn gone(s: Stage, mode: Mode) -> Stage
    requires { Low s }
    ensures { result ≡ gone_to s mode }
{
    Stage {
        at: s.at + 1,
        mode,
        ..s
    }
}

// ---- residues

// Where the letters from `at` on end.
fn letter_end(line: &[u8], at: usize) -> usize
    ensures { result ≡ at + span is_letter (drop at line.now) }
{
    classes::run_end(line, at, classes::is_letter)
}

// The m letters at `at`, in capitals, behind the first n.
fn store_letters(letters: &mut [u8], n: usize, line: &[u8], at: usize, m: usize)
    requires { (at + m ≤ length line.now) × (n + m ≤ length letters.old) × (n + m ≤ residue_limit) × (length line.now ≤ line_limit) }
    ensures { letters.new ≡ sets letters.old n (map inUpper (part at m line.now)) }
{
    for i in 0..m {
        letters[n + i] = classes::upper(line[at + i]);
    }
}

// The sections of the residues from n up to `end`: that of the first, and that of the others.
fn store_sections(sections: &mut [u8], n: usize, end: usize, first: u8, next: u8)
    requires { (n < end) × (end ≤ residue_limit) × (residue_limit ≤ length sections.old) }
    ensures { sections.new ≡ sets sections.old n (first ∷ replicate (end - n - 1) next) }
{
    sections[n] = first;
    for i in n + 1..end {
        sections[i] = next;
    }
}

// The number of a section in the tables: a cast in the middle of an expression would have no law of its cases.
fn section_code(section: Section) -> u8
    ensures { result ≡ section_code section }
{
    section as u8
}

// The section of a letter behind a residue of this section.
fn section_behind(section: Section) -> Section
    ensures { result ≡ behind section }
{
    match section {
        Section::Plain => Section::Plain,
        Section::RangeFirst => Section::RangeNext,
        Section::RangeNext => Section::RangeNext,
        Section::UnsureFirst => Section::UnsureNext,
        Section::UnsureNext => Section::UnsureNext,
    }
}

// The m residues at `at`, behind the first n, where they are not too many.
fn store_run(sheet: &mut Sheet, n: usize, line: &[u8], at: usize, m: usize, section: Section)
    requires { (at + m ≤ length line.now) × (length line.now ≤ line_limit) × (n ≤ at) × (0 < m) }
    ensures { sheet.new ≡ with_letters sheet.old (letters_put line.now at m n sheet.old.letters) (sections_put section m n sheet.old.sections) }
{
    let end = n + m;
    if end <= Tables::RESIDUES {
        store_letters(&mut sheet.letters, n, line, at, m);
        let next = section_behind(section);
        store_sections(
            &mut sheet.sections,
            n,
            end,
            section_code(section),
            section_code(next),
        );
    }
}

// The position of the group's first residue, where residues of this section stand at `first` to `last`, and it was `before`.
fn group_of(section: Section, first: usize, last: usize, before: usize) -> usize
    ensures { result ≡ group_of section first last before }
{
    match section {
        Section::Plain => last,
        Section::RangeFirst => first,
        Section::RangeNext => before,
        Section::UnsureFirst => first,
        Section::UnsureNext => before,
    }
}

// A residue, with all letters behind it: they are residues of the same element or group.
fn residues_read(line: &[u8], sheet: &mut Sheet, s: Stage, section: Section, mode: Mode) -> Stage
    requires { Low s × (s.at < length line.now) × (length line.now ≤ line_limit) }
    ensures { RunSays line.now s section mode result sheet.old sheet.new }
{
    let at = s.at;
    let n = s.residues;
    let end = letter_end(line, at + 1);
    let m = end - at;
    store_run(sheet, n, line, at, m, section);
    let least = dues::due_if(
        s.least,
        Tables::RESIDUES < n + m,
        dues::OVER,
        at + Tables::RESIDUES.saturating_sub(n),
    );
    Stage {
        at: end,
        mode,
        residues: n + m,
        group: group_of(section, n + 1, n + m, s.group),
        least,
        ..s
    }
}

// ---- a bracket

// The number of a kind in the tables, as with that of a section.
fn kind_code(kind: Kind) -> usize
    ensures { result ≡ kind_code kind }
{
    kind as usize
}

// Whether it is that kind.
fn is_kind(kind: Kind, that: Kind) -> bool
    ensures { result ≡ is_kind that kind }
{
    kind as usize == that as usize
}

// The position of a bracket behind n residues, where one on a range stands at `range`.
fn position(kind: Kind, n: usize, range: usize) -> usize
    requires { n < line_limit }
    ensures { result ≡ position_of kind n range }
{
    if is_kind(kind, Kind::OnRange) {
        return range;
    }
    if is_kind(kind, Kind::CTerm) {
        return n + 1;
    }
    n
}

// The row of a bracket with these parts, which begins at this stage.
fn head_of(s: Stage, kind: Kind, p: Parts) -> Head
    requires { Low s × (p.count ≤ line_limit) × (p.labels ≤ p.count) × (score_code p.score < wide_limit) }
    ensures { HeadSays s kind p result }
{
    Head {
        place: s.at,
        kind: kind_code(kind),
        sort: inside::sort_of(p),
        first: position(kind, s.residues, s.group),
        last: position(kind, s.residues, s.residues),
        parts: p.count,
        labels: p.labels,
        base: s.parts,
        score: labels::score_code(p.score),
    }
}

// Bracket k, where it is noted.
fn store_head(sheet: &mut Sheet, k: usize, head: Head, points: i64)
    requires { HeadFits head }
    ensures { sheet.new ≡ head_put k (head_row head) points sheet.old }
{
    if k < Tables::BRACKETS {
        sheet.put_head(k, head);
        sheet.scores[k] = points;
    }
}

// How far the order of the line has come behind a bracket.
fn mode_behind(slot: Slot, refers: bool) -> Mode
    ensures { result ≡ cond refers slot.referred slot.after }
{
    if refers { slot.referred } else { slot.after }
}

// How many brackets are settled behind a bracket: one at the front waits.
fn run_behind(kind: Kind, run: usize, brackets: usize) -> usize
    requires { brackets < line_limit }
    ensures { result ≡ run_behind kind run brackets }
{
    if is_kind(kind, Kind::Unknown) {
        return run;
    }
    brackets + 1
}

// How many parts are noted behind a bracket of so many, where it is noted and where not.
fn parts_behind(noted: bool, base: usize, count: usize) -> usize
    requires { base ≤ line_limit }
    ensures { result ≡ cond noted (base + min part_limit count) base }
{
    if noted {
        if count < Tables::PARTS {
            return base + count;
        }
        return base + Tables::PARTS;
    }
    base
}

// A bracket that was read is noted.
fn bracket_noted(sheet: &mut Sheet, s: Stage, slot: Slot, next: usize, p: Parts) -> Stage
    requires { Low s × (p.count ≤ line_limit) × (p.labels ≤ p.count) × (score_code p.score < wide_limit) }
    ensures { NotedSays s slot next p result sheet.old sheet.new }
{
    let kind = slot.kind;
    let points = labels::score_points(p.score);
    let head = head_of(s, kind, p);
    store_head(sheet, s.brackets, head, points);
    let mode = mode_behind(slot, p.refers);
    Stage {
        at: next,
        mode,
        brackets: s.brackets + 1,
        run: run_behind(kind, s.run, s.brackets),
        parts: parts_behind(s.brackets < Tables::BRACKETS, s.parts, p.count),
        least: p.least,
        ..s
    }
}

// The first refusal due before a bracket of this kind, with one bracket more, and with one declaration more where it is one.
fn least_before(s: Stage, kind: Kind) -> usize
    requires { Low s }
    ensures { result ≡ least_before s kind }
{
    let least = dues::due_if(s.least, Tables::BRACKETS <= s.brackets, dues::OVER, s.at);
    if is_kind(kind, Kind::Declared) {
        if Tables::DECLARATIONS <= s.brackets {
            return dues::due(least, dues::OVER, s.at - 1);
        }
    }
    least
}

// A bracket.
fn bracket_read(line: &[u8], sheet: &mut Sheet, s: Stage, slot: Slot) -> Result<Stage, Stuck>
    requires { BracketAsks line.now s slot }
    ensures { BracketStep line.now s slot result sheet.old sheet.new }
{
    let kind = slot.kind;
    let least = least_before(s, kind);
    let found = inside::bracket_at(
        line,
        sheet,
        s.at + 1,
        slot.shut,
        slot.refers,
        slot.labels,
        s.brackets < Tables::BRACKETS,
        s.parts,
        least,
    )?;
    Ok(bracket_noted(sheet, s, slot, found.next, found.parts))
}

// ---- a count

// The count of the last of n brackets, where it is noted.
fn store_count(sheet: &mut Sheet, n: usize, value: usize)
    requires { (0 < n) × (value ≤ count_limit + 1) }
    ensures { sheet.new ≡ with_heads sheet.old (count_put n value sheet.old.heads) }
{
    if n <= Tables::BRACKETS {
        sheet.put_count(n - 1, value);
    }
}

// "count 1 to 99"
fn is_wrong_count(value: usize) -> bool
    ensures { result ≡ wrong_count value }
{
    value == 0 || Tables::COUNT < value
}

// The digits of a count.
fn count_read(line: &[u8], sheet: &mut Sheet, s: Stage) -> Stage
    requires { Low s × (0 < s.brackets) }
    ensures { CountNoted line.now s result sheet.old sheet.new }
{
    let at = s.at;
    let count = numerals::count_at(line, at);
    let value = count.value;
    store_count(sheet, s.brackets, value);
    let least = dues::due_if(s.least, is_wrong_count(value), dues::WIDE, at);
    Stage {
        at: count.next,
        mode: Mode::Counting,
        least,
        ..s
    }
}

// ---- the places of a declaration

// Those of the last of n brackets, where it is noted.
fn store_places(sheet: &mut Sheet, n: usize, from: usize, many: usize)
    requires { (0 < n) × (from < wide_limit) × (many < wide_limit) }
    ensures { sheet.new ≡ with_heads sheet.old (places_put n from many sheet.old.heads) }
{
    if n <= Tables::BRACKETS {
        sheet.put_places(n - 1, from, many);
    }
}

// The list behind `@`.
fn places_read(line: &[u8], sheet: &mut Sheet, s: Stage) -> Result<Stage, Stuck>
    requires { Low s × (s.at < length line.now) × (length line.now ≤ line_limit) × (0 < s.brackets) }
    ensures { PlacesStep line.now s result sheet.old sheet.new }
{
    let from = s.at + 1;
    let list = sites::list_at(line, from)?;
    store_places(sheet, s.brackets, from, list.many);
    let least = dues::first_due(s.least, dues::OVER, list.over);
    Ok(Stage {
        at: list.next,
        mode: Mode::Listed,
        least,
        ..s
    })
}

// ---- the end of the brackets at the front

// `?` or `-`: they are settled.
fn settled_in(s: Stage, mode: Mode) -> Stage
    requires { Low s }
    ensures { result ≡ settled_in s mode }
{
    Stage {
        at: s.at + 1,
        mode,
        run: s.brackets,
        ..s
    }
}

// The brackets from `first` up to `end` are N-terminal.
fn settle(sheet: &mut Sheet, first: usize, end: usize)
    requires { end ≤ bracket_limit }
    ensures { Settled first end sheet.old sheet.new }
{
    for i in first..end {
        sheet.put_kind(i, Kind::NTerm as usize);
    }
}

// `-`: they are N-terminal.
fn term_ended(sheet: &mut Sheet, s: Stage) -> Stage
    requires { Low s }
    ensures { (result ≡ settled_in s Mode.Start) × Settled s.run (min s.brackets bracket_limit) sheet.old sheet.new }
{
    settle(sheet, s.run, s.brackets.min(Tables::BRACKETS));
    settled_in(s, Mode::Start)
}

// ---- the line

// One byte further, or one bracket, one count, one list of places, or all residues up to the next byte that is none.
fn step_from(line: &[u8], sheet: &mut Sheet, s: Stage) -> Result<Stage, Stuck>
    requires { (length line.now ≤ line_limit) × (s.at < length line.now) × Upto line.now s sheet.old }
    ensures { Stepped line.now s result sheet.new }
{
    let at = s.at;
    let mode = s.mode;
    let act = order::act_of(mode, line[at]);
    match act {
        Act::Stop => Err(Stuck { at }),
        Act::Go(m) => Ok(gone(s, m)),
        Act::Residue(section, m) => Ok(residues_read(line, sheet, s, section, m)),
        Act::Begin(slot) => bracket_read(line, sheet, s, slot),
        Act::Digit => Ok(count_read(line, sheet, s)),
        Act::RunEnds => Ok(settled_in(s, Mode::Runs)),
        Act::TermEnds => Ok(term_ended(sheet, s)),
        Act::Places => places_read(line, sheet, s),
    }
}

// Behind the last byte.
fn line_ended(line: &[u8], s: Stage) -> Result<Walked, Stuck>
    requires { length line.now ≤ s.at }
    ensures { (t : Sheet) → Upto line.now s t → WalkSays line.now result t }
{
    let mode = s.mode;
    if order::may_end(mode) {
        return Ok(Walked {
            residues: s.residues,
            brackets: s.brackets,
            least: s.least,
        });
    }
    Err(Stuck { at: line.len() })
}

// Nothing read yet.
fn first_stage() -> Stage
    ensures { result ≡ first_stage }
{
    Stage {
        at: 0,
        mode: Mode::Front,
        residues: 0,
        group: 0,
        brackets: 0,
        run: 0,
        parts: 0,
        least: dues::NONE,
    }
}

// A line of at most 4,096 bytes. The sheet may hold anything before.
pub fn walk(line: &[u8], sheet: &mut Sheet) -> Result<Walked, Stuck>
    requires { length line.now ≤ line_limit }
    ensures { WalkSays line.now result sheet.new }
{
    sheet.sized();
    let mut s = first_stage();
    // a step reads a byte, a run of letters or a whole bracket: no step of one
    while s.at < line.len() {
        s = step_from(line, sheet, s)?;
    }
    line_ended(line, s)
}
