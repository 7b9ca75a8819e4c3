// Whether lent areas hold the tables of an accepted line that is noted in the sheet: notes and texts are compared with the areas piece by piece, and unused room with
// zero. The areas may hold anything.
#![tactic(auto)]

ghost use Rattle.std.specs.Prelude.{◌≡◌, List, map, ℕ, ◌+◌, ◌^◌, ◌<◌, ◌≤◌, max, pos, length, get_or, take, replicate};
ghost use Rattle.scope.specs.Limits.{line_limit, residue_limit, bracket_limit, part_limit};
ghost use Rattle.scope.specs.Line.{Place, Bracket, Line};
ghost use Rattle.scope.specs.Lists.{part, padded};
ghost use Rattle.scope.specs.Refusals.{outcome};
ghost use Rattle.scope.specs.Layout.{bytes_size, numbers_size, row_at, part_at, places_at, site_at, counts_row, part_fields, places_row};
ghost use Rattle.scope.specs.Answers.{reads_to};
ghost use Rattle.held.specs.Tells.{Tells};
ghost use Rattle.layout_laws.specs.At.{At};
ghost use Rattle.sheet.specs.Rows.{masses_room};
ghost use Rattle.sheet.specs.Kept.{LineNoted};
ghost use Rattle.store.specs.PartPut.{RowFits, ComposedFits, NotedFits};
ghost use Rattle.store.specs.BracketPut.{head_from, PlacesFit};
ghost use Rattle.held.specs.Held.{FrontHeld, PartSeen, FrameHeld, BracketThere, BracketSeen, RestHeld};

use areas::{Bytes, Numbers};
use glycans::Cutting;
use scope::tables::Tables;
use sheet::Sheet;

// ---- pieces
// Answers are joined by `&`: behind `&&` a proof loses what each call told, since the call may be left out (`returns` of `head_held` stays open).

// Do these bytes stand at a place?
fn stands(text: &[u8], bytes: &Bytes, at: usize) -> bool
    requires { at + length text.now ≤ length bytes.now }
    ensures { Tells result (At bytes.now at text.now) }
{
    bytes[at..].starts_with(text)
}

// Do n zeros stand there? All are looked at, many at a time.
fn zero_bytes(bytes: &Bytes, at: usize, n: usize) -> bool
    requires { at + n ≤ length bytes.now }
    ensures { Tells result (At bytes.now at (replicate n 0)) }
{
    let mut top: u8 = 0;
    for i in 0..n {
        top = top.max(bytes[at + i]);
    }
    top == 0
}

// Do n zeros stand there among the numbers?
fn zero_numbers(numbers: &Numbers, at: usize, n: usize) -> bool
    requires { at + n ≤ length numbers.now }
    ensures { Tells result (At numbers.now at (replicate n (pos 0))) }
{
    let mut so = true;
    for i in 0..n {
        so &= numbers[at + i] == 0;
    }
    so
}

// Is this the mass of row m?
fn is_noted(sheet: &Sheet, m: usize, x: i64) -> bool
    requires { m < masses_room }
    ensures { Tells result (x ≡ get_or sheet.now.masses m (pos 0)) }
{
    x == sheet.mass_of(m)
}

// Is this the score of bracket k?
fn is_scored(sheet: &Sheet, k: usize, x: i64) -> bool
    requires { k < bracket_limit }
    ensures { Tells result (x ≡ get_or sheet.now.scores k (pos 0)) }
{
    x == sheet.points_of(k)
}

// Is this that mass, in millionths?
fn is_mass(mass: u64, x: i64) -> bool
    requires { mass < 2 ^ 63 }
    ensures { Tells result (x ≡ pos mass) }
{
    x == mass as i64
}

// ---- in front of the rows

// Do these bytes stand at a place, with zeros behind them up to the limit of residues?
fn padded_held(from: &[u8], bytes: &Bytes, at: usize) -> bool
    requires { (length from.now ≤ residue_limit) × (at + residue_limit ≤ length bytes.now) }
    ensures { Tells result (At bytes.now at (padded 0 residue_limit from.now)) }
{
    let n = from.len();
    stands(from, bytes, at) & zero_bytes(bytes, at + n, Tables::RESIDUES - n)
}

// The numbers of residues and brackets, the letters and the sections?
fn front_held(sheet: &Sheet, residues: usize, brackets: usize, bytes: &Bytes) -> bool
    requires { (residues ≤ residue_limit) × (brackets ≤ bracket_limit) }
    ensures { Tells result (FrontHeld (counts_row residues brackets) (take residues sheet.now.letters) (take residues sheet.now.sections) bytes.now) }
{
    (areas::residues(bytes) == residues)
        & (areas::brackets(bytes) == brackets)
        & padded_held(&sheet.letters[..residues], bytes, Tables::LETTERS)
        & padded_held(&sheet.sections[..residues], bytes, Tables::SECTIONS)
}

// ---- a part

// Is the row of part j of bracket k this, with n bytes of text and l of label at an offset?
fn fields_held(
    value: usize,
    key: usize,
    decimals: usize,
    n: usize,
    l: usize,
    offset: usize,
    k: usize,
    j: usize,
    bytes: &Bytes,
) -> bool
    requires { (k < bracket_limit) × (j < part_limit) }
    ensures { Tells result (At bytes.now (part_at k j) (part_fields value key decimals n l offset)) }
{
    (areas::value(bytes, k, j) == value)
        & (areas::key(bytes, k, j) == key)
        & (areas::decimals(bytes, k, j) == decimals)
        & (areas::text_length(bytes, k, j) == n)
        & (areas::label_length(bytes, k, j) == l)
        & (areas::offset(bytes, k, j) == offset)
}

// Row m as part j of bracket k: its fields, its text and its label behind t bytes of texts, and its mass. How many bytes of texts there are then, where all of it is held.
fn part_held(
    line: &[u8],
    sheet: &Sheet,
    m: usize,
    k: usize,
    j: usize,
    bytes: &Bytes,
    numbers: &Numbers,
    t: usize,
) -> Option<usize>
    requires { RowFits line.now sheet.now.parts sheet.now.masses m k j t }
    ensures { PartSeen line.now sheet.now.parts sheet.now.masses m k j t bytes.now numbers.now result }
{
    if store::is_composition(sheet, m) {
        composition_held(line, sheet, m, k, j, bytes, numbers, t)
    } else {
        noted_held(line, sheet, m, k, j, bytes, numbers, t)
    }
}

// The same of a composition: its short text is put into an array, and compared there.
fn composition_held(
    line: &[u8],
    sheet: &Sheet,
    m: usize,
    k: usize,
    j: usize,
    bytes: &Bytes,
    numbers: &Numbers,
    t: usize,
) -> Option<usize>
    requires { ComposedFits line.now sheet.now.parts sheet.now.masses m k j t }
    ensures { PartSeen line.now sheet.now.parts sheet.now.masses m k j t bytes.now numbers.now result }
{
    let label = &line[sheet.label_from(m)..sheet.label_to(m)];
    let l = label.len();
    let c = store::composition(line, sheet, m);
    let n = c.size;
    let mut short = [0u8; Tables::TEXT];
    store::put_composition(line, sheet, m, &mut short, n);
    let offset = store::offset_of(n + l, t);
    let so = fields_held(
        Cutting::VALUE,
        Cutting::KEY,
        Cutting::DECIMALS,
        n,
        l,
        offset,
        k,
        j,
        bytes,
    ) & stands(&short[..n], bytes, Tables::TEXTS + t)
        & stands(label, bytes, Tables::TEXTS + t + n)
        & is_mass(c.mass, areas::mass(numbers, k, j));
    if so { Some(t + n + l) } else { None }
}

// The same of any other part: as it is noted.
fn noted_held(
    line: &[u8],
    sheet: &Sheet,
    m: usize,
    k: usize,
    j: usize,
    bytes: &Bytes,
    numbers: &Numbers,
    t: usize,
) -> Option<usize>
    requires { NotedFits line.now sheet.now.parts sheet.now.masses m k j t }
    ensures { PartSeen line.now sheet.now.parts sheet.now.masses m k j t bytes.now numbers.now result }
{
    let text = &line[sheet.text_from(m)..sheet.text_to(m)];
    let n = text.len();
    let label = &line[sheet.label_from(m)..sheet.label_to(m)];
    let l = label.len();
    let offset = store::offset_of(n + l, t);
    let value = sheet.value_of(m);
    let key = sheet.key_of(m);
    let decimals = sheet.decimals_of(m);
    let so = fields_held(value, key, decimals, n, l, offset, k, j, bytes)
        & stands(text, bytes, Tables::TEXTS + t)
        & stands(label, bytes, Tables::TEXTS + t + n)
        & is_noted(sheet, m, areas::mass(numbers, k, j));
    if so { Some(t + n + l) } else { None }
}

// ---- a bracket

// The head of bracket k?
fn head_held(sheet: &Sheet, k: usize, bytes: &Bytes) -> bool
    requires { k < bracket_limit }
    ensures { Tells result (At bytes.now (row_at k) (head_from sheet.now.heads k)) }
{
    (areas::kind(bytes, k) == sheet.kind_of(k))
        & (areas::first(bytes, k) == sheet.first_of(k))
        & (areas::last(bytes, k) == sheet.last_of(k))
        & (areas::count(bytes, k) == sheet.count_of(k))
        & (areas::parts(bytes, k) == sheet.parts_of(k))
        & (areas::score(bytes, k) == sheet.score_of(k))
}

// What bracket k has beside its n parts: its head, zeros for the parts that it lacks, its score?
fn frame_held(sheet: &Sheet, k: usize, n: usize, bytes: &Bytes, numbers: &Numbers) -> bool
    requires { (k < bracket_limit) × (n ≤ part_limit) }
    ensures { Tells result (FrameHeld sheet.now.heads sheet.now.scores k n bytes.now numbers.now) }
{
    let lacking = Tables::PARTS - n;
    let behind = Tables::ROWS + k * Tables::ROW + Tables::HEAD + n * Tables::PART;
    head_held(sheet, k, bytes)
        & zero_bytes(bytes, behind, lacking * Tables::PART)
        & zero_numbers(numbers, k * Tables::MASSES + n, lacking)
        & is_scored(sheet, k, areas::score_number(numbers, k))
}

// The sites of bracket k: those of the n places that stand in the line from `at` on?
fn sites_held(line: &[u8], at: usize, n: usize, k: usize, bytes: &Bytes) -> bool
    requires { (ps : List (Place ℕ)) × PlacesFit line.now at n k ps }
    ensures { (ps : List (Place ℕ)) → PlacesFit line.now at n k ps → Tells result (At bytes.now (site_at k 0) (map (λ p. p.site) ps)) }
{
    let mut so = true;
    let mut i = at;
    for j in 0..n {
        let s = sites::site_at(line, i);
        so &= areas::site(bytes, k, j) == s.site;
        i = s.next + 1;
    }
    so
}

// Its places: how many, their sites, and zeros behind them?
fn places_held(line: &[u8], at: usize, n: usize, k: usize, bytes: &Bytes) -> bool
    requires { (ps : List (Place ℕ)) × PlacesFit line.now at n k ps }
    ensures { (ps : List (Place ℕ)) → PlacesFit line.now at n k ps → Tells result (At bytes.now (places_at k) (places_row ps)) }
{
    let behind = Tables::ROWS + (k + 1) * Tables::ROW - Tables::PLACES + n;
    (areas::places(bytes, k) == n)
        & sites_held(line, at, n, k, bytes)
        & zero_bytes(bytes, behind, Tables::PLACES - n)
}

// Bracket k: what it has beside its parts, and each part. How many bytes of texts there are then, where all of it is held.
fn bracket_held(
    line: &[u8],
    sheet: &Sheet,
    k: usize,
    bytes: &Bytes,
    numbers: &Numbers,
    t: usize,
) -> Option<usize>
    requires { (b : Bracket ℕ) × BracketThere line.now sheet.now.heads sheet.now.parts sheet.now.masses sheet.now.scores k t b }
    ensures { (b : Bracket ℕ) → BracketThere line.now sheet.now.heads sheet.now.parts sheet.now.masses sheet.now.scores k t b → BracketSeen k t b bytes.now numbers.now result }
{
    let m = sheet.base_of(k);
    let n = sheet.parts_of(k);
    let at = sheet.places_of(k);
    let many = sheet.many_of(k);
    let so = frame_held(sheet, k, n, bytes, numbers) & places_held(line, at, many, k, bytes);
    if !so {
        return None;
    }
    let mut u = t;
    for j in 0..n {
        u = part_held(line, sheet, m + j, k, j, bytes, numbers, u)?;
    }
    Some(u)
}

// ---- a line

// Zeros behind n brackets and t bytes of texts?
fn rest_held(n: usize, t: usize, bytes: &Bytes, numbers: &Numbers) -> bool
    requires { (n ≤ bracket_limit) × (t ≤ line_limit) }
    ensures { Tells result (RestHeld n t bytes.now numbers.now) }
{
    let lacking = Tables::BRACKETS - n;
    zero_bytes(bytes, Tables::ROWS + n * Tables::ROW, lacking * Tables::ROW)
        & zero_bytes(bytes, Tables::TEXTS + t, Tables::LINE - t)
        & zero_numbers(numbers, n * Tables::MASSES, lacking * Tables::MASSES)
}

// Do the areas hold the tables of an accepted line, which is noted in the sheet?
pub fn holds(
    line: &[u8],
    sheet: &Sheet,
    residues: usize,
    brackets: usize,
    bytes: &Bytes,
    numbers: &Numbers,
) -> bool
    requires { (l : Line ℕ) × LineNoted line.now sheet.now residues brackets l }
    ensures { result ≡ reads_to (outcome line.now) (take bytes_size bytes.now) (take numbers_size numbers.now) }
{
    if !front_held(sheet, residues, brackets, bytes) {
        return false;
    }
    let mut t: usize = 0;
    for k in 0..brackets {
        let Some(u) = bracket_held(line, sheet, k, bytes, numbers, t) else {
            return false;
        };
        t = u;
    }
    rest_held(brackets, t, bytes, numbers)
}
