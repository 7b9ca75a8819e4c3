// The tables of an accepted line, put into the lent areas from the sheet in which the walk noted it.
#![tactic(auto)]

ghost use Rattle.std.specs.Prelude.{◌≡◌, List, ℕ, ◌+◌, ◌<◌, ◌≤◌, length};
ghost use Rattle.std.proofs.lemmas.List.Edits.{sets};
ghost use Rattle.scope.specs.Limits.{residue_limit, bracket_limit};
ghost use Rattle.scope.specs.Line.{Place, Part, Bracket, Line};
ghost use Rattle.scope.specs.Layout.{row_at, places_at};
ghost use Rattle.scope.specs.Refusals.{outcome, accepted};
ghost use Rattle.store.specs.Areas.{Pieces};
ghost use Rattle.glycans.specs.Cut.{Room, PutBefore};
ghost use Rattle.sheet.specs.Rows.{masses_room};
ghost use Rattle.store.specs.PartPut.{is_composed, text_put, offset_of, RowFits, RowCut, ShortIs, ComposedFits, NotedFits, RowPut, SomePartsFit, PartsFit, PartsPut};
ghost use Rattle.store.specs.BracketPut.{head_from, HeadGoesIn, places_put, PlacesFit, SomeBracketFits, BracketGoesIn, BracketPut, SomeBracketsFit, BracketsFit, BracketsPut};
ghost use Rattle.store.specs.Filled.{front_put, Fills, FilledAll};

use areas::{Bytes, Numbers};
use glycans::Cutting;
use scope::tables::Tables;
use sheet::Sheet;

// ---- a part

// Bytes put at a place; the others stay.
fn put(bytes: &mut Bytes, at: usize, from: &[u8])
    requires { at + length from.now ≤ length bytes.old }
    ensures { bytes.new ≡ sets bytes.old at from.now }
{
    copies::copy(from, &mut bytes[at..at + from.len()]);
}

// Where so many bytes lie behind t others: nowhere, where there are none.
pub fn offset_of(n: usize, t: usize) -> usize
    ensures { (result ≡ offset_of n t) × (result ≤ t) }
{
    if n == 0 { 0 } else { t }
}

// the code of a text, a byte of its row
const TEXT: usize = 2;

// Whether row m is a text behind the key of compositions.
pub fn is_composition(sheet: &Sheet, m: usize) -> bool
    requires { m < masses_room }
    ensures { result ≡ is_composed sheet.now.parts m }
{
    sheet.key_of(m) == Cutting::KEY && sheet.value_of(m) == TEXT
}

// How long the short text of the composition in row m is, and what it weighs.
pub fn composition(line: &[u8], sheet: &Sheet, m: usize) -> Cutting
    requires { RowCut line.now sheet.now.parts m }
    ensures { ShortIs line.now sheet.now.parts m result.size result.mass }
{
    glycans::cut(line, sheet.text_from(m), sheet.text_to(m)).unwrap()
}

// The short text, so that it ends before a place. Answers where it begins.
pub fn put_composition(line: &[u8], sheet: &Sheet, m: usize, out: &mut [u8], at: usize) -> usize
    requires { RowCut line.now sheet.now.parts m × Room out.old at (text_put line.now sheet.now.parts m) }
    ensures { PutBefore out.old at (text_put line.now sheet.now.parts m) out.new result }
{
    glycans::put_short(line, sheet.text_from(m), sheet.text_to(m), out, at)
}

// Row m, as part j of bracket k, its text and its label behind t bytes of others. Answers how many bytes of texts there are then.
fn store_part(
    line: &[u8],
    sheet: &Sheet,
    m: usize,
    k: usize,
    j: usize,
    t: usize,
    bytes: &mut Bytes,
    numbers: &mut Numbers,
) -> usize
    requires { RowFits line.now sheet.now.parts sheet.now.masses m k j t }
    ensures { RowPut line.now sheet.now.parts sheet.now.masses m k j t bytes.old numbers.old result bytes.new numbers.new }
{
    if is_composition(sheet, m) {
        store_composition(line, sheet, m, k, j, t, bytes, numbers)
    } else {
        store_noted(line, sheet, m, k, j, t, bytes, numbers)
    }
}

// The same of a composition: its short text, and its mass.
fn store_composition(
    line: &[u8],
    sheet: &Sheet,
    m: usize,
    k: usize,
    j: usize,
    t: usize,
    bytes: &mut Bytes,
    numbers: &mut Numbers,
) -> usize
    requires { ComposedFits line.now sheet.now.parts sheet.now.masses m k j t }
    ensures { RowPut line.now sheet.now.parts sheet.now.masses m k j t bytes.old numbers.old result bytes.new numbers.new }
{
    let label = &line[sheet.label_from(m)..sheet.label_to(m)];
    let l = label.len();
    let c = composition(line, sheet, m);
    let n = c.size;
    let behind = Tables::TEXTS + t + n;
    put_composition(line, sheet, m, bytes, behind);
    put(bytes, behind, label);
    let offset = offset_of(n + l, t);
    areas::put_part(
        bytes,
        k,
        j,
        Cutting::VALUE as u8,
        Cutting::KEY as u8,
        Cutting::DECIMALS as u8,
        n as u8,
        l as u8,
        offset,
    );
    areas::put_mass(numbers, k, j, c.mass as i64);
    t + n + l
}

// The same of any other part: as it is noted.
fn store_noted(
    line: &[u8],
    sheet: &Sheet,
    m: usize,
    k: usize,
    j: usize,
    t: usize,
    bytes: &mut Bytes,
    numbers: &mut Numbers,
) -> usize
    requires { NotedFits line.now sheet.now.parts sheet.now.masses m k j t }
    ensures { RowPut line.now sheet.now.parts sheet.now.masses m k j t bytes.old numbers.old result bytes.new numbers.new }
{
    let text = &line[sheet.text_from(m)..sheet.text_to(m)];
    let label = &line[sheet.label_from(m)..sheet.label_to(m)];
    let n = text.len();
    let l = label.len();
    put(bytes, Tables::TEXTS + t, text);
    put(bytes, Tables::TEXTS + t + n, label);
    let value = sheet.value_of(m) as u8;
    let key = sheet.key_of(m) as u8;
    let decimals = sheet.decimals_of(m) as u8;
    let offset = offset_of(n + l, t);
    areas::put_part(bytes, k, j, value, key, decimals, n as u8, l as u8, offset);
    areas::put_mass(numbers, k, j, sheet.mass_of(m));
    t + n + l
}

// The n rows from m on, as the parts of bracket k, behind t bytes of texts. Answers how many there are then.
fn store_parts(
    line: &[u8],
    sheet: &Sheet,
    m: usize,
    n: usize,
    k: usize,
    t: usize,
    bytes: &mut Bytes,
    numbers: &mut Numbers,
) -> usize
    requires { SomePartsFit line.now sheet.now.parts sheet.now.masses m n k t bytes.old numbers.old }
    ensures { (ps : List (Part ℕ)) (a : Pieces) → PartsFit line.now sheet.now.parts sheet.now.masses m n k t ps a bytes.old numbers.old → PartsPut k t ps a result bytes.new numbers.new }
{
    let mut u = t;
    for j in 0..n {
        u = store_part(line, sheet, m + j, k, j, u, bytes, numbers);
    }
    u
}

// ---- a bracket

// The head of bracket k.
fn store_head(sheet: &Sheet, k: usize, bytes: &mut Bytes)
    requires { HeadGoesIn sheet.now.heads k }
    ensures { bytes.new ≡ sets bytes.old (row_at k) (head_from sheet.now.heads k) }
{
    areas::put_head(
        bytes,
        k,
        sheet.kind_of(k) as u8,
        sheet.first_of(k),
        sheet.last_of(k),
        sheet.count_of(k) as u8,
        sheet.parts_of(k) as u8,
        sheet.score_of(k) as u8,
    );
}

// The n places that stand in the line from `at` on, as those of bracket k: how many, and the site of each.
fn store_places(line: &[u8], at: usize, n: usize, k: usize, bytes: &mut Bytes)
    requires { (ps : List (Place ℕ)) × PlacesFit line.now at n k ps }
    ensures { (ps : List (Place ℕ)) → PlacesFit line.now at n k ps → bytes.new ≡ sets bytes.old (places_at k) (places_put ps) }
{
    areas::put_places(bytes, k, n as u8);
    let mut i = at;
    for j in 0..n {
        let s = sites::site_at(line, i);
        areas::put_site(bytes, k, j, s.site);
        i = s.next + 1;
    }
}

// Bracket k, its texts behind t bytes of others. Answers how many there are then.
fn store_bracket(
    line: &[u8],
    sheet: &Sheet,
    k: usize,
    t: usize,
    bytes: &mut Bytes,
    numbers: &mut Numbers,
) -> usize
    requires { SomeBracketFits line.now sheet.now.heads sheet.now.parts sheet.now.masses sheet.now.scores k t bytes.old numbers.old }
    ensures { (b : Bracket ℕ) (a : Pieces) → BracketGoesIn line.now sheet.now.heads sheet.now.parts sheet.now.masses sheet.now.scores k t b a bytes.old numbers.old → BracketPut k t b a result bytes.new numbers.new }
{
    store_head(sheet, k, bytes);
    let m = sheet.base_of(k);
    let n = sheet.parts_of(k);
    let u = store_parts(line, sheet, m, n, k, t, bytes, numbers);
    let at = sheet.places_of(k);
    let many = sheet.many_of(k);
    store_places(line, at, many, k, bytes);
    areas::put_score(numbers, k, sheet.points_of(k));
    u
}

// The first n brackets, one behind another.
fn store_brackets(line: &[u8], sheet: &Sheet, n: usize, bytes: &mut Bytes, numbers: &mut Numbers)
    requires { SomeBracketsFit line.now sheet.now.heads sheet.now.parts sheet.now.masses sheet.now.scores n bytes.old numbers.old }
    ensures { (ks : List (Bracket ℕ)) (a : Pieces) → BracketsFit line.now sheet.now.heads sheet.now.parts sheet.now.masses sheet.now.scores n ks a bytes.old numbers.old → BracketsPut ks a bytes.new numbers.new }
{
    let mut t: usize = 0;
    for k in 0..n {
        t = store_bracket(line, sheet, k, t, bytes, numbers);
    }
}

// ---- a line

// The numbers of residues and brackets, the letters and the sections.
fn store_front(sheet: &Sheet, residues: usize, brackets: usize, bytes: &mut Bytes)
    requires { (residues ≤ residue_limit) × (brackets ≤ bracket_limit) }
    ensures { bytes.new ≡ front_put sheet.now.letters sheet.now.sections residues brackets bytes.old }
{
    areas::put_counts(bytes, residues, brackets);
    put(bytes, Tables::LETTERS, &sheet.letters[..residues]);
    put(bytes, Tables::SECTIONS, &sheet.sections[..residues]);
}

// The tables of an accepted line, from the sheet into areas whose room for them is zero.
pub fn store(
    line: &[u8],
    sheet: &Sheet,
    residues: usize,
    brackets: usize,
    bytes: &mut Bytes,
    numbers: &mut Numbers,
)
    requires { Fills line.now sheet.now residues brackets bytes.old numbers.old }
    ensures { (l : Line ℕ) → outcome line.now ≡ accepted l → FilledAll bytes.old numbers.old bytes.new numbers.new l }
{
    store_front(sheet, residues, brackets, bytes);
    store_brackets(line, sheet, brackets, bytes, numbers);
}
