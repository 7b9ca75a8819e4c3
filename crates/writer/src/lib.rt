// Writes the canonical line of the tables in the areas.
#![tactic(auto)]

ghost use Rattle.std.specs.Prelude.{◌≡◌, List, [], ◌∷◌, ◌++◌, ℕ, ◌+◌, ◌-◌, ◌*◌, ◌<◌, ◌≤◌, ℤ, length};
ghost use Rattle.scope.specs.declared.grammar.Kind.TheVariants.{OnResidue, OnRange};
ghost use Rattle.scope.specs.Bytes.{wide_limit, dash, shut_round, bar, comma};
ghost use Rattle.scope.specs.Places.{site_text, places_text};
ghost use Rattle.scope.specs.Canonical.{value_text, label_text, part_text, parts_text, declared_text, opening, ending, is_next, goes_on, sequence_text, closed_by, led_by, canonical};
ghost use Rattle.scope.specs.Lists.{given, tabled};
ghost use Rattle.scope.specs.Limits.{residue_limit, bracket_limit, part_limit, place_limit, text_limit};
ghost use Rattle.scope.specs.Layout.{texts_at, score_in, label_in, value_in, part_in, place_in, section_in, residue_in, bracket_in, tables_in, brackets_field, offset_field, parts_field, places_field, residues_field, section_field, section_code, site_field};
ghost use Rattle.scope.specs.Kinds.{kind_in};
ghost use Rattle.areas.specs.Bounds.{Bounds};
ghost use Rattle.figures.specs.Written.{Puts, ceiling};
ghost use Rattle.writer.specs.Written.{value_most, score_most, label_most, part_most, next_most, parts_most, between_most, next_place_most, places_most, declared_most, bracket_most, residue_most, residues_most, front_most, line_most, text_at, scored_text, next_text, WholeLine};
ghost use Rattle.writer.specs.Here.{BracketHere, PartHere, RoomFor};
ghost use Rattle.writer.specs.Ranks.{rank_of, rank_in, c_term_rank, orderedb, ReadyToWrite, text_as, ranked_text, run_text, front_text, Walks, residue_text, NoneBelow, Spells, InOrder};

use areas::{Bytes, Numbers};
use figures::{put, put_count, put_number, word};
use scope::grammar::{Kind, Section};
use scope::tables::Tables;
use spelling::{put_key, put_site};

// The codes of a part's value: a mass, a text, a composition. A byte of a lent area, which may be any, is compared with them.
const MASS: usize = 1;

const TEXT: usize = 2;

const COMPOSITION: usize = 4;

// The codes of the kinds of brackets; any other number means an unknown position.
const UNKNOWN: usize = Kind::Unknown as usize;

const LABILE: usize = Kind::Labile as usize;

const N_TERM: usize = Kind::NTerm as usize;

const ON_RESIDUE: usize = Kind::OnResidue as usize;

const ON_RANGE: usize = Kind::OnRange as usize;

const C_TERM: usize = Kind::CTerm as usize;

const DECLARED: usize = Kind::Declared as usize;

// The codes of the sections.
const PLAIN: usize = Section::Plain as usize;

const RANGE_FIRST: usize = Section::RangeFirst as usize;

const RANGE_NEXT: usize = Section::RangeNext as usize;

const UNSURE_FIRST: usize = Section::UnsureFirst as usize;

const UNSURE_NEXT: usize = Section::UnsureNext as usize;

// From the ranks of a position to those of the next: a bracket's rank is that of its last position and the code of its kind, or 0 for a
// declaration.
const RANK_STEP: usize = 8;

// The rank of the declarations at the front: no other is below it.
const FIRST_RANK: usize = 0;

// ---- parts

// Where the text of part j of bracket k begins.
fn text_from(bytes: &Bytes, k: usize, j: usize) -> usize
    requires { (k < bracket_limit) × (j < part_limit) }
    ensures { result ≡ texts_at + offset_field bytes.now k j }
{
    Tables::TEXTS + areas::offset(bytes, k, j)
}

// A score in its round brackets, where there is one.
fn put_scored(bytes: &Bytes, numbers: &Numbers, k: usize, out: &mut [u8], at: usize) -> usize
    requires { BracketHere bytes.now numbers.now k × (at + score_most ≤ ceiling) }
    ensures { Puts score_most out.old at (scored_text (score_in bytes.now numbers.now k)) out.new result }
{
    let c = areas::score(bytes, k);
    if c == 0 {
        return at;
    }
    let m = areas::score_number(numbers, k);
    let a = put(out, at, b'(');
    let e = put_number(m, c - 1, false, out, a);
    put(out, e, b')')
}

// `#` and the label of part j, where it has one.
fn put_label(
    bytes: &Bytes,
    numbers: &Numbers,
    k: usize,
    j: usize,
    out: &mut [u8],
    at: usize,
) -> usize
    requires { PartHere bytes.now numbers.now k j × (at + label_most ≤ ceiling) }
    ensures { Puts label_most out.old at (given (label_in bytes.now numbers.now k j) label_text []) out.new result }
{
    let n = areas::label_length(bytes, k, j);
    if n == 0 {
        return at;
    }
    let t = areas::text_length(bytes, k, j);
    let from = text_from(bytes, k, j);
    let a = put(out, at, b'#');
    let e = word(&bytes[from + t..from + t + n], out, a);
    put_scored(bytes, numbers, k, out, e)
}

// The text of part j.
fn put_text(bytes: &Bytes, k: usize, j: usize, out: &mut [u8], at: usize) -> usize
    requires { ((ns : List ℤ) × PartHere bytes.now ns k j) × (at + text_limit ≤ ceiling) }
    ensures { Puts text_limit out.old at (text_at bytes.now k j) out.new result }
{
    let n = areas::text_length(bytes, k, j);
    let from = text_from(bytes, k, j);
    word(&bytes[from..from + n], out, at)
}

// The mass or the text of part j.
fn put_value(
    bytes: &Bytes,
    numbers: &Numbers,
    k: usize,
    j: usize,
    out: &mut [u8],
    at: usize,
) -> usize
    requires { PartHere bytes.now numbers.now k j × (at + value_most ≤ ceiling) }
    ensures { Puts value_most out.old at (value_text (value_in bytes.now numbers.now k j)) out.new result }
{
    match areas::value(bytes, k, j) {
        MASS => {
            let d = areas::decimals(bytes, k, j);
            put_number(areas::mass(numbers, k, j), d, true, out, at)
        }
        TEXT | COMPOSITION => put_text(bytes, k, j, out, at),
        _ => at,
    }
}

// Part j of bracket k.
fn put_part(
    bytes: &Bytes,
    numbers: &Numbers,
    k: usize,
    j: usize,
    out: &mut [u8],
    at: usize,
) -> usize
    requires { PartHere bytes.now numbers.now k j × (at + part_most ≤ ceiling) }
    ensures { Puts part_most out.old at (part_text (part_in bytes.now numbers.now k j)) out.new result }
{
    let c = areas::key(bytes, k, j);
    let a = put_key(c, out, at);
    let e = put_value(bytes, numbers, k, j, out, a);
    put_label(bytes, numbers, k, j, out, e)
}

// The byte that splits a row, before number j of it: before all but the first.
fn put_split(b: u8, j: usize, out: &mut [u8], at: usize) -> usize
    requires { at + 1 ≤ ceiling }
    ensures { Puts 1 out.old at (next_text b j []) out.new result }
{
    if j == 0 { at } else { put(out, at, b) }
}

// ---- brackets

// The parts of bracket k, split by `|`.
fn put_parts(bytes: &Bytes, numbers: &Numbers, k: usize, out: &mut [u8], at: usize) -> usize
    requires { BracketHere bytes.now numbers.now k × (at + parts_most ≤ ceiling) }
    ensures { Puts parts_most out.old at (parts_text (tabled (part_in bytes.now numbers.now k) 0 (parts_field bytes.now k))) out.new result }
{
    let mut a = at;
    for j in 0..areas::parts(bytes, k) {
        let e = put_split(b'|', j, out, a);
        a = put_part(bytes, numbers, k, j, out, e);
    }
    a
}

// Bracket k between two bytes.
fn put_between(
    bytes: &Bytes,
    numbers: &Numbers,
    k: usize,
    opener: u8,
    closer: u8,
    out: &mut [u8],
    at: usize,
) -> usize
    requires { BracketHere bytes.now numbers.now k × (at + between_most ≤ ceiling) }
    ensures { Puts between_most out.old at (opener ∷ (parts_text (bracket_in bytes.now numbers.now k).parts ++ (closer ∷ []))) out.new result }
{
    let a = put(out, at, opener);
    let e = put_parts(bytes, numbers, k, out, a);
    put(out, e, closer)
}

// The places of bracket k, split by `,`.
fn put_places(bytes: &Bytes, k: usize, out: &mut [u8], at: usize) -> usize
    requires { (k < bracket_limit) × (places_field bytes.now k ≤ place_limit) × (at + places_most ≤ ceiling) }
    ensures { Puts places_most out.old at (places_text (tabled (place_in bytes.now k) 0 (places_field bytes.now k))) out.new result }
{
    let mut a = at;
    for j in 0..areas::places(bytes, k) {
        let e = put_split(b',', j, out, a);
        a = put_site(areas::site(bytes, k, j), out, e);
    }
    a
}

// Bracket k as a declaration: `<`, the bracket, `@`, its places and `>`.
fn put_declared(bytes: &Bytes, numbers: &Numbers, k: usize, out: &mut [u8], at: usize) -> usize
    requires { BracketHere bytes.now numbers.now k × (at + declared_most ≤ ceiling) }
    ensures { Puts declared_most out.old at (declared_text (bracket_in bytes.now numbers.now k)) out.new result }
{
    let a = put(out, at, b'<');
    let b = put_between(bytes, numbers, k, b'[', b']', out, a);
    let c = put(out, b, b'@');
    let e = put_places(bytes, k, out, c);
    put(out, e, b'>')
}

// How a bracket is written: square with its count, as one of unknown position; curly, as a labile one; square; with its places, as a declaration.
#[derive(Clone, Copy, Debug, PartialEq, Eq)]
pub enum Shape {
    Counted,
    Curly,
    Square,
    Angled,
}

// Bracket k, by its shape.
fn put_bracket(
    bytes: &Bytes,
    numbers: &Numbers,
    k: usize,
    shape: Shape,
    out: &mut [u8],
    at: usize,
) -> usize
    requires { BracketHere bytes.now numbers.now k × (at + bracket_most ≤ ceiling) }
    ensures { Puts bracket_most out.old at (text_as shape (bracket_in bytes.now numbers.now k)) out.new result }
{
    match shape {
        Shape::Counted => {
            let n = areas::count(bytes, k);
            let a = put_between(bytes, numbers, k, b'[', b']', out, at);
            put_count(n, out, a)
        }
        Shape::Curly => put_between(bytes, numbers, k, b'{', b'}', out, at),
        Shape::Square => put_between(bytes, numbers, k, b'[', b']', out, at),
        Shape::Angled => put_declared(bytes, numbers, k, out, at),
    }
}

// ---- ranks

// The rank of a bracket with the code c of its kind that ends at a position.
fn rank_of(c: usize, last: usize) -> usize
    requires { last < wide_limit }
    ensures { result ≡ rank_of (kind_in c) last }
{
    match c {
        LABILE..=C_TERM => RANK_STEP * last + c,
        DECLARED => RANK_STEP * last,
        _ => RANK_STEP * last + UNKNOWN,
    }
}

// The rank of bracket k.
fn rank_at(bytes: &Bytes, k: usize) -> usize
    requires { k < bracket_limit }
    ensures { result ≡ rank_in bytes.now k }
{
    let c = areas::kind(bytes, k);
    let last = areas::last(bytes, k);
    rank_of(c, last)
}

// Whether the brackets are in the order of a line.
pub fn in_order(bytes: &Bytes) -> bool
    requires { brackets_field bytes.now ≤ bracket_limit }
    ensures { (ns : List ℤ) → result ≡ orderedb (tables_in bytes.now ns) }
{
    let mut q = 0;
    for k in 0..areas::brackets(bytes) {
        let r = rank_at(bytes, k);
        if r < q {
            return false;
        }
        q = r;
    }
    true
}

// Bracket k, where its rank r is the one that is asked for.
fn put_ranked(
    bytes: &Bytes,
    numbers: &Numbers,
    k: usize,
    r: usize,
    q: usize,
    shape: Shape,
    out: &mut [u8],
    at: usize,
) -> usize
    requires { BracketHere bytes.now numbers.now k × (r ≡ rank_in bytes.now k) × (at + bracket_most ≤ ceiling) }
    ensures { Puts bracket_most out.old at (ranked_text shape q (bracket_in bytes.now numbers.now k)) out.new result }
{
    if r == q {
        put_bracket(bytes, numbers, k, shape, out, at)
    } else {
        at
    }
}

// Where the writer stands: in the output, and among the brackets or the residues.
#[derive(Clone, Copy, Debug, PartialEq, Eq)]
pub struct Pen {
    pub place: usize,
    pub next: usize,
}

// The brackets of rank q, none of which stands before bracket `from`.
fn put_run(
    bytes: &Bytes,
    numbers: &Numbers,
    from: usize,
    q: usize,
    shape: Shape,
    out: &mut [u8],
    at: usize,
) -> Pen
    requires { ReadyToWrite bytes.now numbers.now × (from ≤ brackets_field bytes.now) × ((i : ℕ) → i < from → rank_in bytes.now i < q) × RoomFor bytes.now from 0 at }
    ensures { Walks bytes.now 0 from (q + 1) out.old at (run_text shape q (tables_in bytes.now numbers.now).brackets) out.new result.place result.next }
{
    let m = areas::brackets(bytes);
    let mut a = at;
    for j in from..m {
        let r = rank_at(bytes, j);
        if q < r {
            return Pen { place: a, next: j };
        }
        a = put_ranked(bytes, numbers, j, r, q, shape, out, a);
    }
    Pen { place: a, next: m }
}

// ---- residues

// `(` or `(?` before the first residue of a group.
fn put_opening(c: usize, out: &mut [u8], at: usize) -> usize
    requires { at + 2 ≤ ceiling }
    ensures { Puts 2 out.old at (opening (section_in c)) out.new result }
{
    match c {
        RANGE_FIRST => put(out, at, b'('),
        UNSURE_FIRST => word(b"(?", out, at),
        _ => at,
    }
}

// Whether a residue with section c goes on with a group.
fn is_next(c: usize) -> bool
    ensures { result ≡ is_next (section_in c) }
{
    matches!(c, RANGE_NEXT | UNSURE_NEXT)
}

// Whether the residue with index p, if there is one, goes on with the group of the one before it.
fn goes_on(bytes: &Bytes, p: usize, n: usize) -> bool
    requires { n ≤ residue_limit }
    ensures { result ≡ goes_on (tabled (residue_in bytes.now) p (n - p)) }
{
    p < n && is_next(areas::section(bytes, p))
}

// `)` and the brackets on the range that ends at position i.
fn put_range_end(
    bytes: &Bytes,
    numbers: &Numbers,
    i: usize,
    from: usize,
    out: &mut [u8],
    at: usize,
) -> Pen
    requires { ReadyToWrite bytes.now numbers.now × (from ≤ brackets_field bytes.now) × ((k : ℕ) → k < from → rank_in bytes.now k < rank_of OnRange i) × RoomFor bytes.now from 1 at × (i ≤ residue_limit) }
    ensures { Walks bytes.now 1 from (rank_of OnRange i + 1) out.old at (shut_round ∷ run_text Shape.Square (rank_of OnRange i) (tables_in bytes.now numbers.now).brackets) out.new result.place result.next }
{
    let a = put(out, at, b')');
    put_run(
        bytes,
        numbers,
        from,
        RANK_STEP * i + ON_RANGE,
        Shape::Square,
        out,
        a,
    )
}

// What closes a group of section c that ends at position i.
fn put_ending(
    bytes: &Bytes,
    numbers: &Numbers,
    c: usize,
    i: usize,
    from: usize,
    out: &mut [u8],
    at: usize,
) -> Pen
    requires { ReadyToWrite bytes.now numbers.now × (from ≤ brackets_field bytes.now) × ((k : ℕ) → k < from → rank_in bytes.now k < rank_of OnRange i) × RoomFor bytes.now from 1 at × (i ≤ residue_limit) }
    ensures { Walks bytes.now 1 from (rank_of OnRange i + 1) out.old at (ending (section_in c) (run_text Shape.Square (rank_of OnRange i) (tables_in bytes.now numbers.now).brackets)) out.new result.place result.next }
{
    match c {
        RANGE_FIRST | RANGE_NEXT => put_range_end(bytes, numbers, i, from, out, at),
        UNSURE_FIRST | UNSURE_NEXT => {
            let place = put(out, at, b')');
            Pen { place, next: from }
        }
        _ => Pen {
            place: at,
            next: from,
        },
    }
}

// The residue with index p, of n, with its section and brackets.
fn put_residue(
    bytes: &Bytes,
    numbers: &Numbers,
    p: usize,
    n: usize,
    from: usize,
    out: &mut [u8],
    at: usize,
) -> Pen
    requires { ReadyToWrite bytes.now numbers.now × (from ≤ brackets_field bytes.now) × ((k : ℕ) → k < from → rank_in bytes.now k < rank_of OnResidue (p + 1)) × RoomFor bytes.now from residue_most at × (n ≡ residues_field bytes.now) × (p < n) }
    ensures { Walks bytes.now residue_most from (rank_of OnResidue (p + 1 + 1)) out.old at (residue_text (tables_in bytes.now numbers.now).brackets (p + 1) (residue_in bytes.now p) (tabled (residue_in bytes.now) (p + 1) (n - (p + 1)))) out.new result.place result.next }
{
    let c = areas::section(bytes, p);
    let b = areas::letter(bytes, p);
    let a = put_opening(c, out, at);
    let e = put(out, a, b);
    let i = p + 1;
    let pen = put_run(
        bytes,
        numbers,
        from,
        RANK_STEP * i + ON_RESIDUE,
        Shape::Square,
        out,
        e,
    );
    if goes_on(bytes, i, n) {
        pen
    } else {
        put_ending(bytes, numbers, c, i, pen.next, out, pen.place)
    }
}

// The rank of a bracket at the C-terminus.
fn c_term_rank(bytes: &Bytes) -> usize
    ensures { result ≡ c_term_rank bytes.now }
{
    let n = areas::residues(bytes);
    RANK_STEP * (n + 1) + C_TERM
}

// The rank of bracket j, or that of the C-terminus where there is no such bracket.
fn next_rank(bytes: &Bytes, j: usize) -> usize
    requires { brackets_field bytes.now ≤ bracket_limit }
    ensures { (ns : List ℤ) → ReadyToWrite bytes.now ns → NoneBelow bytes.now j result }
{
    if j < areas::brackets(bytes) {
        rank_at(bytes, j)
    } else {
        c_term_rank(bytes)
    }
}

// How many residues, of n, stand before the position of rank q.
fn residues_before(n: usize, q: usize) -> usize
    ensures { (result ≤ n) × ((i : ℕ) → i < result → rank_of OnResidue (i + 1) < q) }
{
    n.min((q / RANK_STEP).saturating_sub(1))
}

// The first residue from index p on, before index e, that does not stand by itself; behind them all where each does.
fn plain_end(bytes: &Bytes, p: usize, e: usize) -> usize
    requires { e ≤ residue_limit }
    ensures from { p ≤ result }
    ensures to { result ≤ p + (e - p) }
    ensures plain { (i : ℕ) → p ≤ i → i < result → section_field bytes.now i ≡ section_code Section.Plain }
{
    for i in p..e {
        if areas::section(bytes, i) != PLAIN {
            return i;
        }
    }
    p.max(e)
}

// The residues from index p on, of n, that stand by themselves and before bracket j: their letters at once.
fn put_bare(bytes: &Bytes, p: usize, n: usize, j: usize, out: &mut [u8], at: usize) -> Pen
    requires { (brackets_field bytes.now ≤ bracket_limit) × (n ≤ residue_limit) × (at + (n - p) ≤ ceiling) × (p ≤ n) }
    ensures { (p ≤ result.next) × ((ns : List ℤ) → ReadyToWrite bytes.now ns → Spells bytes.now ns n j out.old p at out.new result.next result.place) }
{
    let e = residues_before(n, next_rank(bytes, j));
    let next = plain_end(bytes, p, e);
    let place = word(&bytes[Tables::LETTERS + p..Tables::LETTERS + next], out, at);
    Pen { place, next }
}

// The sequence: residues by themselves, then one with a section or brackets, and so on. The index goes behind those by themselves at once: no step of one.
fn put_sequence(bytes: &Bytes, numbers: &Numbers, from: usize, out: &mut [u8], at: usize) -> Pen
    requires { ReadyToWrite bytes.now numbers.now × (from ≤ brackets_field bytes.now) × ((k : ℕ) → k < from → rank_in bytes.now k < rank_of OnResidue 1) × RoomFor bytes.now from residues_most at }
    ensures { Walks bytes.now residues_most from (c_term_rank bytes.now) out.old at (sequence_text (tables_in bytes.now numbers.now).brackets 1 (tables_in bytes.now numbers.now).residues) out.new result.place result.next }
{
    let n = areas::residues(bytes);
    let mut p = 0;
    let mut a = at;
    let mut j = from;
    while p < n {
        let letters = put_bare(bytes, p, n, j, out, a);
        if n <= letters.next {
            return Pen {
                place: letters.place,
                next: j,
            };
        }
        let pen = put_residue(bytes, numbers, letters.next, n, j, out, letters.place);
        a = pen.place;
        j = pen.next;
        p = letters.next + 1;
    }
    Pen { place: a, next: j }
}

// ---- the line

// The brackets of rank q and the byte behind them, where there are any.
fn put_closed(
    bytes: &Bytes,
    numbers: &Numbers,
    from: usize,
    q: usize,
    shape: Shape,
    closer: u8,
    out: &mut [u8],
    at: usize,
) -> Pen
    requires { ReadyToWrite bytes.now numbers.now × (from ≤ brackets_field bytes.now) × ((i : ℕ) → i < from → rank_in bytes.now i < q) × RoomFor bytes.now from 1 at }
    ensures { Walks bytes.now 1 from (q + 1) out.old at (closed_by (run_text shape q (tables_in bytes.now numbers.now).brackets) closer) out.new result.place result.next }
{
    let pen = put_run(bytes, numbers, from, q, shape, out, at);
    if pen.place == at {
        pen
    } else {
        let place = put(out, pen.place, closer);
        Pen { place, ..pen }
    }
}

// `-` and the C-terminal brackets, where there are any.
fn put_c_term(bytes: &Bytes, numbers: &Numbers, from: usize, out: &mut [u8], at: usize) -> usize
    requires { ReadyToWrite bytes.now numbers.now × (from ≤ brackets_field bytes.now) × ((i : ℕ) → i < from → rank_in bytes.now i < c_term_rank bytes.now) × RoomFor bytes.now from 1 at }
    ensures { Puts (bracket_most * (brackets_field bytes.now - from) + 1) out.old at (led_by dash (run_text Shape.Square (c_term_rank bytes.now) (tables_in bytes.now numbers.now).brackets)) out.new result }
{
    let m = areas::brackets(bytes);
    if m == 0 {
        return at;
    }
    let q = c_term_rank(bytes);
    let r = rank_at(bytes, m - 1);
    if r < q {
        return at;
    }
    let a = put(out, at, b'-');
    let pen = put_run(bytes, numbers, from, q, Shape::Square, out, a);
    pen.place
}

// What stands before the sequence: nothing where the first bracket stands in it or behind it.
fn put_front(bytes: &Bytes, numbers: &Numbers, out: &mut [u8], at: usize) -> Pen
    requires { ReadyToWrite bytes.now numbers.now × RoomFor bytes.now 0 front_most at }
    ensures { Walks bytes.now front_most 0 (rank_of OnResidue 1) out.old at (front_text (tables_in bytes.now numbers.now).brackets) out.new result.place result.next }
{
    if N_TERM < next_rank(bytes, 0) {
        return Pen { place: at, next: 0 };
    }
    let declared = put_run(bytes, numbers, 0, FIRST_RANK, Shape::Angled, out, at);
    let unknown = put_closed(
        bytes,
        numbers,
        declared.next,
        UNKNOWN,
        Shape::Counted,
        b'?',
        out,
        declared.place,
    );
    let labile = put_run(
        bytes,
        numbers,
        unknown.next,
        LABILE,
        Shape::Curly,
        out,
        unknown.place,
    );
    put_closed(
        bytes,
        numbers,
        labile.next,
        N_TERM,
        Shape::Square,
        b'-',
        out,
        labile.place,
    )
}

// The canonical line from a place on, as much of it as fits into the output.
pub fn put_line(bytes: &Bytes, numbers: &Numbers, out: &mut [u8], at: usize) -> usize
    requires { Bounds bytes.now numbers.now × InOrder (tables_in bytes.now numbers.now) × (at + line_most ≤ ceiling) }
    ensures { Puts line_most out.old at (canonical (tables_in bytes.now numbers.now)) out.new result }
{
    let front = put_front(bytes, numbers, out, at);
    let sequence = put_sequence(bytes, numbers, front.next, out, front.place);
    put_c_term(bytes, numbers, sequence.next, out, sequence.place)
}

// The canonical line, as much of it as fits into the output, and its length.
pub fn write_line(bytes: &Bytes, numbers: &Numbers, out: &mut [u8]) -> usize
    requires { Bounds bytes.now numbers.now × InOrder (tables_in bytes.now numbers.now) }
    ensures { WholeLine (canonical (tables_in bytes.now numbers.now)) out.old out.new result }
{
    put_line(bytes, numbers, out, 0)
}
