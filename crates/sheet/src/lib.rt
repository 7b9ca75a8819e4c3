// The tables in which the walk notes a line: their sizes, a reader for each field and a writer for each row. No other crate knows where a field lies.
#![tactic(auto)]

ghost use Rattle.std.specs.Prelude.{◌≡◌, [], ◌∷◌, ◌+◌, ◌*◌, ◌<◌, eqb, pos, length, get_or, set};
ghost use Rattle.std.proofs.lemmas.List.Edits.{sets};
ghost use Rattle.scope.specs.Bytes.{wide_limit};
ghost use Rattle.scope.specs.Limits.{bracket_limit};
ghost use Rattle.sheet.specs.Rows.{head_fields, part_fields, masses_room};
ghost use Rattle.sheet.specs.Kept.{Sized};
ghost use Rattle.sheet.specs.Fields.{place_field, kind_field, sort_field, count_field, counted_field, first_field, last_field, parts_field, labels_field, base_field, score_field, places_field, many_field, value_field, key_field, decimals_field, text_from_field, text_to_field, label_from_field, label_to_field, kind_at, count_at, places_at, label_at, written_count, head_row, HeadFits, part_row};

use scope::tables::Tables;

// What is noted of a line: the letters of its residues and the codes of their sections, a row for each bracket and each part, the masses of the parts and the scores
// of the brackets. It is lent, and never copied, compared or shown. Its arrays are tables of their own, with as many rows each as there are brackets or parts.
#[derive(Drop)]
pub struct Sheet {
    pub letters: [u8; Tables::RESIDUES],
    pub sections: [u8; Tables::RESIDUES],
    pub heads: [u16; Sheet::HEADS],
    pub parts: [u16; Sheet::PARTS],
    pub masses: [i64; Sheet::MASSES],
    pub scores: [i64; Tables::BRACKETS],
}

impl Sheet {
    // a bracket's row
    pub const HEAD: usize = 13;

    pub const HEADS: usize = Tables::BRACKETS * Self::HEAD;

    // a part's row
    pub const PART: usize = 7;

    pub const MASSES: usize = Tables::BRACKETS * Tables::PARTS;

    pub const PARTS: usize = Self::MASSES * Self::PART;

    // An empty one.
    pub fn new() -> Sheet {
        Sheet {
            letters: [0; Tables::RESIDUES],
            sections: [0; Tables::RESIDUES],
            heads: [0; Sheet::HEADS],
            parts: [0; Sheet::PARTS],
            masses: [0; Sheet::MASSES],
            scores: [0; Tables::BRACKETS],
        }
    }

    // Each table has its size: a promise of the type, for proofs.
    pub fn sized(&self)
        ensures { Sized self.now }
    {
        let _letters: &[u8] = &self.letters;
        let _sections: &[u8] = &self.sections;
        let _heads: &[u16] = &self.heads;
        let _parts: &[u16] = &self.parts;
        let _masses: &[i64] = &self.masses;
        let _scores: &[i64] = &self.scores;
    }

    // ---- bracket k

    // Where it begins.
    pub fn place_of(&self, k: usize) -> usize
        requires { k < bracket_limit }
        ensures { (result ≡ place_field self.now.heads k) × (result < wide_limit) }
    {
        number(&self.heads, k * Sheet::HEAD)
    }

    // The code of its kind.
    pub fn kind_of(&self, k: usize) -> usize
        requires { k < bracket_limit }
        ensures { (result ≡ kind_field self.now.heads k) × (result < wide_limit) }
    {
        number(&self.heads, k * Sheet::HEAD + KIND)
    }

    // What it is: 0 only INFO, 1 an unlabelled modification, 2 a labelled one, 3 a reference.
    pub fn sort_of(&self, k: usize) -> usize
        requires { k < bracket_limit }
        ensures { (result ≡ sort_field self.now.heads k) × (result < wide_limit) }
    {
        number(&self.heads, k * Sheet::HEAD + SORT)
    }

    // Its count.
    pub fn count_of(&self, k: usize) -> usize
        requires { k < bracket_limit }
        ensures { (result ≡ count_field self.now.heads k) × (result < wide_limit) }
    {
        number(&self.heads, k * Sheet::HEAD + COUNT)
    }

    // Whether its count is written.
    pub fn is_counted(&self, k: usize) -> bool
        requires { k < bracket_limit }
        ensures { result ≡ eqb (counted_field self.now.heads k) written_count }
    {
        self.heads[k * Sheet::HEAD + COUNTED] == WRITTEN
    }

    // The first position it stands on.
    pub fn first_of(&self, k: usize) -> usize
        requires { k < bracket_limit }
        ensures { (result ≡ first_field self.now.heads k) × (result < wide_limit) }
    {
        number(&self.heads, k * Sheet::HEAD + FIRST)
    }

    // The last.
    pub fn last_of(&self, k: usize) -> usize
        requires { k < bracket_limit }
        ensures { (result ≡ last_field self.now.heads k) × (result < wide_limit) }
    {
        number(&self.heads, k * Sheet::HEAD + LAST)
    }

    // How many parts it has.
    pub fn parts_of(&self, k: usize) -> usize
        requires { k < bracket_limit }
        ensures { (result ≡ parts_field self.now.heads k) × (result < wide_limit) }
    {
        number(&self.heads, k * Sheet::HEAD + PARTS)
    }

    // How many labels they have.
    pub fn labels_of(&self, k: usize) -> usize
        requires { k < bracket_limit }
        ensures { (result ≡ labels_field self.now.heads k) × (result < wide_limit) }
    {
        number(&self.heads, k * Sheet::HEAD + LABELS)
    }

    // The number of its first part.
    pub fn base_of(&self, k: usize) -> usize
        requires { k < bracket_limit }
        ensures { (result ≡ base_field self.now.heads k) × (result < wide_limit) }
    {
        number(&self.heads, k * Sheet::HEAD + BASE)
    }

    // 0 for no score, else one more than its decimals.
    pub fn score_of(&self, k: usize) -> usize
        requires { k < bracket_limit }
        ensures { (result ≡ score_field self.now.heads k) × (result < wide_limit) }
    {
        number(&self.heads, k * Sheet::HEAD + SCORE)
    }

    // Where its places begin in the line: 0 where it has none.
    pub fn places_of(&self, k: usize) -> usize
        requires { k < bracket_limit }
        ensures { (result ≡ places_field self.now.heads k) × (result < wide_limit) }
    {
        number(&self.heads, k * Sheet::HEAD + PLACES)
    }

    // How many places it has.
    pub fn many_of(&self, k: usize) -> usize
        requires { k < bracket_limit }
        ensures { (result ≡ many_field self.now.heads k) × (result < wide_limit) }
    {
        number(&self.heads, k * Sheet::HEAD + MANY)
    }

    // Its score, in millionths.
    pub fn points_of(&self, k: usize) -> i64
        requires { k < bracket_limit }
        ensures { result ≡ get_or self.now.scores k (pos 0) }
    {
        self.scores[k]
    }

    // ---- part m

    // Its mass, in millionths.
    pub fn mass_of(&self, m: usize) -> i64
        requires { m < masses_room }
        ensures { result ≡ get_or self.now.masses m (pos 0) }
    {
        self.masses[m]
    }

    // The code of its value.
    pub fn value_of(&self, m: usize) -> usize
        requires { m < masses_room }
        ensures { (result ≡ value_field self.now.parts m) × (result < wide_limit) }
    {
        number(&self.parts, m * Sheet::PART)
    }

    // The code of its key.
    pub fn key_of(&self, m: usize) -> usize
        requires { m < masses_room }
        ensures { (result ≡ key_field self.now.parts m) × (result < wide_limit) }
    {
        number(&self.parts, m * Sheet::PART + KEY)
    }

    // The decimals of its mass.
    pub fn decimals_of(&self, m: usize) -> usize
        requires { m < masses_room }
        ensures { (result ≡ decimals_field self.now.parts m) × (result < wide_limit) }
    {
        number(&self.parts, m * Sheet::PART + DECIMALS)
    }

    // Where its text begins.
    pub fn text_from(&self, m: usize) -> usize
        requires { m < masses_room }
        ensures { (result ≡ text_from_field self.now.parts m) × (result < wide_limit) }
    {
        number(&self.parts, m * Sheet::PART + TEXT_FROM)
    }

    // The place behind its text.
    pub fn text_to(&self, m: usize) -> usize
        requires { m < masses_room }
        ensures { (result ≡ text_to_field self.now.parts m) × (result < wide_limit) }
    {
        number(&self.parts, m * Sheet::PART + TEXT_TO)
    }

    // Where its label begins.
    pub fn label_from(&self, m: usize) -> usize
        requires { m < masses_room }
        ensures { (result ≡ label_from_field self.now.parts m) × (result < wide_limit) }
    {
        number(&self.parts, m * Sheet::PART + LABEL_FROM)
    }

    // The place behind its label.
    pub fn label_to(&self, m: usize) -> usize
        requires { m < masses_room }
        ensures { (result ≡ label_to_field self.now.parts m) × (result < wide_limit) }
    {
        number(&self.parts, m * Sheet::PART + LABEL_TO)
    }

    // ---- writing

    // The row of bracket k, once, with no count written and no places.
    pub fn put_head(&mut self, k: usize, h: Head)
        requires { (k < bracket_limit) × HeadFits h }
        ensures { self.new ≡ record self.old { heads = sets self.old.heads (k * head_fields) (head_row h) } }
    {
        let at = k * Sheet::HEAD;
        self.heads[at] = h.place as u16;
        self.heads[at + KIND] = h.kind as u16;
        self.heads[at + SORT] = h.sort as u16;
        self.heads[at + COUNT] = ONCE;
        self.heads[at + COUNTED] = UNWRITTEN;
        self.heads[at + FIRST] = h.first as u16;
        self.heads[at + LAST] = h.last as u16;
        self.heads[at + PARTS] = h.parts as u16;
        self.heads[at + LABELS] = h.labels as u16;
        self.heads[at + BASE] = h.base as u16;
        self.heads[at + SCORE] = h.score as u16;
        self.heads[at + PLACES] = NOWHERE;
        self.heads[at + MANY] = NOWHERE;
    }

    // The code of its kind alone.
    pub fn put_kind(&mut self, k: usize, kind: usize)
        requires { (k < bracket_limit) × (kind < wide_limit) }
        ensures { self.new ≡ record self.old { heads = set self.old.heads (kind_at k) kind } }
    {
        self.heads[k * Sheet::HEAD + KIND] = kind as u16;
    }

    // A count that is written.
    pub fn put_count(&mut self, k: usize, count: usize)
        requires { (k < bracket_limit) × (count < wide_limit) }
        ensures { self.new ≡ record self.old { heads = sets self.old.heads (count_at k) (count ∷ written_count ∷ []) } }
    {
        let at = k * Sheet::HEAD;
        self.heads[at + COUNT] = count as u16;
        self.heads[at + COUNTED] = WRITTEN;
    }

    // Where its places begin, and how many they are.
    pub fn put_places(&mut self, k: usize, from: usize, many: usize)
        requires { (k < bracket_limit) × (from < wide_limit) × (many < wide_limit) }
        ensures { self.new ≡ record self.old { heads = sets self.old.heads (places_at k) (from ∷ many ∷ []) } }
    {
        let at = k * Sheet::HEAD;
        self.heads[at + PLACES] = from as u16;
        self.heads[at + MANY] = many as u16;
    }

    // The row of part m, which has no label: the codes of its value and key, the decimals of its mass, where its text begins and the place behind it.
    pub fn put_part(&mut self, m: usize, value: u8, key: u8, decimals: u8, from: usize, to: usize)
        requires { (m < masses_room) × (from < wide_limit) × (to < wide_limit) }
        ensures { self.new ≡ record self.old { parts = sets self.old.parts (m * part_fields) (part_row value key decimals from to) } }
    {
        let at = m * Sheet::PART;
        self.parts[at] = value as u16;
        self.parts[at + KEY] = key as u16;
        self.parts[at + DECIMALS] = decimals as u16;
        self.parts[at + TEXT_FROM] = from as u16;
        self.parts[at + TEXT_TO] = to as u16;
        self.parts[at + LABEL_FROM] = NOWHERE;
        self.parts[at + LABEL_TO] = NOWHERE;
    }

    // Where its label begins, and the place behind it.
    pub fn put_label(&mut self, m: usize, from: usize, to: usize)
        requires { (m < masses_room) × (from < wide_limit) × (to < wide_limit) }
        ensures { self.new ≡ record self.old { parts = sets self.old.parts (label_at m) (from ∷ to ∷ []) } }
    {
        let at = m * Sheet::PART;
        self.parts[at + LABEL_FROM] = from as u16;
        self.parts[at + LABEL_TO] = to as u16;
    }
}

// A bracket whose count is not read yet: where it begins, the codes of its kind and of its sort, the first and the last position it stands on, how many parts and
// labels it has, the number of its first part, and its score.
#[derive(Clone, Copy, Debug, PartialEq, Eq)]
pub struct Head {
    pub place: usize,
    pub kind: usize,
    pub sort: usize,
    pub first: usize,
    pub last: usize,
    pub parts: usize,
    pub labels: usize,
    pub base: usize,
    pub score: usize,
}

impl Head {
    // What a bracket is: only INFO, an unlabelled modification, a labelled one, a reference. Numbers of a row, which are compared and not matched: an enum would
    // be cast to them wherever it is noted.
    pub const ONLY_INFO: usize = 0;

    pub const UNLABELLED: usize = 1;

    pub const LABELLED: usize = 2;

    pub const REFERENCE: usize = 3;
}

// the fields of a bracket's row, behind its place
const KIND: usize = 1;

const SORT: usize = 2;

const COUNT: usize = 3;

const COUNTED: usize = 4;

const FIRST: usize = 5;

const LAST: usize = 6;

const PARTS: usize = 7;

const LABELS: usize = 8;

const BASE: usize = 9;

const SCORE: usize = 10;

const PLACES: usize = 11;

const MANY: usize = 12;

// the fields of a part's row, behind its value
const KEY: usize = 1;

const DECIMALS: usize = 2;

const TEXT_FROM: usize = 3;

const TEXT_TO: usize = 4;

const LABEL_FROM: usize = 5;

const LABEL_TO: usize = 6;

// The count of a bracket that has none, and whether a count is written: numbers of a row, which has no room for other types.
const ONCE: u16 = 1;

const UNWRITTEN: u16 = 0;

const WRITTEN: u16 = 1;

// where there is no label, or no places: none ends at the first byte of a line
const NOWHERE: u16 = 0;

// A number of a table: a cast in the middle of an expression would have no bound.
fn wide(n: u16) -> usize
    ensures { (result ≡ n) × (result < wide_limit) }
{
    n as usize
}

fn number(rows: &[u16], at: usize) -> usize
    requires { at < length rows.now }
    ensures { (result ≡ get_or rows.now at 0) × (result < wide_limit) }
{
    wide(rows[at])
}
