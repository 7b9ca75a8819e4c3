// The two lent areas, field by field: a reader for each field and a writer for each row. No other crate knows where a field lies.
#![tactic(auto)]

ghost use Rattle.std.specs.Prelude.{◌≡◌, ◌+◌, ◌*◌, ◌<◌, ◌≤◌, length, set};
ghost use Rattle.std.proofs.lemmas.List.Edits.{sets};
ghost use Rattle.scope.specs.Bytes.{byte_limit, wide_limit};
ghost use Rattle.scope.specs.Limits.{residue_limit, bracket_limit, part_limit, place_limit, position_limit};
ghost use Rattle.scope.specs.Layout.{bytes_size, residues_at, letters_at, sections_at, row_at, count_at, part_at, places_at, site_at, mass_at, two_bytes, counts_row, head_row, part_fields, byte_at, wide_at, residues_field, brackets_field, letter_field, section_field, kind_field, first_field, last_field, count_field, parts_field, score_field, value_field, key_field, decimals_field, text_field, label_field, offset_field, places_field, site_field, mass_field, score_number};

use scope::answers::Placement;
use scope::tables::Tables;

// The two lent areas, of their fixed sizes: bytes, and whole numbers of 64 bits.
pub type Bytes = [u8; Tables::BYTES];

pub type Numbers = [i64; Tables::NUMBERS];

// The floaters: how many there are, the number of each one's bracket, and which of its copies it is, from 1. Two arrays, since both are handed out as such, and of both the first
// `count` entries count: nothing is allocated.
#[derive(Clone, Copy, Debug, PartialEq, Eq)]
pub struct Floaters {
    pub count: usize,
    pub index: [u8; Placement::COPIES],
    pub copy: [u8; Placement::COPIES],
}

// where the numbers of residues and brackets lie
const RESIDUES: usize = 0;

const BRACKETS: usize = 2;

// the fields of a bracket's row, behind its kind
const FIRST: usize = 1;

const LAST: usize = 3;

const COUNT: usize = 5;

const PARTS: usize = 6;

const SCORE: usize = 7;

// the fields of a part's row, behind its value
const KEY: usize = 1;

const DECIMALS: usize = 2;

const TEXT: usize = 3;

const LABEL: usize = 4;

const OFFSET: usize = 5;

// ---- where a field lies

// The row of bracket k: its head, which begins with its kind.
fn row_at(k: usize) -> usize
    requires { k < bracket_limit }
    ensures { result ≡ row_at k }
{
    Tables::ROWS + k * Tables::ROW
}

// The row of its part j, which begins with its value.
fn part_at(k: usize, j: usize) -> usize
    requires { (k < bracket_limit) × (j < part_limit) }
    ensures { result ≡ part_at k j }
{
    row_at(k) + Tables::HEAD + j * Tables::PART
}

// The number of its places, behind the rows of its parts; a byte for each place follows.
fn places_at(k: usize) -> usize
    requires { k < bracket_limit }
    ensures { result ≡ places_at k }
{
    row_at(k) + Tables::HEAD + Tables::PARTS * Tables::PART
}

// ---- reading

fn byte(bytes: &[u8], at: usize) -> usize
    requires { at < length bytes.now }
    ensures { (result ≡ byte_at bytes.now at) × (result < byte_limit) }
{
    usize::from(bytes[at])
}

// The number in two bytes, low byte first.
fn two_bytes(bytes: &Bytes, at: usize) -> usize
    requires { at + 1 < length bytes.now }
    ensures { (result ≡ wide_at bytes.now at) × (result < wide_limit) }
{
    usize::from(u16::from_le_bytes([bytes[at], bytes[at + 1]]))
}

// How many residues there are.
pub fn residues(bytes: &Bytes) -> usize
    ensures { (result ≡ residues_field bytes.now) × (result < wide_limit) }
{
    two_bytes(bytes, RESIDUES)
}

// How many brackets there are.
pub fn brackets(bytes: &Bytes) -> usize
    ensures { (result ≡ brackets_field bytes.now) × (result < byte_limit) }
{
    byte(bytes, BRACKETS)
}

// The letter of residue i, counted from 0, and the code of its section.
pub fn letter(bytes: &Bytes, i: usize) -> u8
    requires { i < residue_limit }
    ensures { result ≡ letter_field bytes.now i }
{
    bytes[Tables::LETTERS + i]
}

pub fn section(bytes: &Bytes, i: usize) -> usize
    requires { i < residue_limit }
    ensures { (result ≡ section_field bytes.now i) × (result < byte_limit) }
{
    byte(bytes, Tables::SECTIONS + i)
}

// The code of the kind of bracket k.
pub fn kind(bytes: &Bytes, k: usize) -> usize
    requires { k < bracket_limit }
    ensures { (result ≡ kind_field bytes.now k) × (result < byte_limit) }
{
    byte(bytes, row_at(k))
}

// The first position it stands on.
pub fn first(bytes: &Bytes, k: usize) -> usize
    requires { k < bracket_limit }
    ensures { (result ≡ first_field bytes.now k) × (result < wide_limit) }
{
    two_bytes(bytes, row_at(k) + FIRST)
}

// The last.
pub fn last(bytes: &Bytes, k: usize) -> usize
    requires { k < bracket_limit }
    ensures { (result ≡ last_field bytes.now k) × (result < wide_limit) }
{
    two_bytes(bytes, row_at(k) + LAST)
}

// Its count.
pub fn count(bytes: &[u8], k: usize) -> usize
    requires { (bytes_size ≤ length bytes.now) × (k < bracket_limit) }
    ensures { (result ≡ count_field bytes.now k) × (result < byte_limit) }
{
    byte(bytes, row_at(k) + COUNT)
}

// How many parts it has.
pub fn parts(bytes: &Bytes, k: usize) -> usize
    requires { k < bracket_limit }
    ensures { (result ≡ parts_field bytes.now k) × (result < byte_limit) }
{
    byte(bytes, row_at(k) + PARTS)
}

// 0 for no score, else one more than its decimals.
pub fn score(bytes: &Bytes, k: usize) -> usize
    requires { k < bracket_limit }
    ensures { (result ≡ score_field bytes.now k) × (result < byte_limit) }
{
    byte(bytes, row_at(k) + SCORE)
}

// The code of the value of its part j.
pub fn value(bytes: &Bytes, k: usize, j: usize) -> usize
    requires { (k < bracket_limit) × (j < part_limit) }
    ensures { (result ≡ value_field bytes.now k j) × (result < byte_limit) }
{
    byte(bytes, part_at(k, j))
}

// The code of its key.
pub fn key(bytes: &Bytes, k: usize, j: usize) -> usize
    requires { (k < bracket_limit) × (j < part_limit) }
    ensures { (result ≡ key_field bytes.now k j) × (result < byte_limit) }
{
    byte(bytes, part_at(k, j) + KEY)
}

// The decimals of its mass.
pub fn decimals(bytes: &Bytes, k: usize, j: usize) -> usize
    requires { (k < bracket_limit) × (j < part_limit) }
    ensures { (result ≡ decimals_field bytes.now k j) × (result < byte_limit) }
{
    byte(bytes, part_at(k, j) + DECIMALS)
}

// The length of its text.
pub fn text_length(bytes: &Bytes, k: usize, j: usize) -> usize
    requires { (k < bracket_limit) × (j < part_limit) }
    ensures { (result ≡ text_field bytes.now k j) × (result < byte_limit) }
{
    byte(bytes, part_at(k, j) + TEXT)
}

// The length of its label.
pub fn label_length(bytes: &Bytes, k: usize, j: usize) -> usize
    requires { (k < bracket_limit) × (j < part_limit) }
    ensures { (result ≡ label_field bytes.now k j) × (result < byte_limit) }
{
    byte(bytes, part_at(k, j) + LABEL)
}

// Where its text begins among the texts, and its label behind that.
pub fn offset(bytes: &Bytes, k: usize, j: usize) -> usize
    requires { (k < bracket_limit) × (j < part_limit) }
    ensures { (result ≡ offset_field bytes.now k j) × (result < wide_limit) }
{
    two_bytes(bytes, part_at(k, j) + OFFSET)
}

// How many places bracket k has.
pub fn places(bytes: &Bytes, k: usize) -> usize
    requires { k < bracket_limit }
    ensures { (result ≡ places_field bytes.now k) × (result < byte_limit) }
{
    byte(bytes, places_at(k))
}

// The site of its place j.
pub fn site(bytes: &Bytes, k: usize, j: usize) -> u8
    requires { (k < bracket_limit) × (j < place_limit) }
    ensures { result ≡ site_field bytes.now k j }
{
    bytes[places_at(k) + 1 + j]
}

// Its mass.
pub fn mass(numbers: &Numbers, k: usize, j: usize) -> i64
    requires { (k < bracket_limit) × (j < part_limit) }
    ensures { result ≡ mass_field numbers.now k j }
{
    numbers[k * Tables::MASSES + j]
}

// The score of bracket k.
pub fn score_number(numbers: &Numbers, k: usize) -> i64
    requires { k < bracket_limit }
    ensures { result ≡ score_number numbers.now k }
{
    numbers[k * Tables::MASSES + Tables::PARTS]
}

// ---- writing

// A number in two bytes, low byte first.
fn put_two_bytes(bytes: &mut Bytes, at: usize, n: usize)
    requires { (at + 1 < length bytes.old) × (n < wide_limit) }
    ensures { bytes.new ≡ sets bytes.old at (two_bytes n) }
{
    bytes[at..at + 2].copy_from_slice(&(n as u16).to_le_bytes());
}

// The numbers of residues and brackets.
pub fn put_counts(bytes: &mut Bytes, residues: usize, brackets: usize)
    requires { (residues ≤ residue_limit) × (brackets ≤ bracket_limit) }
    ensures { bytes.new ≡ sets bytes.old residues_at (counts_row residues brackets) }
{
    put_two_bytes(bytes, RESIDUES, residues);
    bytes[BRACKETS] = brackets as u8;
}

// The letter of residue i and the code of its section.
pub fn put_residue(bytes: &mut [u8], i: usize, letter: u8, section: u8)
    requires { (bytes_size ≤ length bytes.old) × (i < residue_limit) }
    ensures { bytes.new ≡ set (set bytes.old (letters_at + i) letter) (sections_at + i) section }
{
    bytes[Tables::LETTERS + i] = letter;
    bytes[Tables::SECTIONS + i] = section;
}

// The head of bracket k's row.
pub fn put_head(
    bytes: &mut Bytes,
    k: usize,
    kind: u8,
    first: usize,
    last: usize,
    count: u8,
    parts: u8,
    score: u8,
)
    requires { (k < bracket_limit) × (first < position_limit) × (last < position_limit) }
    ensures { bytes.new ≡ sets bytes.old (row_at k) (head_row kind first last count parts score) }
{
    let at = row_at(k);
    bytes[at] = kind;
    put_two_bytes(bytes, at + FIRST, first);
    put_two_bytes(bytes, at + LAST, last);
    bytes[at + COUNT] = count;
    bytes[at + PARTS] = parts;
    bytes[at + SCORE] = score;
}

// Its kind alone.
pub fn put_kind(bytes: &mut [u8], k: usize, kind: u8)
    requires { (bytes_size ≤ length bytes.old) × (k < bracket_limit) }
    ensures { bytes.new ≡ set bytes.old (row_at k) kind }
{
    bytes[row_at(k)] = kind;
}

// Its count alone.
pub fn put_count(bytes: &mut [u8], k: usize, count: u8)
    requires { (bytes_size ≤ length bytes.old) × (k < bracket_limit) }
    ensures { bytes.new ≡ set bytes.old (count_at k) count }
{
    bytes[row_at(k) + COUNT] = count;
}

// The row of its part j.
pub fn put_part(
    bytes: &mut Bytes,
    k: usize,
    j: usize,
    value: u8,
    key: u8,
    decimals: u8,
    text: u8,
    label: u8,
    offset: usize,
)
    requires { (k < bracket_limit) × (j < part_limit) × (offset < wide_limit) }
    ensures { bytes.new ≡ sets bytes.old (part_at k j) (part_fields value key decimals text label offset) }
{
    let at = part_at(k, j);
    bytes[at] = value;
    bytes[at + KEY] = key;
    bytes[at + DECIMALS] = decimals;
    bytes[at + TEXT] = text;
    bytes[at + LABEL] = label;
    put_two_bytes(bytes, at + OFFSET, offset);
}

// The number of bracket k's places.
pub fn put_places(bytes: &mut Bytes, k: usize, places: u8)
    requires { k < bracket_limit }
    ensures { bytes.new ≡ set bytes.old (places_at k) places }
{
    bytes[places_at(k)] = places;
}

// The site of its place j.
pub fn put_site(bytes: &mut Bytes, k: usize, j: usize, site: u8)
    requires { (k < bracket_limit) × (j < place_limit) }
    ensures { bytes.new ≡ set bytes.old (site_at k j) site }
{
    bytes[places_at(k) + 1 + j] = site;
}

// Its mass.
pub fn put_mass(numbers: &mut Numbers, k: usize, j: usize, mass: i64)
    requires { (k < bracket_limit) × (j < part_limit) }
    ensures { numbers.new ≡ set numbers.old (mass_at k j) mass }
{
    numbers[k * Tables::MASSES + j] = mass;
}

// The score of bracket k.
pub fn put_score(numbers: &mut Numbers, k: usize, score: i64)
    requires { k < bracket_limit }
    ensures { numbers.new ≡ set numbers.old (mass_at k part_limit) score }
{
    numbers[k * Tables::MASSES + Tables::PARTS] = score;
}
