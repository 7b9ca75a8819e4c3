// The tables' limits and sizes. "The limits stand once, with the type they belong to."
ghost use Rattle.std.specs.Prelude.{◌≡◌, pos};
ghost use Rattle.scope.specs.Limits.{line_limit, residue_limit, bracket_limit, part_limit, text_limit, label_limit, depth_limit, count_limit, copy_limit, declaration_limit, place_limit, row_limit, position_limit, size_limit, decimal_limit, block_size, block_limit};
ghost use Rattle.scope.specs.Layout.{bytes_size, numbers_size};

use crate::answers::{Ledger, Placement};
use crate::blocks::Block;

// How much the tables of a line hold: residues, brackets, bytes of text.
#[derive(Clone, Copy, Debug, PartialEq, Eq)]
pub struct Tables {
    pub residues: usize,
    pub brackets: usize,
    pub texts: usize,
}

impl Tables {
    pub const LINE: usize = 4096;

    pub const RESIDUES: usize = 254;

    pub const BRACKETS: usize = 64;

    pub const PARTS: usize = 4;

    pub const TEXT: usize = 128;

    pub const LABEL: usize = 16;

    pub const DEPTH: usize = 8;

    pub const COUNT: usize = 99;

    pub const DECLARATIONS: usize = 8;

    // of a declaration
    pub const PLACES: usize = 16;

    // the sites of the termini, as places; that of a residue is its letter, so all are bytes
    pub const N_TERMINUS: u8 = 1;

    pub const C_TERMINUS: u8 = 2;

    // a part's row
    pub const PART: usize = 7;

    // a bracket's row: its head, then its parts, then its places behind their number
    pub const HEAD: usize = 8;

    pub const ROW: usize = Self::HEAD + Self::PARTS * Self::PART + 1 + Self::PLACES;

    // where letters, sections, brackets and texts begin in the area of bytes
    pub const LETTERS: usize = 3;

    pub const SECTIONS: usize = Self::LETTERS + Self::RESIDUES;

    pub const ROWS: usize = Self::SECTIONS + Self::RESIDUES;

    pub const TEXTS: usize = Self::ROWS + Self::BRACKETS * Self::ROW;

    // the fixed sizes of the two areas
    pub const BYTES: usize = Self::TEXTS + Self::LINE;

    // a bracket's numbers: the masses of its parts, and its score
    pub const MASSES: usize = Self::PARTS + 1;

    pub const NUMBERS: usize = Self::BRACKETS * Self::MASSES;

    // Nothing read yet.
    pub fn new() -> Self
        ensures { result ≡ record { residues = 0; brackets = 0; texts = 0 } }
    {
        Self {
            residues: 0,
            brackets: 0,
            texts: 0,
        }
    }
}

// A mass or a score: its value in millionths and its count of decimals.
#[derive(Clone, Copy, Debug, PartialEq, Eq)]
pub struct Number {
    pub millionths: i64,
    pub decimals: u8,
}

impl Number {
    // "below 1,000,000 in size"
    pub const SIZE: u64 = 1000000;

    // "at most 6 decimals"
    pub const DECIMALS: u8 = 6;

    pub fn zero() -> Self
        ensures { result ≡ record { millionths = pos 0; decimals = 0 } }
    {
        Self {
            millionths: 0,
            decimals: 0,
        }
    }
}

// All limits and sizes in one struct, for callers in other languages.
#[repr(C)]
#[derive(Clone, Copy, Debug, PartialEq, Eq)]
pub struct Limits {
    pub line: usize,
    pub residues: usize,
    pub brackets: usize,
    pub parts: usize,
    pub text: usize,
    pub label: usize,
    pub depth: usize,
    pub count: usize,
    pub declarations: usize,
    pub places: usize,
    pub copies: usize,
    pub rows: usize,
    pub positions: usize,
    pub size: u64,
    pub decimals: u8,
    pub bytes: usize,
    pub numbers: usize,
    pub block: usize,
    pub blocks: usize,
}

impl Limits {
    // The constants are the numbers that the definitions name.
    pub fn new() -> Self
        ensures { result ≡ record { line = line_limit; residues = residue_limit; brackets = bracket_limit; parts = part_limit; text = text_limit; label = label_limit; depth = depth_limit; count = count_limit; declarations = declaration_limit; places = place_limit; copies = copy_limit; rows = row_limit; positions = position_limit; size = size_limit; decimals = decimal_limit; bytes = bytes_size; numbers = numbers_size; block = block_size; blocks = block_limit } }
    {
        Self {
            line: Tables::LINE,
            residues: Tables::RESIDUES,
            brackets: Tables::BRACKETS,
            parts: Tables::PARTS,
            text: Tables::TEXT,
            label: Tables::LABEL,
            depth: Tables::DEPTH,
            count: Tables::COUNT,
            declarations: Tables::DECLARATIONS,
            places: Tables::PLACES,
            copies: Placement::COPIES,
            rows: Placement::ROWS,
            positions: Ledger::POSITIONS,
            size: Number::SIZE,
            decimals: Number::DECIMALS,
            bytes: Tables::BYTES,
            numbers: Tables::NUMBERS,
            block: Block::SIZE,
            blocks: Block::MOST,
        }
    }
}
