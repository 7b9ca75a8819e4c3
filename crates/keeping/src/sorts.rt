// The blocks of an area by their sort, counted.
ghost use Rattle.std.specs.Prelude.{◌≡◌, ◌<◌};
ghost use Rattle.blocks.specs.Answers.{counts_of};
ghost use Rattle.keeping.specs.Sorts.{sort_many, sort_number, kind_sort, sort_at};

use blocks::Survey;
use chains::Area;
use scope::blocks::Block;

// The sorts of blocks.
#[derive(Clone, Copy, Debug, PartialEq, Eq)]
pub enum Sort {
    Unsound = 0,
    Free = 1,
    First = 2,
    Further = 3,
    Other = 4,
}

// how many there are
const SORTS: usize = 5;

// The sort of a sound block of this kind.
fn sort_of(kind: u8) -> Sort
    ensures { sort_number result ≡ kind_sort kind }
{
    match kind {
        Block::FREE => Sort::Free,
        Block::FIRST => Sort::First,
        Block::FURTHER => Sort::Further,
        _ => Sort::Other,
    }
}

// The sort of block b.
fn sort_at(area: &Area<'_>, b: usize) -> Sort
    requires { b < area.now.blocks }
    ensures { sort_number result ≡ sort_at area.now.bytes.now b }
{
    if area.is_sound(b) {
        sort_of(area.kind(b))
    } else {
        Sort::Unsound
    }
}

// The number of a sort: a cast in the middle of an expression would have no bound.
fn index_of(sort: Sort) -> usize
    ensures { (result ≡ sort_number sort) × (result < sort_many) }
{
    sort as usize
}

// All blocks.
pub fn count_sorts(area: &Area<'_>) -> Survey
    ensures { result ≡ counts_of area.now.bytes.now }
{
    let mut of = [0usize; SORTS];
    for b in 0..area.blocks {
        let sort = index_of(sort_at(area, b));
        of[sort] += 1;
    }
    let [unsound, free, first, further, other] = of;
    Survey {
        free,
        first,
        further,
        other,
        unsound,
    }
}
