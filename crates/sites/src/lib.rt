// Places of a declaration, behind its `@`: where a list of them ends, and the site of each.
#![tactic(auto)]

ghost use Rattle.std.specs.Prelude.{◌≡◌, cond, ◌&&◌, ◌+◌, ◌≤◌, ◌<◌, eqb, ltb, length, get_or};
ghost use Rattle.scope.specs.Bytes.{comma};
ghost use Rattle.scope.specs.Limits.{place_limit};
ghost use Rattle.scope.specs.Places.{terminus_of};
ghost use Rattle.texts.specs.Texts.{coded};
ghost use Rattle.sites.specs.Says.{word_found, SiteIs, WordSays, PlaceSays, ListSays};

use scope::grammar::Stuck;
use scope::tables::Tables;

// The bytes of `N-term` and `C-term`.
const WORD: usize = 6;

// A list of places: the byte behind it, how many places there are, and the first past the limit, if there is one.
#[derive(Clone, Copy, Debug, PartialEq, Eq)]
pub struct Listed {
    pub next: usize,
    pub many: usize,
    pub over: Option<usize>,
}

// The list that begins at `at`.
pub fn list_at(line: &[u8], at: usize) -> Result<Listed, Stuck>
    requires { at ≤ length line.now }
    ensures { ListSays line.now at result }
{
    let mut i = at;
    let mut many = 0;
    let mut over = None;
    // each turn jumps behind a whole place
    loop {
        let next = place_at(line, i)?;
        over = first_over(over, many, i);
        many += 1;
        if !more_at(line, next) {
            return Ok(Listed { next, many, over });
        }
        i = next + 1;
    }
}

// With one place more behind so many: the first past the limit.
fn first_over(over: Option<usize>, many: usize, place: usize) -> Option<usize>
    ensures { result ≡ cond (eqb many place_limit) (Some place) over }
{
    if many == Tables::PLACES {
        Some(place)
    } else {
        over
    }
}

// Whether a place more follows.
fn more_at(line: &[u8], at: usize) -> bool
    ensures { result ≡ (ltb at (length line.now) && eqb (get_or line.now at 0) comma) }
{
    at < line.len() && line[at] == b','
}

// The place that begins at `at`: the byte behind it.
fn place_at(line: &[u8], at: usize) -> Result<usize, Stuck>
    requires { at ≤ length line.now }
    ensures { PlaceSays line.now at result }
{
    if at == line.len() || !classes::is_letter(line[at]) {
        return Err(Stuck { at });
    }
    match terminus_at(line, at) {
        None => Ok(at + 1),
        Some(_) => word_at(line, at + 2, b"term"),
    }
}

// The rest of a word, in either case: the byte behind it.
fn word_at(line: &[u8], at: usize, word: &[u8]) -> Result<usize, Stuck>
    requires { at ≤ length line.now }
    ensures { WordSays line.now at word.now result }
{
    for (k, &b) in word.iter().enumerate() {
        if at + k == line.len() || classes::upper(b) != classes::upper(line[at + k]) {
            return Err(Stuck { at: at + k });
        }
    }
    Ok(at + word.len())
}

// The site of the terminus whose word begins at `at`, if one does.
fn terminus_at(line: &[u8], at: usize) -> Option<u8>
    requires { at < length line.now }
    ensures { result ≡ word_found line.now at }
{
    if at + 1 < line.len() && line[at + 1] == b'-' {
        terminus_of(classes::upper(line[at]))
    } else {
        None
    }
}

// The terminus whose word begins with a letter, given in upper case.
fn terminus_of(letter: u8) -> Option<u8>
    ensures { result ≡ coded (terminus_of letter) }
{
    match letter {
        b'N' => Some(Tables::N_TERMINUS),
        b'C' => Some(Tables::C_TERMINUS),
        _ => None,
    }
}

// A place: its site, a letter in upper case, 1 the N-terminus, 2 the C-terminus; and the byte behind it.
#[derive(Clone, Copy, Debug, PartialEq, Eq)]
pub struct Site {
    pub site: u8,
    pub next: usize,
}

// The place at `at`, for whoever knows that a list was read there.
pub fn site_at(line: &[u8], at: usize) -> Site
    ensures { SiteIs line.now at result.site result.next }
{
    if line.len() <= at {
        return Site { site: 0, next: at };
    }
    match terminus_at(line, at) {
        None => Site {
            site: classes::upper(line[at]),
            next: at + 1,
        },
        Some(site) => Site {
            site,
            next: at + WORD,
        },
    }
}
