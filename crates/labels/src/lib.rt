// A label and its score, from the byte behind its `#` up to the byte behind it.
#![tactic(auto)]

ghost use Rattle.std.specs.Prelude.{◌≡◌, ℕ, ◌+◌, ◌-◌, ◌<◌, ◌≤◌, length};
ghost use Rattle.std.proofs.Math.Option.{Option, some};
ghost use Rattle.scope.specs.Line.{Number as Written};
ghost use Rattle.scope.specs.Lists.{part};
ghost use Rattle.scope.specs.Content.{scoring, inner_step, part_end, labelled};
ghost use Rattle.numerals.specs.Numerals.{num_of};
ghost use Rattle.labels.specs.Says.{score_code, score_points, LabelSays};
ghost use Rattle.labels.specs.Within.{SaysFrom, Scored, score_end, scan_signed};

use numerals::Num;
use scope::grammar::Stuck;
use scope::tables::Number;

// A score: its number, if that is in range.
#[derive(Clone, Copy, Debug, PartialEq, Eq)]
pub struct Score {
    pub number: Option<Number>,
}

// Where its name begins and the place behind that; its score, if it has one; the place behind it all.
#[derive(Clone, Copy, Debug, PartialEq, Eq)]
pub struct Label {
    pub from: usize,
    pub to: usize,
    pub score: Option<Score>,
    pub next: usize,
}

// Above the codes of all scores in range.
const WIDE: usize = Number::DECIMALS as usize + 2;

// The code of a score in a bracket's row: 0 for none, one more than its decimals, 8 where it is out of range.
pub fn score_code(score: Option<Score>) -> usize
    ensures { result ≡ score_code score }
{
    match score {
        None => 0,
        Some(Score { number: None }) => WIDE,
        Some(
            Score {
                number: Some(number),
            },
        ) => number.decimals as usize + 1,
    }
}

// Its millionths: 0 for none, and where it is out of range.
pub fn score_points(score: Option<Score>) -> i64
    ensures { result ≡ score_points score }
{
    match score {
        Some(
            Score {
                number: Some(number),
            },
        ) => number.millionths,
        _ => 0,
    }
}

// Behind a label.
fn label_end(
    line: &[u8],
    from: usize,
    to: usize,
    score: Option<Score>,
    next: usize,
) -> Result<Label, Stuck>
    ensures { (s : Option (Written ℕ)) → Scored line.now from to score s → to ≤ next → next ≤ length line.now → SaysFrom line.now from next (λ q c. part_end c (labelled q from (part from (to - from) line.now) s)) result }
{
    if line.len() <= next {
        return Err(Stuck { at: next });
    }
    Ok(Label {
        from,
        to,
        score,
        next,
    })
}

// Behind the number of a score.
fn score_end(line: &[u8], from: usize, to: usize, score: Score, next: usize) -> Result<Label, Stuck>
    ensures { (n : Written ℕ) → Scored line.now from to (Some score) (some n) → to ≤ next → next ≤ length line.now → SaysFrom line.now from next (λ q c. score_end c q from (part from (to - from) line.now) n) result }
{
    if line.len() <= next || line[next] != b')' {
        return Err(Stuck { at: next });
    }
    label_end(line, from, to, Some(score), next + 1)
}

// A number, with a sign or without.
fn number_at(line: &[u8], at: usize) -> Result<Num, Stuck>
    ensures { result ≡ num_of (scan_signed line.now at) }
{
    if at < line.len() && classes::is_sign(line[at]) {
        numerals::number_after_sign(line, at + 1, line[at] == b'-')
    } else {
        numerals::number_unsigned(line, at)
    }
}

// Behind the `(` of a score, at `to`.
fn score_at(line: &[u8], from: usize, to: usize) -> Result<Label, Stuck>
    requires { (from < to) × (to < length line.now) }
    ensures { SaysFrom line.now from (to + 1) (λ q c. inner_step (to + 1) (scoring c q from (part from (to - from) line.now))) result }
{
    let Num { number, next } = number_at(line, to + 1)?;
    score_end(line, from, to, Score { number }, next)
}

// The label whose name begins at `at`, behind its `#`.
pub fn label_at(line: &[u8], at: usize) -> Result<Label, Stuck>
    ensures { at ≤ length line.now → LabelSays line.now at result }
{
    let end = classes::alnum_end(line, at);
    if end == at || line.len() <= end {
        return Err(Stuck { at: end });
    }
    if line[end] == b'(' {
        score_at(line, at, end)
    } else {
        label_end(line, at, end, None, end)
    }
}
