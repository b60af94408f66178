// The lines of a text: each a letter, then numbers after single spaces, then a line feed.
#![tactic(auto)]

ghost use Rattle.std.specs.Prelude.{◌≡◌, ℕ, ◌<◌, ◌≤◌, ◌==◌, List, ◌∷◌, ◌++◌, length, position, ℤ, Decides, MatchOption, MatchResult, ◌≢◌, slice_index};
ghost use Rattle.std.specs.Str.Parse.{digits_value};
ghost use Rattle.std.specs.Int.{IsInRange};
ghost use Rattle.lines.specs.Letters.{Letter, Lettered, letter, byte, after};
ghost use Rattle.lines.specs.Lines.{Cut, FirstLine};
ghost use Rattle.lines.specs.Spelling.{Word, Words, Plain, Ends, DigitsTo};
ghost use Rattle.lines.specs.declared.Misread.TheVariants.{Misspelt, Memory};

use std::alloc::{AllocFailed, Global};

// A number has at most this many digits.
const MOST_DIGITS: usize = 7;

// How many digits the text begins with.
fn digit_run(s: &[u8]) -> usize
    ensures within { result ≤ length s.now }
    ensures all { DigitsTo s.now result }
    ensures stops { result < length s.now → IsInRange 48 57 (slice_index s.now result) → ⊥ }
{
    s.iter().take_while(|b| b.is_ascii_digit()).count()
}

// The number that a few digits write, or None where there are none.
fn digits_value(digits: &[u8]) -> Option<u32>
    requires { (length digits.now ≤ 7) × DigitsTo digits.now (length digits.now) }
    ensures { MatchOption result (length digits.now ≡ 0) (λ n. (0 < length digits.now) × (n ≡ digits_value 10 digits.now)) }
{
    if digits.is_empty() {
        return None;
    }
    // A fold and no `parse`, which wants a `str`: to test the digits twice more cost a third of the reader's time.
    Some(
        digits.iter().fold(0u32, |value, b| {
            value
                .wrapping_mul(10)
                .wrapping_add(u32::from(b.wrapping_sub(b'0')))
        }),
    )
}

// Whether a number may end before s.
fn ends(s: &[u8]) -> bool
    ensures { Decides result (Ends s.now) }
{
    matches!(s, [] | [b' ', ..])
}

// A number without its sign, up to a space or the end, and what follows it.
fn magnitude(s: &[u8]) -> Option<(u32, &[u8])>
    ensures { MatchOption result ((n : ℕ) (rest : List ℕ) → Plain s.now n rest → ⊥) (λ p. Plain s.now p.0 p.1.now) }
{
    let (digits, rest) = s.split_at(digit_run(s));
    if digits.len() > MOST_DIGITS || !ends(rest) {
        return None;
    }
    if digits.len() > 1 && digits[0] == b'0' {
        return None;
    }
    Some((digits_value(digits)?, rest))
}

// The first number of a line's rest, with its space and its sign, and what follows it.
pub fn number(s: &[u8]) -> Option<(i64, &[u8])>
    ensures { MatchOption result ((z : ℤ) (rest : List ℕ) → Word s.now z rest → ⊥) (λ p. Word s.now p.0 p.1.now) }
{
    let text = s.strip_prefix(b" ")?;
    match text.strip_prefix(b"-") {
        Some(digits) => {
            let (n, rest) = magnitude(digits)?;
            if n == 0 {
                return None;
            }
            Some((-i64::from(n), rest))
        }
        None => {
            let (n, rest) = magnitude(text)?;
            Some((i64::from(n), rest))
        }
    }
}

// A line by its letter, with what follows the letter.
#[derive(Clone, Copy)]
pub enum Kind<'a> {
    Ring(&'a [u8]),
    Factor(&'a [u8]),
    Label(&'a [u8]),
    Subdivision(&'a [u8]),
    Tile(&'a [u8]),
    Child(&'a [u8]),
    Depth(&'a [u8]),
    Seed(&'a [u8]),
}

impl<'a> Kind<'a> {
    // What follows the letter.
    pub fn rest(self) -> &'a [u8]
        ensures { result.now ≡ after self.entry }
    {
        match self {
            Kind::Ring(rest)
            | Kind::Factor(rest)
            | Kind::Label(rest)
            | Kind::Subdivision(rest)
            | Kind::Tile(rest)
            | Kind::Child(rest)
            | Kind::Depth(rest)
            | Kind::Seed(rest) => rest,
        }
    }
}

// The kind of a line, or None where it begins with none of the letters.
pub fn kind_of(line: &[u8]) -> Option<Kind<'_>>
    ensures { MatchOption result (Lettered line.now → ⊥) (λ k. line.now ≡ byte (letter k) ∷ after k) }
{
    let (first, rest) = line.split_first()?;
    match char::from(*first) {
        'R' => Some(Kind::Ring(rest)),
        'I' => Some(Kind::Factor(rest)),
        'L' => Some(Kind::Label(rest)),
        'S' => Some(Kind::Subdivision(rest)),
        'T' => Some(Kind::Tile(rest)),
        'C' => Some(Kind::Child(rest)),
        'D' => Some(Kind::Depth(rest)),
        'P' => Some(Kind::Seed(rest)),
        _ => None,
    }
}

// Where the first line ends.
fn line_end(text: &[u8]) -> Option<usize>
    ensures { result ≡ position (λ b. b == 10) text.now }
{
    text.iter().position(|b| *b == b'\n')
}

// The first line, without its end, and what follows it; None where no line ends.
pub fn next_line(text: &[u8]) -> Option<(&[u8], &[u8])>
    ensures { MatchOption result ((line rest : List ℕ) → text.now ≢ line ++ 10 ∷ rest) (λ p. Cut text.now p.0.now p.1.now) }
{
    let end = line_end(text)?;
    Some((&text[..end], &text[end + 1..]))
}

// Why no line is read: it breaks the spelling, or there was no memory for its numbers.
#[derive(Clone, Copy, Debug, PartialEq, Eq)]
pub enum Misread {
    Misspelt,
    Memory,
}

impl<T: Drop> From<AllocFailed<T>> for Misread {
    ghost from_gives = { λ _ r. r ≡ Memory };

    fn from(_value: AllocFailed<T>) -> Misread {
        Misread::Memory
    }
}

// The numbers of a line's rest, to its end.
pub fn numbers(heap: Global, s: &[u8]) -> Result<Vec<i64>, Misread>
    ensures { MatchResult result (λ v. Words s.now v.items) (λ e. e ≡ Misspelt → (zs : List ℤ) → Words s.now zs → ⊥) }
{
    let mut found = Vec::new(heap);
    let mut rest = s;
    // A loop, since a chain would carry the rest of the line and a fault beside each number.
    while !rest.is_empty() {
        let (z, more) = number(rest).ok_or(Misread::Misspelt)?;
        found.push(z)?;
        rest = more;
    }
    Ok(found)
}

// The first line of a text: its kind, its numbers, and what follows it.
pub fn first_line(heap: Global, text: &[u8]) -> Result<(Kind<'_>, Vec<i64>, &[u8]), Misread>
    ensures { MatchResult result (λ p. FirstLine text.now (letter p.0) p.1.items p.2.now) (λ e. e ≡ Misspelt → (a : Letter) (zs : List ℤ) (rest : List ℕ) → FirstLine text.now a zs rest → ⊥) }
{
    let (line, after) = next_line(text).ok_or(Misread::Misspelt)?;
    let kind = kind_of(line).ok_or(Misread::Misspelt)?;
    let found = numbers(heap, kind.rest())?;
    Ok((kind, found, after))
}
