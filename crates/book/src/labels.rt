// What the factor and the labels have to be.
ghost use Rattle.std.specs.Prelude.{◌≡◌, ◌<◌, map, pos, vec_len, Decides};
ghost use Rattle.rings.specs.Plane.{OnPlane};
ghost use Rattle.chains.specs.Accepted.{lengths, backwards, turned_part, FactorAboveOne, LengthAboveZero, SubdivisionFits};
ghost use Rattle.edges.specs.Answers.{Worked};
ghost use Rattle.edges.specs.Views.{book_view};
ghost use Rattle.job_rows.specs.Shapes.{part_of};
ghost use Rattle.book.specs.Points.{KeptFactor, KeptLength, KeptLengths, KeptSubdivision, Tested};

use edges::lookups::{is_arrowed, length_of, parts_of};
use edges::rows::{Book, Part};
use rings::fault::RingFault;
use rings::ring::Ring;

// Whether z is its own conjugate.
pub fn is_real<R: Ring>(z: R) -> Result<bool, RingFault>
    ensures { Worked result (λ b. Decides b (R.exact.conj (R.value z) ≡ R.value z)) (OnPlane R.exact (R.exact.conj (R.value z))) }
{
    let conjugate = z.conj()?;
    Ok(conjugate == z)
}

// Whether ζ·z lies above the real axis: of a real z, whether it is above 0.
pub fn is_positive<R: Ring>(z: R) -> Result<bool, RingFault>
    ensures { Worked result (λ b. Decides b (R.exact.height (R.exact.mul R.exact.zeta (R.value z)) ≡ pos 1)) (OnPlane R.exact (R.exact.mul R.exact.zeta (R.value z))) }
{
    let raised = z.turn(1)?;
    let height = raised.height()?;
    Ok(height == 1)
}

// Whether the factor is real and above 1.
pub fn factor_fits<R: Ring>(book: &Book<R>) -> Result<bool, RingFault>
    ensures { let B = book_view R.exact R.value book.now in Tested result (FactorAboveOne R.exact B) (KeptFactor R.exact B) }
{
    if !is_real(book.factor)? {
        return Ok(false);
    }
    let less = book.factor.sub(R::unit(0))?;
    is_positive(less)
}

// Whether label e's length is real and above 0.
pub fn length_fits<R: Ring>(book: &Book<R>, e: usize) -> Result<bool, RingFault>
    ensures { let B = book_view R.exact R.value book.now in Tested result (LengthAboveZero R.exact B e) (KeptLength R.exact B e) }
{
    let length = length_of(book, e);
    if !is_real(length)? {
        return Ok(false);
    }
    is_positive(length)
}

// Whether a is b as it reads from its other end: an arrowed sense is turned.
fn mirrors<R: Ring>(book: &Book<R>, a: Part, b: Part) -> bool
    ensures { Decides result (part_of a ≡ turned_part R.exact (book_view R.exact R.value book.now) (part_of b)) }
{
    let turned = Part {
        label: b.label,
        forward: b.forward != is_arrowed(book, b.label),
    };
    a == turned
}

// Whether some parts, read backwards with arrowed senses turned, are themselves.
pub fn is_palindrome<R: Ring>(book: &Book<R>, parts: &[Part]) -> bool
    ensures { Decides result (backwards R.exact (book_view R.exact R.value book.now) (map part_of parts.now) ≡ map part_of parts.now) }
{
    parts
        .iter()
        .zip(parts.iter().rev())
        .all(|(a, b)| mirrors(book, *a, *b))
}

// The lengths of some parts added up, whatever their senses.
pub fn total_length<R: Ring>(book: &Book<R>, parts: &[Part]) -> Result<R, RingFault>
    ensures { let B = book_view R.exact R.value book.now in Worked result (λ z. R.value z ≡ lengths R.exact B (map part_of parts.now)) (KeptLengths R.exact B (map part_of parts.now)) }
{
    parts.iter().rev().try_fold(R::zero(), |total, part| {
        length_of(book, part.label).add(total)
    })
}

// Whether label e's subdivision fills its stretched length and, where e is plain, reads the same from both ends.
pub(crate) fn subdivision_fits<R: Ring>(book: &Book<R>, e: usize) -> Result<bool, RingFault>
    ensures { let B = book_view R.exact R.value book.now in Tested result (SubdivisionFits R.exact B e) (KeptSubdivision R.exact B e) }
{
    let parts = parts_of(book, e);
    let length = length_of(book, e);
    let total = total_length(book, parts)?;
    let want = book.factor.mul(length)?;
    Ok(total == want && (is_arrowed(book, e) || is_palindrome(book, parts)))
}
