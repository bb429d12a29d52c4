#![tactic(auto)]

// Strain back from a stored cosine block: the inverse of the DCT-II (document 02, (i)). The call asks nothing of its input: it tests its
// refusals in their order, before anything is written, and promises its whole outcome (specs/Promises.antt).
mod sum;
mod value;

ghost use Rattle.inverse.specs.Promises.{InversePromise};

use refusals::range::first_beyond;
use refusals::refusal::Refusal;
use refusals::stored::test_stored;
use value::put_values;

// The strain of a block of `length` samples, from its stored DCT-II coefficients.
#[tactic(auto, using(crate::proofs::Verdicts::inverse_tests))]
pub fn inverse_dct(coefficients: &[i32], length: usize, values: &mut [i32]) -> Result<(), Refusal>
    ensures { InversePromise coefficients.now length values.old values.new result }
{
    test_stored(length, coefficients.len(), length)?;
    if values.len() < length {
        return Err(Refusal::ResultTooShort);
    }
    let limit = (length * 1000000 + length) as u32;
    if let Some(place) = first_beyond(limit, coefficients, 0, length).place {
        return Err(Refusal::BeyondLimit(place));
    }
    put_values(&coefficients[..length], values);
    Ok(())
}
