// What a declined call tells, whatever its faults are.
use std::test::Fail;
use task::refusal::{Fault, Refusal};

pub fn refusal_of<T: Drop, F: Fault + Drop>(answer: Result<T, F>) -> Result<Refusal, Fail> {
    Ok(answer.err().ok_or("accepted")?.refusal())
}

pub fn number_and_place<T: Drop, F: Fault + Drop>(
    answer: Result<T, F>,
) -> Result<(u16, usize), Fail> {
    let refusal = refusal_of(answer)?;
    Ok((refusal.number, refusal.place.0))
}
