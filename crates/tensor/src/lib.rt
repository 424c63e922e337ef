// Coons patches turned into tensor-product patches, so that a renderer needs to know one kind: on raw numbers exactly, every coordinate times nine,
// and on f64.
#![tactic(auto)]

ghost use Rattle.std.specs.Prelude.{length};
ghost use Rattle.answers.specs.Outcome.{Done};
ghost use Rattle.tensor.specs.Outcomes.{coons_to_tensor_raw, coons_to_tensor};

use answers::{Answer, Refusal};

mod float;
mod inner_points;
mod raw;

// Turns a list of raw Type 6 numbers, flags among them. Answers how many patches there are.
pub fn coons_to_tensor_raw(numbers: &[u32], n: usize, out: &mut [i64]) -> Answer
    ensures { Done (coons_to_tensor_raw n numbers.now (length out.old)) out.old result out.new }
{
    if n > answers::MOST_COMPONENTS {
        return Err(Refusal::Components);
    }
    if numbers.len() > answers::MOST_NUMBERS {
        return Err(Refusal::Length);
    }
    let count = raw::count_patches(numbers, n).ok_or(Refusal::Record)?;
    let needed = count * (32 + 4 * n);
    if out.len() < needed {
        return Err(Refusal::Room(needed));
    }
    raw::write_patches(numbers, n, out);
    Ok(count)
}

// Turns Type 6 patches as the readers write them. Answers how many there are.
pub fn coons_to_tensor(values: &[f64], n: usize, out: &mut [f64]) -> Answer
    ensures { Done (coons_to_tensor n values.now (length out.old)) out.old result out.new }
{
    if n > answers::MOST_COMPONENTS {
        return Err(Refusal::Components);
    }
    if values.len() > answers::MOST_NUMBERS {
        return Err(Refusal::Length);
    }
    let size = 24 + 4 * (8 + n);
    if values.len() % size > 0 {
        return Err(Refusal::Record);
    }
    let count = values.len() / size;
    let needed = count * (size + 8);
    if out.len() < needed {
        return Err(Refusal::Room(needed));
    }
    float::write_patches(values, n, out);
    Ok(count)
}
