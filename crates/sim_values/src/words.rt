//! The words of storage that instances, arrays and texts take.
ghost use Rattle.std.specs.Prelude.{◌≡◌, ◌+◌, ◌^◌, min};
ghost use Rattle.sim_values.specs.Words.{extent_of, element_count, instance_words, array_words, is_exhausted, text_words};

use sim_base::RunError;

/// The most elements that an array may have.
const MOST_ELEMENTS: u64 = 1 << 31;

/// The words of an instance with these cells: 4, one for each cell, and 4 more for a process.
pub fn words_instance(cells: u32, process: bool) -> u64
    ensures words { result ≡ instance_words cells process }
{
    let cells = u64::from(cells);
    if process { 8 + cells } else { 4 + cells }
}

/// The words of an array with these bounds, a lower and an upper one for each dimension: 3, one for each element, and 2 for
/// each dimension. E13 where it has more than 2^31 elements.
pub fn words_array(bounds: &[(i64, i64)]) -> Result<u64, RunError>
    ensures words { result ≡ array_words bounds.now }
{
    let elements = capped_count(bounds);
    if elements > MOST_ELEMENTS {
        return Err(RunError::ArrayTooLarge);
    }
    Ok(3 + elements + 2 * bounds.len() as u64)
}

/// The words of a new text of this many characters: 2, and one for every 8 characters begun; none for no characters.
pub fn words_text(length: u64) -> u64
    ensures words { result ≡ text_words length }
{
    if length == 0 {
        0
    } else {
        2 + length.div_ceil(8)
    }
}

/// Whether so many words more than those used exceed the budget.
pub fn is_exhausted(budget: u64, used: u64, wanted: u64) -> bool
    ensures exhausted { result ≡ is_exhausted budget used wanted }
{
    match used.checked_add(wanted) {
        Some(sum) => sum > budget,
        None => true,
    }
}

/// How many elements an array with these bounds has, or one more than may be where they are more.
fn capped_count(bounds: &[(i64, i64)]) -> u64
    ensures { result ≡ min (element_count bounds.now) (2 ^ 31 + 1) }
{
    let mut count = 1;
    for dimension in bounds {
        count = (count * capped_extent(dimension)).min(MOST_ELEMENTS + 1);
    }
    count
}

/// How many subscripts a dimension has, or one more than an array may have elements where they are more.
fn capped_extent(bounds: &(i64, i64)) -> u64
    ensures { result ≡ min (extent_of bounds.now) (2 ^ 31 + 1) }
{
    let (lower, upper) = *bounds;
    if upper < lower {
        0
    } else {
        upper.abs_diff(lower).min(MOST_ELEMENTS) + 1
    }
}
