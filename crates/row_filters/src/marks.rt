//! The rows of an array that meet a filter.
ghost use Rattle.std.specs.Prelude.{◌≡◌, ◌<◌, length, false, true, None, IfOk};
ghost use Rattle.std.specs.declared.cmp.Ordering.TheVariants.{Less, Equal, Greater};
ghost use Rattle.filter_types.specs.Comparisons.{holds};
ghost use Rattle.std.specs.Option.{ForSome, option_map};
ghost use Rattle.arrow_spec.specs.Flat.{little};
ghost use Rattle.arrow_buffers.specs.Rows.{is_valid};
ghost use Rattle.arrow_arrays.specs.LeafParts.{as_bytes, numbers};
ghost use Rattle.arrow_arrays.specs.Heads.{indexed};
ghost use Rattle.arrow_arrays.specs.Parts.{cells_in, has_children, leaf, nested, rows_in};
ghost use Rattle.arrow_arrays.specs.PartsOf.{parts_of};
ghost use Rattle.row_filters.specs.Filters.{marks_of, number_in, row_meets};
ghost use Rattle.row_filters.specs.Compared.{answer_of};

use crate::number::FilterNumber;
use arrow_arrays::{Array, DictionaryArray};
use arrow_buffers::{Bitmap, PrimitiveArray};
use filter_types::{Filter, FilterOp};
use std::alloc::{AllocError, Global};

/// Whether a row is valid: every row, where no validity is given.
fn is_valid_in(validity: Option<&Bitmap>, row: usize) -> bool
    requires { ForSome validity (λ bits. row < length bits.now) }
    ensures { result ≡ is_valid (option_map (λ bits. bits.now) validity.entry) row }
{
    match validity {
        None => true,
        Some(bits) => bits.get(row),
    }
}

/// Whether the number of a row meets a filter.
fn number_meets<T: FilterNumber>(array: &PrimitiveArray<T>, filter: Filter, row: usize) -> bool
    requires { row < length array.now.values }
    ensures { result ≡ row_meets filter (leaf (numbers (as_bytes (T.written little) array.now))) row }
{
    prove!(array.len() > row);
    if is_valid_in(array.validity(), row) {
        filter.is_met_by(array.value(row).number())
    } else {
        false
    }
}

/// Whether the value of a row of a dictionary meets a filter.
#[cycle(meets)]
fn value_meets(array: &DictionaryArray, filter: Filter, row: usize) -> bool
    requires { row < length array.now.head.keys }
    ensures { result ≡ row_meets filter (nested (indexed array.now.head) array.now.children) row }
{
    prove!(array.len() > row);
    if is_valid_in(array.validity(), row) {
        let (part, place) = array.index(row);
        let parts = array.parts();
        prove!(part < parts.len());
        meets(&parts[part], filter, place)
    } else {
        false
    }
}

/// Whether a row of an array in which no arrays stand meets a filter. Rows that hold no number meet none.
fn leaf_meets(array: &Array, filter: Filter, row: usize) -> bool
    requires leaf { has_children (parts_of array.now) ≡ false }
    requires below { row < rows_in (parts_of array.now) }
    ensures { result ≡ row_meets filter (parts_of array.now) row }
{
    match array {
        Array::Int8(array) => number_meets(array, filter, row),
        Array::Int16(array) => number_meets(array, filter, row),
        Array::Int32(array) => number_meets(array, filter, row),
        Array::Int64(array) => number_meets(array, filter, row),
        Array::Int128(array) => number_meets(array, filter, row),
        Array::UInt8(array) => number_meets(array, filter, row),
        Array::UInt16(array) => number_meets(array, filter, row),
        Array::UInt32(array) => number_meets(array, filter, row),
        Array::UInt64(array) => number_meets(array, filter, row),
        Array::Null(_) => false,
        Array::Boolean(_) => false,
        Array::DaysMs(array) => {
            prove!(array.len() > row);
            false
        }
        Array::MonthsDaysNs(array) => {
            prove!(array.len() > row);
            false
        }
        Array::Binary(_) => false,
        Array::LargeBinary(_) => false,
        Array::Utf8(_) => false,
        Array::LargeUtf8(_) => false,
        Array::BinaryView(_) => false,
        Array::Utf8View(_) => false,
        Array::FixedSizeBinary(_) => false,
        _ => unreachable!(),
    }
}

/// Whether a row of an array meets a filter, and of a dictionary its value. The call goes as deep as dictionaries stand in one another.
#[cycle(meets)]
fn meets(array: &Array, filter: Filter, row: usize) -> bool
    requires { row < rows_in (parts_of array.now) }
    ensures { result ≡ row_meets filter (parts_of array.now) row }
{
    match array {
        Array::List(_) => false,
        Array::FixedSizeList(_) => false,
        Array::Map(_) => false,
        Array::Struct(_) => false,
        Array::Union(_) => false,
        Array::Dictionary(array) => value_meets(array, filter, row),
        leaf => leaf_meets(leaf, filter, row),
    }
}

/// What a comparison answers by how a number stands to the filter's.
#[derive(Clone, Copy)]
struct Answers {
    /// Where it is less.
    less: bool,
    /// Where it is the same.
    equal: bool,
    /// Where it is greater.
    greater: bool,
}

/// What a comparison answers.
fn answers_of(op: FilterOp) -> Answers
    ensures { result ≡ record { less = holds op Less; equal = holds op Equal; greater = holds op Greater } }
{
    match op {
        FilterOp::Equal => Answers {
            less: false,
            equal: true,
            greater: false,
        },
        FilterOp::NotEqual => Answers {
            less: true,
            equal: false,
            greater: true,
        },
        FilterOp::Less => Answers {
            less: true,
            equal: false,
            greater: false,
        },
        FilterOp::LessOrEqual => Answers {
            less: true,
            equal: true,
            greater: false,
        },
        FilterOp::Greater => Answers {
            less: false,
            equal: false,
            greater: true,
        },
        FilterOp::GreaterOrEqual => Answers {
            less: false,
            equal: true,
            greater: true,
        },
    }
}

/// What is answered for a number beside another.
fn answer<T: FilterNumber>(value: T, number: T, answers: Answers) -> bool
    ensures { result ≡ answer_of (number_in (T.cell value)) (number_in (T.cell number)) answers }
{
    if value.is_less(number) {
        answers.less
    } else if number.is_less(value) {
        answers.greater
    } else {
        answers.equal
    }
}

/// The mark of a row that is not null, beside a number that is the filter's.
fn valid_mark<T: FilterNumber>(
    array: &PrimitiveArray<T>,
    filter: Filter,
    number: T,
    answers: Answers,
    row: usize,
) -> bool
    requires below { row < length array.now.values }
    requires valid { is_valid array.now.validity row ≡ true }
    requires same { number_in (T.cell number) ≡ filter.number }
    requires answers { answers ≡ record { less = holds filter.op Less; equal = holds filter.op Equal; greater = holds filter.op Greater } }
    ensures { result ≡ row_meets filter (leaf (numbers (as_bytes (T.written little) array.now))) row }
{
    prove!(array.len() > row);
    let _bits = array.validity();
    let value = array.value(row);
    let _held = value.number();
    answer(value, number, answers)
}

/// The mark of a row, which is null or not, beside a number that is the filter's.
fn number_mark<T: FilterNumber>(
    array: &PrimitiveArray<T>,
    filter: Filter,
    number: T,
    answers: Answers,
    row: usize,
) -> bool
    requires below { row < length array.now.values }
    requires same { number_in (T.cell number) ≡ filter.number }
    requires answers { answers ≡ record { less = holds filter.op Less; equal = holds filter.op Equal; greater = holds filter.op Greater } }
    ensures { result ≡ row_meets filter (leaf (numbers (as_bytes (T.written little) array.now))) row }
{
    prove!(array.len() > row);
    if is_valid_in(array.validity(), row) {
        valid_mark(array, filter, number, answers, row)
    } else {
        false
    }
}

/// The marks of the rows of an array that has no validity, compared as numbers of its type.
fn valid_marks<T: FilterNumber>(
    alloc: Global,
    array: &PrimitiveArray<T>,
    filter: Filter,
    number: T,
) -> Result<Vec<bool>, AllocError>
    requires valid { array.now.validity ≡ None }
    requires same { number_in (T.cell number) ≡ filter.number }
    ensures { IfOk result (λ v. v.items ≡ marks_of filter (cells_in (leaf (numbers (as_bytes (T.written little) array.now))))) }
{
    let answers = answers_of(filter.op);
    let mut marks = Vec::new(alloc);
    marks.reserve(array.len())?;
    for row in 0..array.len() {
        marks.push_reserved(valid_mark(array, filter, number, answers, row));
    }
    Ok(marks)
}

/// The marks of the rows of an array, compared as numbers of its type.
fn masked_marks<T: FilterNumber>(
    alloc: Global,
    array: &PrimitiveArray<T>,
    filter: Filter,
    number: T,
) -> Result<Vec<bool>, AllocError>
    requires { number_in (T.cell number) ≡ filter.number }
    ensures { IfOk result (λ v. v.items ≡ marks_of filter (cells_in (leaf (numbers (as_bytes (T.written little) array.now))))) }
{
    let answers = answers_of(filter.op);
    let mut marks = Vec::new(alloc);
    marks.reserve(array.len())?;
    for row in 0..array.len() {
        marks.push_reserved(number_mark(array, filter, number, answers, row));
    }
    Ok(marks)
}

/// The marks of the rows of numbers, each looked at with its validity.
fn each_number_mark<T: FilterNumber>(
    alloc: Global,
    array: &PrimitiveArray<T>,
    filter: Filter,
) -> Result<Vec<bool>, AllocError>
    ensures { IfOk result (λ v. v.items ≡ marks_of filter (cells_in (leaf (numbers (as_bytes (T.written little) array.now))))) }
{
    let mut marks = Vec::new(alloc);
    marks.reserve(array.len())?;
    for row in 0..array.len() {
        marks.push(number_meets(array, filter, row))?;
    }
    Ok(marks)
}

/// The marks of the rows of numbers. A filter's number that the type does not have is compared with each as it is.
fn number_marks<T: FilterNumber>(
    alloc: Global,
    array: &PrimitiveArray<T>,
    filter: Filter,
) -> Result<Vec<bool>, AllocError>
    ensures { IfOk result (λ v. v.items ≡ marks_of filter (cells_in (leaf (numbers (as_bytes (T.written little) array.now))))) }
{
    match (array.validity(), T::from_number(filter.number)) {
        (None, Some(number)) => valid_marks(alloc, array, filter, number),
        (Some(_), Some(number)) => masked_marks(alloc, array, filter, number),
        (_, None) => each_number_mark(alloc, array, filter),
    }
}

/// The marks of an array's rows, each looked for by itself.
fn each_mark(alloc: Global, array: &Array, filter: Filter) -> Result<Vec<bool>, AllocError>
    ensures { IfOk result (λ v. v.items ≡ marks_of filter (cells_in (parts_of array.now))) }
{
    let mut marks = Vec::new(alloc);
    for row in 0..array.len() {
        marks.push(meets(array, filter, row))?;
    }
    Ok(marks)
}

/// The marks of an array's rows: whether each meets a filter, whose column is not looked at. Nulls meet none, and a dictionary's rows
/// count by their values.
pub fn row_marks(alloc: Global, array: &Array, filter: Filter) -> Result<Vec<bool>, AllocError>
    ensures { IfOk result (λ v. v.items ≡ marks_of filter (cells_in (parts_of array.now))) }
{
    match array {
        Array::Int8(numbers) => number_marks(alloc, numbers, filter),
        Array::Int16(numbers) => number_marks(alloc, numbers, filter),
        Array::Int32(numbers) => number_marks(alloc, numbers, filter),
        Array::Int64(numbers) => number_marks(alloc, numbers, filter),
        Array::Int128(numbers) => number_marks(alloc, numbers, filter),
        Array::UInt8(numbers) => number_marks(alloc, numbers, filter),
        Array::UInt16(numbers) => number_marks(alloc, numbers, filter),
        Array::UInt32(numbers) => number_marks(alloc, numbers, filter),
        Array::UInt64(numbers) => number_marks(alloc, numbers, filter),
        other => each_mark(alloc, other, filter),
    }
}
