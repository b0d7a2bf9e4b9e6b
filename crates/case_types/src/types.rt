//! Types as words, each in front of its children: `list int8`, `struct(2) a=int8 b=utf8!`.
use crate::words::{Answer, numbers, parts};
use arrow_types::{
    ArrowDataType, ExtensionType, Field, IntegerType, IntervalUnit, TimeUnit, UnionMode, UnionType,
};

/// A type, and the name and the nulls of the column or the child that has it.
#[derive(Drop)]
pub(crate) struct Named<'a> {
    name: &'a str,
    dtype: ArrowDataType,
    is_nullable: bool,
}

/// The types of the words that were read, the first one last.
pub(crate) type Types<'a> = Vec<Named<'a>>;

fn number_type(name: &str) -> Option<ArrowDataType> {
    match name {
        "int8" => Some(ArrowDataType::Int8),
        "int16" => Some(ArrowDataType::Int16),
        "int32" => Some(ArrowDataType::Int32),
        "int64" => Some(ArrowDataType::Int64),
        "int128" => Some(ArrowDataType::Int128),
        "uint8" => Some(ArrowDataType::UInt8),
        "uint16" => Some(ArrowDataType::UInt16),
        "uint32" => Some(ArrowDataType::UInt32),
        "uint64" => Some(ArrowDataType::UInt64),
        "float16" => Some(ArrowDataType::Float16),
        "float32" => Some(ArrowDataType::Float32),
        "float64" => Some(ArrowDataType::Float64),
        _ => None,
    }
}

fn plain_type(name: &str) -> Option<ArrowDataType> {
    match name {
        "null" => Some(ArrowDataType::Null),
        "bool" => Some(ArrowDataType::Boolean),
        "date32" => Some(ArrowDataType::Date32),
        "date64" => Some(ArrowDataType::Date64),
        "binary" => Some(ArrowDataType::Binary),
        "large_binary" => Some(ArrowDataType::LargeBinary),
        "utf8" => Some(ArrowDataType::Utf8),
        "large_utf8" => Some(ArrowDataType::LargeUtf8),
        "binary_view" => Some(ArrowDataType::BinaryView),
        "utf8_view" => Some(ArrowDataType::Utf8View),
        _ => number_type(name),
    }
}

fn time_unit(word: &str) -> Option<TimeUnit> {
    match word {
        "s" => Some(TimeUnit::Second),
        "ms" => Some(TimeUnit::Millisecond),
        "us" => Some(TimeUnit::Microsecond),
        "ns" => Some(TimeUnit::Nanosecond),
        _ => None,
    }
}

fn interval(word: &str) -> Option<ArrowDataType> {
    match word {
        "ym" => Some(ArrowDataType::Interval(IntervalUnit::YearMonth)),
        "dt" => Some(ArrowDataType::Interval(IntervalUnit::DayTime)),
        "mdn" => Some(ArrowDataType::Interval(IntervalUnit::MonthDayNano)),
        _ => None,
    }
}

/// A type of times of a unit.
fn timed_type(name: &str, unit: &str) -> Option<ArrowDataType> {
    let unit = time_unit(unit)?;
    match name {
        "time32" => Some(ArrowDataType::Time32(unit)),
        "time64" => Some(ArrowDataType::Time64(unit)),
        "duration" => Some(ArrowDataType::Duration(unit)),
        _ => None,
    }
}

/// A unit, with a zone behind it or none.
fn timestamp(answer: &Answer, word: &str) -> Option<ArrowDataType> {
    match word.split_once(',') {
        Some((unit, zone)) => {
            let unit = time_unit(unit)?;
            Some(ArrowDataType::Timestamp(unit, Some(answer.text(zone))))
        }
        None => Some(ArrowDataType::Timestamp(time_unit(word)?, None)),
    }
}

/// A decimal of a precision and a scale.
fn decimal(answer: &Answer, word: &str, is_wide: bool) -> ArrowDataType {
    let (precision, scale) = word.split_once(',').unwrap_or(("", ""));
    let (precision, scale) = (answer.count(precision), answer.count(scale));
    if is_wide {
        ArrowDataType::Decimal256(precision, scale)
    } else {
        ArrowDataType::Decimal(precision, scale)
    }
}

/// A type with a parameter that is no type.
fn sized_type(answer: &Answer, name: &str, word: &str) -> Option<ArrowDataType> {
    match name {
        "fixed_binary" => Some(ArrowDataType::FixedSizeBinary(answer.count(word))),
        "decimal" => Some(decimal(answer, word, false)),
        "decimal256" => Some(decimal(answer, word, true)),
        "timestamp" => timestamp(answer, word),
        "interval" => interval(word),
        _ => timed_type(name, word),
    }
}

/// The field of a type that was read.
fn field(answer: &Answer, named: Named) -> Field {
    let name = answer.text(named.name);
    Field::new(answer.alloc(), name, named.dtype, named.is_nullable)
}

/// So many types that stand behind, as fields.
pub(crate) fn children(answer: &Answer, types: &mut Types, count: usize) -> Vec<Field> {
    let mut fields = Vec::new(answer.alloc());
    for _ in 0..count {
        match types.pop() {
            Some(named) => answer.done(fields.push(field(answer, named))),
            None => {
                answer.refuse();
                break;
            }
        }
    }
    fields
}

/// A type of keys.
fn index_type(word: &str) -> Option<IntegerType> {
    match word {
        "int8" => Some(IntegerType::Int8),
        "int16" => Some(IntegerType::Int16),
        "int32" => Some(IntegerType::Int32),
        "int64" => Some(IntegerType::Int64),
        "uint8" => Some(IntegerType::UInt8),
        "uint16" => Some(IntegerType::UInt16),
        "uint32" => Some(IntegerType::UInt32),
        "uint64" => Some(IntegerType::UInt64),
        _ => None,
    }
}

fn ids(answer: &Answer, word: &str) -> Vec<i32> {
    let mut ids = Vec::new(answer.alloc());
    for id in &numbers(answer, word) {
        match i32::try_from(*id) {
            Ok(id) => answer.done(ids.push(id)),
            Err(_) => answer.refuse(),
        }
    }
    ids
}

/// `dense:5,7` over as many children as there are ids.
fn union(answer: &Answer, word: &str, types: &mut Types) -> Option<ArrowDataType> {
    let (mode, listed) = word.split_once(':').unwrap_or(("", ""));
    let ids = ids(answer, listed);
    let union = UnionType {
        fields: children(answer, types, ids.len()),
        ids: Some(ids),
        mode: UnionMode::sparse(mode == "sparse"),
    };
    match answer.value(Box::new(answer.alloc(), union)) {
        Some(union) => Some(ArrowDataType::Union(union)),
        None => None,
    }
}

/// The type of the keys, and `ordered` behind it or not, over the values.
fn dictionary(answer: &Answer, word: &str, values: ArrowDataType) -> Option<ArrowDataType> {
    let (index, order) = word.split_once(',').unwrap_or((word, ""));
    match (
        index_type(index),
        answer.value(Box::new(answer.alloc(), values)),
    ) {
        (Some(index), Some(values)) => {
            Some(ArrowDataType::Dictionary(index, values, order == "ordered"))
        }
        _ => None,
    }
}

/// A name, and what else is said of it or nothing.
fn extension(answer: &Answer, word: &str, inner: ArrowDataType) -> Option<ArrowDataType> {
    let (name, metadata) = match word.split_once(',') {
        Some((name, said)) => (name, Some(answer.text(said))),
        None => (word, None),
    };
    let extension = ExtensionType {
        name: answer.text(name),
        inner,
        metadata,
    };
    match answer.value(Box::new(answer.alloc(), extension)) {
        Some(extension) => Some(ArrowDataType::Extension(extension)),
        None => None,
    }
}

/// A list of the type behind it.
fn list(answer: &Answer, name: &str, word: &str, child: Named) -> Option<ArrowDataType> {
    let child = field(answer, child);
    let Some(child) = answer.value(Box::new(answer.alloc(), child)) else {
        return None;
    };
    match name {
        "list" => Some(ArrowDataType::List(child)),
        "large_list" => Some(ArrowDataType::LargeList(child)),
        "map" => Some(ArrowDataType::Map(child, word == "sorted")),
        _ => Some(ArrowDataType::FixedSizeList(child, answer.count(word))),
    }
}

/// A type over the one that stands right behind.
fn outer_type(answer: &Answer, name: &str, word: &str, types: &mut Types) -> Option<ArrowDataType> {
    match (name, types.pop()) {
        ("dictionary", Some(inner)) => dictionary(answer, word, inner.dtype),
        ("extension", Some(inner)) => extension(answer, word, inner.dtype),
        (_, Some(inner)) => list(answer, name, word, inner),
        _ => None,
    }
}

/// Whether a type of this name stands over one other.
fn is_outer(name: &str) -> bool {
    matches!(
        name,
        "list" | "large_list" | "fixed_list" | "map" | "dictionary" | "extension"
    )
}

/// A type that has parameters.
fn made_type(answer: &Answer, name: &str, word: &str, types: &mut Types) -> Option<ArrowDataType> {
    if is_outer(name) {
        return outer_type(answer, name, word, types);
    }
    match name {
        "struct" => Some(ArrowDataType::Struct(children(answer, types, answer.count(word)))),
        "union" => union(answer, word, types),
        _ => sized_type(answer, name, word),
    }
}

/// The type of a word, over those that stand behind it.
fn read_word<'a>(answer: &Answer, word: &'a str, types: &mut Types<'a>) -> Named<'a> {
    let (name, rest) = word.split_once('=').unwrap_or(("", word));
    let (rest, is_nullable) = match rest.strip_suffix('!') {
        Some(rest) => (rest, false),
        None => (rest, true),
    };
    let (kind, parameter) = parts(rest);
    let dtype = match plain_type(kind) {
        Some(dtype) => Some(dtype),
        None => made_type(answer, kind, parameter, types),
    };
    Named {
        name,
        dtype: known(answer, dtype),
        is_nullable,
    }
}

/// A type, or that of nulls where the words say none.
fn known(answer: &Answer, dtype: Option<ArrowDataType>) -> ArrowDataType {
    match dtype {
        Some(dtype) => dtype,
        None => {
            answer.refuse();
            ArrowDataType::Null
        }
    }
}

/// The types that no other word is in front of. Words are read from the last one on, so that children stand before what is over them.
pub(crate) fn types_of<'a>(answer: &Answer, words: &'a [&'a str]) -> Types<'a> {
    let mut types = Vec::new(answer.alloc());
    for word in words.iter().rev() {
        let named = read_word(answer, *word, &mut types);
        answer.done(types.push(named));
    }
    types
}

/// The type of these words, or that of nulls.
pub fn type_of(answer: &Answer, words: &[&str]) -> ArrowDataType {
    match types_of(answer, words).pop() {
        Some(named) => named.dtype,
        None => known(answer, None),
    }
}
