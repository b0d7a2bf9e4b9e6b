//! What words may ask for.
ghost use Rattle.std.specs.Prelude.{◌<◌, length};

use filter_types::Filter;

/// stream [--columns LIST] [--limit N] [--raw] [NAME]
#[derive(Debug, Drop, PartialEq, Eq)]
pub struct Stream<'a> {
    /// The columns, or all of them.
    pub columns: Option<Vec<usize>>,
    /// The greatest number of rows, or all of them.
    pub limit: Option<usize>,
    /// Whether the stream is put as it is, and not as hex text.
    pub raw: bool,
    /// The name of the file, or the input.
    pub name: Option<&'a str>,
}

/// cat [--raw] NAME..
#[derive(Debug, Drop, PartialEq, Eq)]
pub struct Cat<'a> {
    /// Whether the stream is put as it is, and not as hex text.
    pub raw: bool,
    /// The names of the files, in order.
    pub names: Vec<&'a str>,
    ghost some: { 0 < length names.items },
}

/// file [--raw] [NAME]
#[derive(Debug, Drop, PartialEq, Eq)]
pub struct File<'a> {
    /// Whether the file is put as it is, and not as hex text.
    pub raw: bool,
    /// The name of the stream, or the input.
    pub name: Option<&'a str>,
}

/// scan FILTER [--columns LIST] [--raw] [NAME]
#[derive(Debug, Drop, PartialEq, Eq)]
pub struct Scan<'a> {
    /// Which rows.
    pub filter: Filter,
    /// The columns, or all of them.
    pub columns: Option<Vec<usize>>,
    /// Whether the stream is put as it is, and not as hex text.
    pub raw: bool,
    /// The name of the file, or the input.
    pub name: Option<&'a str>,
}

/// csv [--columns LIST] [--limit N] [NAME]
#[derive(Debug, Drop, PartialEq, Eq)]
pub struct Csv<'a> {
    /// The columns, or all of them.
    pub columns: Option<Vec<usize>>,
    /// The greatest number of rows, or all of them.
    pub limit: Option<usize>,
    /// The name of the file, or the input.
    pub name: Option<&'a str>,
}

/// log [--append] [--raw] TARGET
#[derive(Debug, Drop, PartialEq, Eq)]
pub struct Log<'a> {
    /// Whether the stream that the input has as hex text is appended, and not the log written.
    pub appends: bool,
    /// Whether the stream is put as it is, and not as hex text.
    pub raw: bool,
    /// The name of the log.
    pub target: &'a str,
}

/// What words ask for.
#[derive(Debug, Drop, PartialEq, Eq)]
pub enum Request<'a> {
    /// A stream of a file.
    Stream(Stream<'a>),
    /// The text of a file's schema, by the name of the file, or of the input.
    Schema(Option<&'a str>),
    /// The number of a file's rows, likewise.
    Rows(Option<&'a str>),
    /// The batches of the stream that the input has as hex text, at the end of the file of this name.
    Append(&'a str),
    /// A file that is made from this number, as a stream that is read back.
    Gen(u64),
    /// The files of several names as one stream.
    Cat(Cat<'a>),
    /// A stream as a file.
    File(File<'a>),
    /// The rows of a file that a filter passes, as a stream.
    Scan(Scan<'a>),
    /// The rows of a file as CSV.
    Csv(Csv<'a>),
    /// The table of a log, or batches at its end.
    Log(Log<'a>),
}
