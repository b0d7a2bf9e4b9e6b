//! Files of cases, run call by call.
use case_types::{Answer, Fault};
use std::alloc::{AllocError, Global};
use std::{env, fs};

/// What the calls of one case leave to the next ones, and how they are answered.
pub trait Case: Drop {
    /// Nothing yet.
    fn new(alloc: Global) -> Self;

    /// A case begins: what the calls of the one before left is forgotten.
    fn forget(&mut self, alloc: Global);

    /// Makes the call of these words, of which the first is its name, and tells what it gives.
    fn answer(&mut self, rt: &HostRuntime, answer: &Answer, words: &[&str]);
}

/// A call as it is read: its line, its words, and what the file says that its answer is.
#[derive(Drop)]
struct Call {
    line: usize,
    words: String,
    wanted: String,
}

/// How many calls a file has, how many of all files were answered otherwise, and what these were answered.
#[derive(Drop)]
struct Found {
    calls: usize,
    others: usize,
    report: String,
}

/// An answer, or what stands in its place.
pub fn text_of(alloc: Global, answer: Answer) -> Result<String, AllocError> {
    match answer.into_text() {
        Ok(text) => Ok(text),
        Err(Fault::Memory) => Err(AllocError),
        Err(fault) => format!(in alloc; "{fault}"),
    }
}

fn answer_of<C: Case>(rt: &HostRuntime, case: &mut C, line: &str) -> Result<String, AllocError> {
    let words: Vec<&str> = line.split_whitespace().collect(rt.alloc())?;
    let answer = Answer::new(rt.alloc());
    case.answer(rt, &answer, words.as_slice());
    text_of(rt.alloc(), answer)
}

impl Found {
    fn note(&mut self, alloc: Global, line: usize, answered: &str) -> Result<(), AllocError> {
        self.others = self.others.wrapping_add(1);
        let text = format!(in alloc; "line {line}:\n{answered}\n")?;
        self.report.push_str(&text)
    }
}

/// Makes the call of the lines before, and compares its answer with what is wanted.
fn judge<C: Case>(
    rt: &HostRuntime,
    case: &mut C,
    found: &mut Found,
    call: &mut Call,
) -> Result<(), AllocError> {
    if call.words.is_empty() {
        return Ok(());
    }
    found.calls = found.calls.wrapping_add(1);
    let answered = answer_of(rt, case, &call.words)?;
    if answered != call.wanted {
        found.note(rt.alloc(), call.line, &answered)?;
    }
    call.words.clear();
    call.wanted.clear();
    Ok(())
}

impl Call {
    /// The line of a call, or of its front.
    fn begin(&mut self, line: usize, text: &str) -> Result<(), AllocError> {
        self.line = line;
        let (words, wanted) = text.split_once(" =>").unwrap_or((text, ""));
        self.words.push_str(words)?;
        self.wanted.push_str(wanted.trim_start())
    }

    /// A line of an answer of several lines.
    fn want(&mut self, wanted: &str) -> Result<(), AllocError> {
        if !self.wanted.is_empty() {
            self.wanted.push_str("\n")?;
        }
        self.wanted.push_str(wanted)
    }

    /// More words of the call.
    fn go_on(&mut self, words: &str) -> Result<(), AllocError> {
        self.words.push_str(" ")?;
        self.words.push_str(words)
    }
}

/// One line of a file.
fn take<C: Case>(
    rt: &HostRuntime,
    case: &mut C,
    found: &mut Found,
    call: &mut Call,
    number: usize,
    line: &str,
) -> Result<(), AllocError> {
    if let Some(wanted) = line.strip_prefix("= ") {
        return call.want(wanted);
    }
    if let Some(words) = line.strip_prefix("+ ") {
        return call.go_on(words);
    }
    if line.is_empty() || line.starts_with('#') {
        return Ok(());
    }
    judge(rt, case, found, call)?;
    if line.starts_with("== ") {
        case.forget(rt.alloc());
        return Ok(());
    }
    call.begin(number, line)
}

/// The lines of a file.
fn take_all<C: Case>(
    rt: &HostRuntime,
    case: &mut C,
    found: &mut Found,
    text: &str,
) -> Result<(), AllocError> {
    let mut call = Call {
        line: 0,
        words: String::new(rt.alloc()),
        wanted: String::new(rt.alloc()),
    };
    for (number, line) in text.lines().enumerate() {
        take(rt, case, found, &mut call, number.wrapping_add(1), line)?;
    }
    judge(rt, case, found, &mut call)?;
    case.forget(rt.alloc());
    Ok(())
}

/// What was found in a file is told, and forgotten.
fn tell(rt: &HostRuntime, found: &mut Found, name: &str) -> Result<(), &'static str> {
    let (calls, report) = (found.calls, found.report.as_str());
    if println!(rt; "{name}: {calls} calls\n{report}").is_err() {
        return Err("nothing can be printed");
    }
    found.calls = 0;
    found.report.clear();
    Ok(())
}

/// Runs a file of the current folder.
fn run_file<C: Case>(
    rt: &HostRuntime,
    case: &mut C,
    found: &mut Found,
    name: &str,
) -> Result<(), &'static str> {
    let Ok(text) = fs::read_to_string(rt, name) else {
        return Err("a file cannot be read");
    };
    if take_all(rt, case, found, &text).is_err() {
        return Err("no memory");
    }
    tell(rt, found, name)
}

/// The folder that a name says, or no character.
fn folder_of(name: &str) -> &str {
    match name.split_once('/') {
        Some((folder, _)) => folder,
        None => "",
    }
}

/// Runs the files of a folder one after another, and tells how many calls were answered otherwise than they say.
fn run_named<C: Case>(rt: &HostRuntime, folder: &str) -> Result<usize, &'static str> {
    let Ok(arguments) = env::args(rt) else {
        return Err("no words");
    };
    let Ok(names) = arguments.skip(1).collect::<Vec<String>>(rt.alloc()) else {
        return Err("no memory");
    };
    let mut case = C::new(rt.alloc());
    let mut found = Found {
        calls: 0,
        others: 0,
        report: String::new(rt.alloc()),
    };
    for name in &names {
        if folder_of(name) == folder {
            run_file(rt, &mut case, &mut found, name)?;
        }
    }
    Ok(found.others)
}

/// Runs the cases of those files that the program's words name and that stand in a folder, or where its name has no character in none.
/// What is answered otherwise than a file says is printed with its line, and how many calls each file has. It tells whether all was
/// answered as the files say.
pub fn run_files<C: Case>(rt: &HostRuntime, folder: &str) -> bool {
    match run_named::<C>(rt, folder) {
        Ok(others) => others == 0,
        Err(reason) => {
            let _ = eprintln!(rt; "{reason}");
            false
        }
    }
}
