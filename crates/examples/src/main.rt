//! Runs the example models, in order, then runs or checks the short sources of the collections, and shows of each its name,
//! what it writes and its status. The collections `manual`, `models` and `manual_rules` are made from the pages of the manual and from
//! the folder of models at the top.
//!
//! A collection is a file of `data/` with a first line that says what is in it, and then for each source a line
//! `== NAME` and the lines of the source. Lines behind `>> ` are the lines of its input, lines behind `>- ` the options of its run. A line behind
//! `>*N ` stands N times in the source.
#![tactic(auto)]

use sim_driver::{Status, simula};
use sim_ends::{Output, RealFiles};
use sim_ports::{MemFiles, MemSource};
use std::alloc::{AllocError, Global};
use std::{fs, io};

// The models of data/, in the order in which they are shown, each with the file that it reads as its input, if it reads any.
const MODELS: [(&str, Option<&str>); 15] = [
    ("first.sim", None),
    ("arithmetic.sim", None),
    ("fields.sim", None),
    ("long_lines.sim", None),
    ("separators.sim", None),
    ("overflow.sim", None),
    ("wide_field.sim", None),
    ("undeclared.sim", None),
    ("squares.sim", None),
    ("copy.sim", Some("verse.in")),
    ("count.sim", Some("verse.in")),
    ("reverse.sim", Some("verse.in")),
    ("caesar.sim", Some("verse.in")),
    ("histogram.sim", Some("numbers.in")),
    ("sums.sim", Some("sums.in")),
];

// The collections of data/ whose sources are run, in the order in which they are shown.
const COLLECTIONS: [&str; 16] = [
    "messages.cases",
    "programs.cases",
    "tokens.cases",
    "grammar.cases",
    "whole_language.cases",
    "texts.cases",
    "numbers.cases",
    "objects.cases",
    "sets.cases",
    "simulation.cases",
    "virtuals.cases",
    "keeping.cases",
    "names.cases",
    "formals.cases",
    "manual.cases",
    "models.cases",
];

// The collections of data/ whose sources are checked, not run. They come last.
const CHECKED: [&str; 3] = [
    "static_rules.cases",
    "class_rules.cases",
    "manual_rules.cases",
];

fn main(rt: HostRuntime) -> io::Result<()> {
    for (name, input) in MODELS {
        println!(rt; "== {name}")?;
        let status = run_model(&rt, name, input)?;
        show_status(&rt, status)?;
    }
    for name in COLLECTIONS {
        show_cases(&rt, "run", name)?;
    }
    for name in CHECKED {
        show_cases(&rt, "check", name)?;
    }
    Ok(())
}

// Shows what a command does with each source of a collection.
fn show_cases(rt: &HostRuntime, command: &str, name: &str) -> io::Result<()> {
    let text = fs::read_to_string(rt, name)?;
    for case in cases_of(rt.alloc(), command, text.as_str())? {
        println!(rt; "== {}", case.name)?;
        let status = answer_case(rt, case)?;
        show_status(rt, status)?;
    }
    Ok(())
}

fn show_status(rt: &HostRuntime, status: Status) -> io::Result<()> {
    let number = status.number();
    println!(rt; "status {number}")
}

// A source of a collection, with the lines of its input.
#[derive(Drop)]
struct Case {
    // The command, and its options.
    words: Vec<String>,
    name: String,
    source: Vec<u8>,
    input: Vec<u8>,
}

// The sources of a collection, for a command.
fn cases_of(alloc: Global, command: &str, text: &str) -> Result<Vec<Case>, AllocError> {
    let mut cases: Vec<Case> = Vec::new(alloc);
    for line in text.lines() {
        if let Some(name) = line.strip_prefix("== ") {
            cases.push(Case {
                words: vec![in alloc; String::from_str(alloc, command)?]?,
                name: String::from_str(alloc, name)?,
                source: Vec::new(alloc),
                input: Vec::new(alloc),
            })?;
        } else if let Some(case) = cases.last_mut() {
            if let Some(input) = line.strip_prefix(">> ") {
                case.input.extend_from_slice(input.as_bytes())?;
                case.input.push(b'\n')?;
            } else if let Some(option) = line.strip_prefix(">- ") {
                case.words.push(String::from_str(alloc, option)?)?;
            } else {
                let (times, line) = repeated(line);
                for _ in 0..times {
                    case.source.extend_from_slice(line.as_bytes())?;
                    case.source.push(b'\n')?;
                }
            }
        }
    }
    Ok(cases)
}

// How many times a line of a collection stands in its source, and the line there.
fn repeated(line: &str) -> (u32, &str) {
    if let Some(behind) = line.strip_prefix(">*")
        && let Some((count, line)) = behind.split_once(" ")
        && let Ok(times) = count.parse::<u32>()
    {
        return (times, line);
    }
    (1, line)
}

// The bytes of the input of a model.
fn input_of(rt: &HostRuntime, input: Option<&str>) -> io::Result<Vec<u8>> {
    match input {
        Some(name) => fs::read(rt, name),
        None => Ok(Vec::new(rt.alloc())),
    }
}

// Runs the model of this name as the command line would, with its line for the diagnostic output in its output.
fn run_model(rt: &HostRuntime, name: &str, input: Option<&str>) -> io::Result<Status> {
    let alloc = rt.alloc();
    let words = vec![in alloc;
        String::from_str(alloc, "run")?,
        String::from_str(alloc, name)?,
    ]?;
    let bytes = input_of(rt, input)?;
    let Ok(mut source) = MemSource::new(alloc, &bytes, &[]) else {
        return Ok(Status::Memory);
    };
    Ok(simula(
        alloc,
        &words,
        &mut RealFiles::new(rt),
        &mut source,
        &mut Output::new(rt.stdout()),
        &mut Output::new(rt.stdout()),
    ))
}

// The same of a source that stands in memory, with its command.
fn answer_case(rt: &HostRuntime, case: Case) -> io::Result<Status> {
    let alloc = rt.alloc();
    let Case {
        mut words,
        name,
        source,
        input,
    } = case;
    words.push(name.clone()?)?;
    let Ok(mut files) = MemFiles::new(alloc, &[(name, source)], &[]) else {
        return Ok(Status::Memory);
    };
    let Ok(mut given) = MemSource::new(alloc, &input, &[]) else {
        return Ok(Status::Memory);
    };
    Ok(simula(
        alloc,
        &words,
        &mut files,
        &mut given,
        &mut Output::new(rt.stdout()),
        &mut Output::new(rt.stdout()),
    ))
}
