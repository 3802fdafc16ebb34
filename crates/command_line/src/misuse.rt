// Why a command line is invalid: the parser's own sentence, or which of this program's tests it fails. Nothing is promised of it: it is
// for a text that a user reads.
use crate::board::{GREATEST_SIZE, LEAST_SIZE};
use crate::format::format_named;
use crate::limits::{GREATEST_CACHE, GREATEST_IDS, GREATEST_NODES, LEAST_CACHE, number_within};
use crate::method::method_named;
use crate::mode::flag_among;
use crate::parser::parser;
use crate::part::part_named;
use crate::plan::plan_named;
use clap::ArgMatches;
use std::alloc::Global;

/// What is wrong with a command line.
#[derive(Drop)]
pub enum Misuse<'a> {
    /// What the parser says.
    Parsed(String),
    /// This flag of a command stands in front of it.
    InFront(&'a str),
    /// No command is among the words.
    NoCommand,
    /// Two files have this name.
    SameFile(&'a str),
    /// An argument has this value, where another one is wanted.
    Value {
        shown: &'static str,
        value: &'a str,
        wanted: &'static str,
    },
    /// Arguments don't go together.
    Together(&'static str),
}

// The arguments that name files.
const FILES: [&str; 9] = [
    "FILE", "PROOF", "proof", "order", "schedule", "buckets", "cubes", "out", "core",
];

// The arguments whose value is a number or one of a few words, as a user sees them, and what is wanted there.
const VALUES: [(&str, &str, &str); 9] = [
    ("max-nodes", "--max-nodes", "a number from 0 to 100000000"),
    (
        "max-ids",
        "--max-ids",
        "a number from 0 to 1000000000000000",
    ),
    ("cache", "--cache", "a number from 1 to 100000000"),
    ("SIZE", "the size", "a number from 2 to 100"),
    ("KIND", "the kind", "the word board"),
    ("plan", "--plan", "bucket or conjoin"),
    ("format", "--format", "lrat or drat"),
    ("by", "--by", "degree, cardinality, levels or profile"),
    ("part", "--part", "cnf, order, schedule or sets"),
];

/// Why the command line is invalid, as far as that can be told; None where it is valid or memory runs out.
pub fn misuse_of(alloc: Global, words: &[String]) -> Option<Misuse<'_>> {
    match parser(alloc).ok()?.try_get_matches_from(words) {
        Ok(matches) => misuse_in(&matches),
        Err(error) => match flag_in_front(words) {
            Some(flag) => Some(Misuse::InFront(flag)),
            None => Some(Misuse::Parsed(error.to_string(alloc).ok()?)),
        },
    }
}

// A flag that all commands have, if it is the first word behind the program's name.
fn flag_in_front(words: &[String]) -> Option<&str> {
    if words.len() < 2 {
        return None;
    }
    let first = words[1].as_str();
    if first == "--explain" || first == "--progress" {
        Some(first)
    } else {
        None
    }
}

fn misuse_in<'a>(matches: &ArgMatches<'a>) -> Option<Misuse<'a>> {
    match matches.subcommand() {
        None => Some(Misuse::NoCommand),
        Some((name, values)) => misuse_among(name, values),
    }
}

// The values of the command of this name.
fn misuse_among<'a>(name: &str, values: &ArgMatches<'a>) -> Option<Misuse<'a>> {
    if let Some(file) = same_file(values) {
        return Some(Misuse::SameFile(file));
    }
    if let Some(wrong) = wrong_value(values) {
        return Some(wrong);
    }
    match wrong_pair(name, values) {
        Some(sentence) => Some(Misuse::Together(sentence)),
        None => None,
    }
}

// A file that is named twice.
fn same_file<'a>(values: &ArgMatches<'a>) -> Option<&'a str> {
    for place in 0..FILES.len() {
        if let Some(file) = values.get_str(FILES[place]) {
            if is_among(values, &FILES[..place], file) {
                return Some(file);
            }
        }
    }
    None
}

// Whether one of these arguments names this file.
fn is_among(values: &ArgMatches<'_>, names: &[&str], file: &str) -> bool {
    for name in names {
        if values.get_str(name) == Some(file) {
            return true;
        }
    }
    false
}

// The first argument whose value isn't one that it may have.
fn wrong_value<'a>(values: &ArgMatches<'a>) -> Option<Misuse<'a>> {
    for place in 0..VALUES.len() {
        let (name, shown, wanted) = VALUES[place];
        if let Some(value) = values.get_str(name) {
            if !(is_right_number(name, value) || is_right_word(name, value)) {
                return Some(Misuse::Value {
                    shown,
                    value,
                    wanted,
                });
            }
        }
    }
    None
}

fn is_right_number(name: &str, value: &str) -> bool {
    let number = if name == "max-nodes" {
        number_within(value, 0, GREATEST_NODES)
    } else if name == "max-ids" {
        number_within(value, 0, GREATEST_IDS)
    } else if name == "cache" {
        number_within(value, LEAST_CACHE, GREATEST_CACHE)
    } else if name == "SIZE" {
        number_within(value, LEAST_SIZE, GREATEST_SIZE)
    } else {
        None
    };
    number.is_some()
}

fn is_right_word(name: &str, value: &str) -> bool {
    if name == "KIND" {
        value == "board"
    } else if name == "plan" {
        plan_named(value).is_some()
    } else if name == "format" {
        format_named(value).is_some()
    } else if name == "by" {
        method_named(value).is_some()
    } else if name == "part" {
        part_named(value).is_some()
    } else {
        false
    }
}

// Which arguments don't go together, in a sentence.
fn wrong_pair(name: &str, values: &ArgMatches<'_>) -> Option<&'static str> {
    if gives_plan_twice(values) {
        return Some("only one of --plan, --schedule, --buckets and --search may be given");
    }
    if flag_among(values, "search") && flag_among(values, "parity") {
        return Some("--parity doesn't go with --search");
    }
    if name == "check"
        && flag_among(values, "any-order")
        && values.get_str("format") != Some("drat")
    {
        return Some("--any-order needs --format drat");
    }
    None
}

fn gives_plan_twice(values: &ArgMatches<'_>) -> bool {
    let by_name = values.get_str("plan").is_some();
    let by_schedule = values.get_str("schedule").is_some();
    let by_buckets = values.get_str("buckets").is_some();
    let by_search = flag_among(values, "search");
    by_name && (by_schedule || by_buckets || by_search)
        || by_schedule && (by_buckets || by_search)
        || by_buckets && by_search
}
