// The files of a command, by their roles, as an explanation speaks of them.
use crate::comment::Comment;
use command_line::{Asked, PlanSource};
use host_io::Role;

/// A line that begins with the name of the role's file, where the command names one, and with what that is.
pub fn file_line(asked: &Asked<'_>, role: Role) -> Comment {
    match file_of(asked, role) {
        Some(file) => Comment::new().name(file).text(", ").text(role_name(role)),
        None => Comment::new().text(role_name(role)),
    }
}

// The name of the file that has this role in the command, if it names one.
fn file_of<'a>(asked: &Asked<'a>, role: Role) -> Option<&'a str> {
    match role {
        Role::Cnf => formula_of(asked),
        Role::Order => order_of(asked),
        Role::Buckets | Role::Schedule => plan_file(asked, role),
        Role::ProofIn => proof_of(asked),
        Role::Cubes => match asked {
            Asked::Ask(task) => Some(task.cubes),
            _ => None,
        },
        Role::ProofOut => written_proof(asked),
        Role::Made => made_of(asked),
        Role::Out | Role::Err => None,
    }
}

fn formula_of<'a>(asked: &Asked<'a>) -> Option<&'a str> {
    match asked {
        Asked::Solve(task) => Some(task.files.formula),
        Asked::Check(task) => Some(task.files.formula),
        Asked::Ask(task) => Some(task.files.formula),
        Asked::Order(task) => Some(task.formula),
        Asked::Convert(task) => Some(task.files.formula),
        Asked::Trim(task) => Some(task.files.formula),
        Asked::Bench(_) | Asked::Make(_) => None,
    }
}

fn order_of<'a>(asked: &Asked<'a>) -> Option<&'a str> {
    match asked {
        Asked::Solve(task) => task.order,
        Asked::Ask(task) => task.order,
        _ => None,
    }
}

// The buckets' order, or the schedule.
fn plan_file<'a>(asked: &Asked<'a>, role: Role) -> Option<&'a str> {
    match (asked, role) {
        (Asked::Solve(task), Role::Buckets) => match task.plan {
            PlanSource::Buckets(file) => Some(file),
            _ => None,
        },
        (Asked::Solve(task), Role::Schedule) => match task.plan {
            PlanSource::Schedule(file) => Some(file),
            _ => None,
        },
        _ => None,
    }
}

fn proof_of<'a>(asked: &Asked<'a>) -> Option<&'a str> {
    match asked {
        Asked::Check(task) => Some(task.files.proof),
        Asked::Convert(task) => Some(task.files.proof),
        Asked::Trim(task) => Some(task.files.proof),
        _ => None,
    }
}

fn written_proof<'a>(asked: &Asked<'a>) -> Option<&'a str> {
    match asked {
        Asked::Solve(task) => Some(task.files.proof),
        Asked::Ask(task) => Some(task.files.proof),
        Asked::Bench(task) => Some(task.proof),
        Asked::Convert(task) => Some(task.out),
        Asked::Trim(task) => Some(task.out),
        _ => None,
    }
}

fn made_of<'a>(asked: &Asked<'a>) -> Option<&'a str> {
    match asked {
        Asked::Make(task) => Some(task.file),
        Asked::Order(task) => Some(task.out),
        Asked::Trim(task) => task.core,
        _ => None,
    }
}

// What a file of this role is.
fn role_name(role: Role) -> &'static str {
    match role {
        Role::Cnf => "the formula",
        Role::Order => "the order",
        Role::Buckets => "the buckets' order",
        Role::Schedule => "the schedule",
        Role::ProofIn => "the proof",
        Role::Cubes => "the cubes",
        Role::ProofOut => "the proof that is written",
        Role::Made => "the text that is written",
        Role::Out => "standard output",
        Role::Err => "standard error",
    }
}
