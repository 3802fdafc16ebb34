// Why a run ended as it did: lines of comment on standard error, in front of the error's text. What they say is no promise.
ghost use Rattle.std.specs.Prelude.{◌≡◌, map, true};
ghost use Rattle.std.specs.String.{string_bytes};
ghost use Rattle.host_io.specs.declared.role.Role.TheVariants.{Err as ErrRole};
ghost use Rattle.host_io.specs.Files.{Kept};
ghost use Rattle.solver_cli.specs.Explained.{has_reasons, is_explained};
ghost use Rattle.solver_cli.specs.Progress.{IsTold};

use crate::comment::Comment;
use crate::excerpt::Excerpt;
use crate::explanation::Explanation;
use crate::failures::{memory_reasons, read_reasons, write_reasons};
use crate::file_names::file_line;
use crate::kinds::{cnf_reason, cube_reason, order_reason, plan_reason, proof_reason};
use crate::misused::misuse_reasons;
use crate::status::{Status, Why};
use crate::telling::put_line;
use command_line::{Asked, ProofFormat, Refusal, asks_to_explain, read_words};
use host_io::{Host, Role};
use lrat_rules::Reason;
use std::alloc::Global;

/// Explains on standard error why the run ends so, where the words ask for it and there is something to explain. That this could not be
/// written ends no run otherwise. The lines are made before the first is written.
pub fn explain<H: Host>(
    alloc: Global,
    words: &[String],
    host: &mut H,
    status: Status,
    excerpt: &Excerpt,
)
    ensures told { IsTold (is_explained (map string_bytes words.now) status) H.tells (H.channel host.old ErrRole)
        (H.channel host.new ErrRole) }
    ensures kept { Kept ErrRole (H.channel host.old ErrRole).name (H.channel host.old) (H.channel host.new) (H.files host.old)
        (H.files host.new) }
{
    let is_asked = is_explained(words, status);
    if is_asked {
        let reasons = reasons_of(alloc, words, &*host, status, excerpt);
        put_reasons(host, &reasons);
    }
}

fn is_explained(words: &[String], status: Status) -> bool
    ensures { result ≡ is_explained (map string_bytes words.now) status }
{
    has_reasons(status) && asks_to_explain(words)
}

// Whether a run that ends so didn't come to what it was asked for.
fn has_reasons(status: Status) -> bool
    ensures { result ≡ has_reasons status }
{
    match status {
        Status::Sat
        | Status::Unsat
        | Status::Answered
        | Status::Verified
        | Status::Done
        | Status::Help => false,
        Status::Unknown(_)
        | Status::NotVerified(..)
        | Status::Usage
        | Status::CnfRefused(..)
        | Status::OrderRefused(..)
        | Status::BucketsRefused(..)
        | Status::PlanRefused(..)
        | Status::CubeRefused(..)
        | Status::TooLong(_)
        | Status::ReadFault
        | Status::WriteFault
        | Status::OutOfMemory => true,
    }
}

fn put_reasons<H: Host>(host: &mut H, reasons: &Explanation)
    ensures told { IsTold true H.tells (H.channel host.old ErrRole) (H.channel host.new ErrRole) }
    ensures kept { Kept ErrRole (H.channel host.old ErrRole).name (H.channel host.old) (H.channel host.new) (H.files host.old)
        (H.files host.new) }
{
    let _written = put_line(host, reasons.bytes());
}

// The words are read once more, for the names of the files.
fn reasons_of<H: Host>(
    alloc: Global,
    words: &[String],
    host: &H,
    status: Status,
    excerpt: &Excerpt,
) -> Explanation {
    match read_words(alloc, words) {
        Ok(asked) => reasons_among(&asked, host, status, excerpt),
        Err(Refusal::Usage) => misuse_reasons(alloc, words),
        Err(Refusal::Help(_)) | Err(Refusal::OutOfMemory) => {
            Explanation::new().text("memory ran out while the command line was read")
        }
    }
}

fn reasons_among<H: Host>(
    asked: &Asked<'_>,
    host: &H,
    status: Status,
    excerpt: &Excerpt,
) -> Explanation {
    match status {
        Status::Unknown(why) => limit_reasons(why),
        Status::NotVerified(line, reason) => proof_reasons(asked, line, reason, excerpt),
        Status::TooLong(role) => long_reasons(asked, role),
        Status::ReadFault => read_reasons(asked, host),
        Status::WriteFault => write_reasons(asked, host),
        Status::OutOfMemory => memory_reasons(asked, host),
        _ => refusal_reasons(asked, status, excerpt),
    }
}

// A text that was refused: its file and line, and what is wrong there.
fn refusal_reasons(asked: &Asked<'_>, status: Status, excerpt: &Excerpt) -> Explanation {
    match status {
        Status::CnfRefused(kind, line) => {
            refused(asked, Role::Cnf, line, cnf_reason(kind), excerpt)
        }
        Status::OrderRefused(kind, line) => {
            refused(asked, Role::Order, line, order_reason(kind), excerpt)
        }
        Status::BucketsRefused(kind, line) => {
            refused(asked, Role::Buckets, line, order_reason(kind), excerpt)
        }
        Status::PlanRefused(kind, line) => {
            refused(asked, Role::Schedule, line, plan_reason(kind), excerpt)
        }
        Status::CubeRefused(kind, line) => {
            refused(asked, Role::Cubes, line, cube_reason(kind), excerpt)
        }
        _ => Explanation::new(),
    }
}

fn refused(
    asked: &Asked<'_>,
    role: Role,
    line: u64,
    reason: &str,
    excerpt: &Excerpt,
) -> Explanation {
    let place = file_line(asked, role)
        .text(", is refused in line ")
        .number(line);
    Explanation::new()
        .line(with_line(place, line, excerpt))
        .text(reason)
}

// The place of a text's line, with the line, as far as the excerpt has it.
fn with_line(place: Comment, line: u64, excerpt: &Excerpt) -> Comment {
    let bytes = excerpt.line(line);
    if bytes.is_empty() {
        place
    } else {
        place.text(", ").shown(bytes)
    }
}

fn long_reasons(asked: &Asked<'_>, role: Role) -> Explanation {
    Explanation::new()
        .line(file_line(asked, role).text(", has more than 4000000000 bytes"))
        .text("no longer text is read")
}

// A proof that isn't verified.
fn proof_reasons(asked: &Asked<'_>, line: u64, reason: Reason, excerpt: &Excerpt) -> Explanation {
    let place = file_line(asked, Role::ProofIn)
        .text(", isn't verified: line ")
        .number(line);
    let reasons = Explanation::new()
        .line(with_line(place, line, excerpt))
        .text(proof_reason(reason));
    match reason {
        Reason::Syntax if excerpt.looks_binary() => {
            reasons.text("it looks binary, and only textual proofs are read")
        }
        Reason::Syntax => format_reasons(asked, reasons),
        _ => reasons,
    }
}

// With what another format needs.
fn format_reasons(asked: &Asked<'_>, reasons: Explanation) -> Explanation {
    match asked {
        Asked::Check(task) => match task.format {
            ProofFormat::Lrat => reasons.text("a proof without hints is read with --format drat"),
            _ => reasons,
        },
        _ => reasons,
    }
}

fn limit_reasons(why: Why) -> Explanation {
    match why {
        Why::NodeLimit => Explanation::new()
            .text("the diagrams reached the greatest number of nodes: --max-nodes raises it")
            .text("other orders may need fewer nodes: try solve with --search"),
        Why::IdLimit => Explanation::new().text(
            "the proof reached the greatest clause number: --max-ids raises it",
        ),
    }
}
