// The header of a CNF text, token by token: `p`, `cnf`, the number of variables, the number of clauses.
ghost use Rattle.std.specs.Prelude.{◌≡◌, ◌≢◌, ◌≤◌, false, length, Err, IsTrue, IfOk};
ghost use Rattle.cnf_base.specs.Formula.{IsFormula};
ghost use Rattle.host_io.specs.Channel.{Rose};
ghost use Rattle.text_scan.specs.Decides.{gained, Decides, OnlyReads};
ghost use Rattle.text_scan.specs.Scan.{ahead, so_far, is_faulted};
ghost use Rattle.text_scan.specs.Items.{items};
ghost use Rattle.dimacs_reader.specs.declared.error.CnfError.TheVariants.{ReadFault, OutOfMemory};
ghost use Rattle.dimacs_reader.specs.Answers.{Answers, WantsMemory};
ghost use Rattle.dimacs_reader.specs.Header.{HasHeader, HasFormat, HasVars, HasCount, Begins, BeginsSoFar};
ghost use Rattle.dimacs_reader.specs.Cnf.{max_bytes, max_vars, overlong, cnf, cnf_so_far, cnf_of, after_p, after_format, after_vars};

use crate::body::{Body, MAX_CLAUSES, is_word, read_body};
use crate::error::{CnfError, CnfKind};
use crate::mode::Mode;
use cnf_base::Cnf;
use host_io::Source;
use std::alloc::Global;
use text_scan::{MAX_BYTES, Scanner, plain_number};

/// How many variables a header may announce.
const MAX_VARS: u64 = 1_000_000;

/// Reads a CNF text to its end, or to the `%` that ends it, and answers what it is in this mode. Memory may be refused instead,
/// or a read may fail. No read follows once the answer is decided.
pub fn read_cnf<S: Source>(alloc: Global, source: &mut S, mode: Mode) -> Result<Cnf, CnfError>
    // The answer is the grammar's of the bytes that were taken and whatever may follow them, so of the whole text.
    ensures decides { IsTrue S.tells → Decides (S.channel source.old) (S.channel source.new)
        (λ bytes more. Answers result (cnf mode bytes)) }
    ensures fault { result ≡ Err ReadFault → Rose (S.channel source.old).faults (S.channel source.new).faults }
    // no failed read is told as anything else
    ensures unfailed { result ≢ Err ReadFault → (S.channel source.new).faults ≡ (S.channel source.old).faults }
    // a read fails only where the bytes taken decide nothing yet
    ensures undecided { IsTrue S.tells → result ≡ Err ReadFault → cnf_so_far mode (gained (S.channel source.old) (S.channel source.new))
        ≡ overlong }
    // Memory is wanted only for a number that offends nothing, or for a last clause without its zero, behind a good header, with no more
    // tokens behind it in the bytes taken than a block can spell.
    ensures memory { IsTrue S.tells → result ≡ Err OutOfMemory → Decides (S.channel source.old) (S.channel source.new)
        (λ bytes more. WantsMemory mode (length more) (items 99 max_bytes bytes)) }
    ensures formula { IfOk result IsFormula }

    ensures reads { OnlyReads (S.channel source.old) (S.channel source.new) }
    ensures beside { S.beside source.new ≡ S.beside source.old }
{
    let mut scanner = Scanner::new(b'c', MAX_BYTES);
    let body = read_header(alloc, &mut scanner, source, mode)?;
    let cnf = read_body(body, &mut scanner, source)?;
    cnf.formula_law();
    Ok(cnf)
}

fn read_header<S: Source>(
    alloc: Global,
    scanner: &mut Scanner,
    source: &mut S,
    mode: Mode,
) -> Result<Body, CnfError>
    requires { is_faulted scanner.old.status ≡ false }
    ensures decides { IsTrue S.tells → Decides (S.channel source.old) (S.channel source.new)
        (λ bytes more. Begins result (cnf_of mode (ahead scanner.old bytes))
        (λ vars count. HasHeader (ahead scanner.old bytes) vars count (ahead scanner.new more))) }
    ensures so_far { IsTrue S.tells → BeginsSoFar result scanner.old scanner.new (λ more. cnf_of mode (so_far scanner.old more))
        (gained (S.channel source.old) (S.channel source.new)) }
    ensures memory { result ≢ Err OutOfMemory }
    ensures sound { IfOk result (λ body. (is_faulted scanner.new.status ≡ false) × (body.mode ≡ mode)) }
    ensures fault { result ≡ Err ReadFault → Rose (S.channel source.old).faults (S.channel source.new).faults }
    ensures unfailed { result ≢ Err ReadFault → (S.channel source.new).faults ≡ (S.channel source.old).faults }
    ensures reads { OnlyReads (S.channel source.old) (S.channel source.new) }
    ensures beside { S.beside source.new ≡ S.beside source.old }
{
    match scanner.next(source)? {
        None => Err(CnfError::Refused(CnfKind::NoHeader, scanner.line())),
        Some(token) => {
            if is_word(&token, b"p") {
                read_format(alloc, scanner, source, mode)
            } else {
                Err(CnfError::Refused(CnfKind::NoHeader, token.line()))
            }
        }
    }
}

fn read_format<S: Source>(
    alloc: Global,
    scanner: &mut Scanner,
    source: &mut S,
    mode: Mode,
) -> Result<Body, CnfError>
    requires { is_faulted scanner.old.status ≡ false }
    ensures decides { IsTrue S.tells → Decides (S.channel source.old) (S.channel source.new)
        (λ bytes more. Begins result (after_p mode (ahead scanner.old bytes))
        (λ vars count. HasFormat (ahead scanner.old bytes) vars count (ahead scanner.new more))) }
    ensures so_far { IsTrue S.tells → BeginsSoFar result scanner.old scanner.new (λ more. after_p mode (so_far scanner.old more))
        (gained (S.channel source.old) (S.channel source.new)) }
    ensures memory { result ≢ Err OutOfMemory }
    ensures sound { IfOk result (λ body. (is_faulted scanner.new.status ≡ false) × (body.mode ≡ mode)) }
    ensures fault { result ≡ Err ReadFault → Rose (S.channel source.old).faults (S.channel source.new).faults }
    ensures unfailed { result ≢ Err ReadFault → (S.channel source.new).faults ≡ (S.channel source.old).faults }
    ensures reads { OnlyReads (S.channel source.old) (S.channel source.new) }
    ensures beside { S.beside source.new ≡ S.beside source.old }
{
    match scanner.next(source)? {
        None => Err(CnfError::Refused(CnfKind::BadHeader, scanner.line())),
        Some(token) => {
            if is_word(&token, b"cnf") {
                read_vars(alloc, scanner, source, mode)
            } else {
                Err(CnfError::Refused(CnfKind::BadHeader, token.line()))
            }
        }
    }
}

fn read_vars<S: Source>(
    alloc: Global,
    scanner: &mut Scanner,
    source: &mut S,
    mode: Mode,
) -> Result<Body, CnfError>
    requires { is_faulted scanner.old.status ≡ false }
    ensures decides { IsTrue S.tells → Decides (S.channel source.old) (S.channel source.new)
        (λ bytes more. Begins result (after_format mode (ahead scanner.old bytes))
        (λ vars count. HasVars (ahead scanner.old bytes) vars count (ahead scanner.new more))) }
    ensures so_far { IsTrue S.tells → BeginsSoFar result scanner.old scanner.new (λ more. after_format mode (so_far scanner.old more))
        (gained (S.channel source.old) (S.channel source.new)) }
    ensures memory { result ≢ Err OutOfMemory }
    ensures sound { IfOk result (λ body. (is_faulted scanner.new.status ≡ false) × (body.mode ≡ mode)) }
    ensures fault { result ≡ Err ReadFault → Rose (S.channel source.old).faults (S.channel source.new).faults }
    ensures unfailed { result ≢ Err ReadFault → (S.channel source.new).faults ≡ (S.channel source.old).faults }
    ensures reads { OnlyReads (S.channel source.old) (S.channel source.new) }
    ensures beside { S.beside source.new ≡ S.beside source.old }
{
    match scanner.next(source)? {
        None => Err(CnfError::Refused(CnfKind::BadHeader, scanner.line())),
        Some(token) => match plain_number(&token) {
            None => Err(CnfError::Refused(CnfKind::BadHeader, token.line())),
            Some(vars) => {
                if vars > MAX_VARS {
                    return Err(CnfError::Refused(CnfKind::Limit, token.line()));
                }
                read_count(alloc, vars as u32, scanner, source, mode)
            }
        },
    }
}

fn read_count<S: Source>(
    alloc: Global,
    vars: u32,
    scanner: &mut Scanner,
    source: &mut S,
    mode: Mode,
) -> Result<Body, CnfError>
    requires few_vars { vars ≤ max_vars }
    requires sound { is_faulted scanner.old.status ≡ false }
    ensures decides { IsTrue S.tells → Decides (S.channel source.old) (S.channel source.new)
        (λ bytes more. Begins result (after_vars mode vars (ahead scanner.old bytes))
        (λ same count. (same ≡ vars) × HasCount (ahead scanner.old bytes) count (ahead scanner.new more))) }
    ensures so_far { IsTrue S.tells → BeginsSoFar result scanner.old scanner.new (λ more. after_vars mode vars (so_far scanner.old more))
        (gained (S.channel source.old) (S.channel source.new)) }
    ensures memory { result ≢ Err OutOfMemory }
    ensures sound { IfOk result (λ body. (is_faulted scanner.new.status ≡ false) × (body.mode ≡ mode)) }
    ensures fault { result ≡ Err ReadFault → Rose (S.channel source.old).faults (S.channel source.new).faults }
    ensures unfailed { result ≢ Err ReadFault → (S.channel source.new).faults ≡ (S.channel source.old).faults }
    ensures reads { OnlyReads (S.channel source.old) (S.channel source.new) }
    ensures beside { S.beside source.new ≡ S.beside source.old }
{
    match scanner.next(source)? {
        None => Err(CnfError::Refused(CnfKind::BadHeader, scanner.line())),
        Some(token) => match plain_number(&token) {
            None => Err(CnfError::Refused(CnfKind::BadHeader, token.line())),
            Some(count) => {
                if count > u64::from(MAX_CLAUSES) {
                    return Err(CnfError::Refused(CnfKind::Limit, token.line()));
                }
                Ok(Body::new(alloc, vars, count as u32, mode))
            }
        },
    }
}
