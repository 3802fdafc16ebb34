// Reads the text of cubes: their literals, each cube ended by a zero.
ghost use Rattle.std.specs.Prelude.{◌≡◌, ◌≢◌, ◌≤◌, ◌<◌, ℕ, ℤ, pos, List, false, nat_abs, length, None, Some, Ok, Err, IsTrue};
ghost use Rattle.std.specs.Prelude.{IfOk, OnOk, OnErr, slice_index_or};
ghost use Rattle.std.specs.Int.{is_negative};
ghost use Rattle.cnf_base.specs.Cube.{is_denied};
ghost use Rattle.cnf_base.specs.Limits.{max_vars};
ghost use Rattle.cnf_base.specs.Number.{signed_number};
ghost use Rattle.host_io.specs.Channel.{Rose};
ghost use Rattle.text_scan.specs.Decides.{gained, Decides, OnlyReads};
ghost use Rattle.text_scan.specs.Items.{items};
ghost use Rattle.dimacs_reader.specs.Cnf.{literals_of, max_literals, with_number, with_read};
ghost use Rattle.cube_text.specs.declared.error.CubeError.TheVariants.{ReadFault, OutOfMemory};
ghost use Rattle.cube_text.specs.CubeReader.{Answers, Takes, WantsMemory, answer_of, stamp};
ghost use Rattle.cube_text.specs.CubeText.{AreCubes, cube_text, cubes, cubes_so_far, max_bytes, max_cubes, no_cubes, offence_of};
ghost use Rattle.cube_text.specs.CubeText.{overlong, text_end};

use crate::cubes::Cubes;
use crate::error::{CubeError, CubeKind};
use cnf_base::{CnfBuilder, Lit, OutOfMemory as NoMemory};
use host_io::Source;
use std::alloc::Global;
use std::marker::Model;
use text_scan::{MAX_BYTES, Scanner, Token, signed_number};

/// How many cubes a text may have.
const MAX_CUBES: u32 = 1_000_000;

/// How many literals it may have.
const MAX_LITERALS: u32 = 100_000_000;

/// What a text is read as are cubes of the variables that were asked for, none with both signs of one.
pub fn cube_text_law()
    ensures { (vars : ℕ) (bytes : List ℕ) (all : List (List ℤ)) → cube_text vars bytes ≡ cubes all → AreCubes vars all }
{}

// The cubes read so far, with counts of them, and a stamp for each variable; the stamps reach as far as is needed.
#[derive(Drop)]
struct Front {
    builder: CnfBuilder,
    vars: u32,
    ended: u32,
    begun: u32,
    literals: u32,
    stamps: Vec<u32>,
}

impl Model for Front {
    ghost use Rattle.cnf_base.specs.Formula.{Draft};
    ghost use Rattle.cube_text.specs.CubeReader.{IsFront};

    ghost Value = { Draft };

    ghost view = { λ f. f.builder };

    ghost invariant = { λ f. IsFront f.vars f.ended f.begun f.literals f.builder f.stamps.items };
}

// The stamp of a literal of this sign, behind so many ended cubes.
fn stamp_of(ended: u32, negative: bool) -> u32
    requires { ended ≤ max_cubes }
    ensures { result ≡ stamp ended negative }
{
    if negative {
        2 * ended + 3
    } else {
        2 * ended + 2
    }
}

fn is_negative(number: i64) -> bool
    ensures { result ≡ is_negative number }
{
    number < 0
}

// Lets the stamps reach to a variable.
fn reach(stamps: &mut Vec<u32>, variable: usize) -> Result<(), NoMemory>
    requires { variable ≤ max_vars }
    ensures same { (i : ℕ) → slice_index_or stamps.new.items i 0 ≡ slice_index_or stamps.old.items i 0 }
    ensures ok { OnOk result (variable < length stamps.new.items) }
{
    if stamps.len() <= variable {
        stamps.resize(variable + 1, 0)?;
    }
    Ok(())
}

impl Front {
    fn new(alloc: Global, vars: u32) -> Front
        requires { vars ≤ max_vars }
        ensures { result ≡ no_cubes vars }
    {
        Front {
            builder: CnfBuilder::new(alloc, vars),
            vars,
            ended: 0,
            begun: 0,
            literals: 0,
            stamps: Vec::new(alloc),
        }
    }

    // Judges the next token, and adds its number.
    fn take(&mut self, token: &Token) -> Result<(), CubeError>
        ensures takes { Takes result (offence_of (signed_number token.now.bytes) self.old) token.now.line
            (with_read (signed_number token.now.bytes) self.old) self.new }
        // want of memory never stands for a refusal
        ensures memory { result ≡ Err OutOfMemory → offence_of (signed_number token.now.bytes) self.old ≡ None }
    {
        match signed_number(token) {
            None => Err(CubeError::Refused(CubeKind::BadToken, token.line())),
            Some(number) => self.take_number(number, token.line()),
        }
    }

    fn take_number(&mut self, number: i64, line: u64) -> Result<(), CubeError>
        ensures takes { Takes result (offence_of (Some number) self.old) line (with_number number self.old) self.new }
        ensures memory { result ≡ Err OutOfMemory → offence_of (Some number) self.old ≡ None }
        ensures few_vars { self.old.vars ≤ max_vars }
    {
        if let Some(kind) = self.offence(number) {
            return Err(CubeError::Refused(kind, line));
        }
        self.put(number)
    }

    // What is wrong with a number, if anything.
    fn offence(&self, number: i64) -> Option<CubeKind>
        ensures value { result ≡ offence_of (Some number) self.now }
        ensures few_vars { self.now.vars ≤ max_vars }
    {
        if self.ended >= MAX_CUBES {
            Some(CubeKind::Limit)
        } else if number != 0 && self.literals >= MAX_LITERALS {
            Some(CubeKind::Limit)
        } else if number.unsigned_abs() > self.vars as u64 {
            Some(CubeKind::LiteralRange)
        } else if number != 0 && self.is_denied(number) {
            Some(CubeKind::BothSigns)
        } else {
            None
        }
    }

    // Whether the negation of a literal stands in the cube that was begun.
    fn is_denied(&self, number: i64) -> bool
        requires some { 0 < nat_abs number }
        requires range { nat_abs number ≤ self.now.vars }
        ensures { result ≡ is_denied number self.now.begun }
    {
        let variable = number.unsigned_abs() as usize;
        let stamp = stamp_of(self.ended, !is_negative(number));
        variable < self.stamps.len() && self.stamps[variable] == stamp
    }

    // Adds a number that doesn't offend.
    fn put(&mut self, number: i64) -> Result<(), CubeError>
        requires { offence_of (Some number) self.old ≡ None }
        ensures ok { OnOk result (self.new ≡ with_number number self.old) }
        ensures err { OnErr result (result ≡ Err OutOfMemory) }
    {
        let _vars = self.vars;
        match Lit::new(number as i32) {
            None => self.end_cube()?,
            Some(literal) => self.push_literal(literal)?,
        }
        Ok(())
    }

    // Ends the cube that was begun, or adds an empty one.
    fn end_cube(&mut self) -> Result<(), NoMemory>
        requires { length self.old.clauses < max_cubes }
        ensures ok { OnOk result (self.new ≡ with_number (pos 0) self.old) }
    {
        self.builder.end_clause()?;
        self.ended += 1;
        self.begun = 0;
        Ok(())
    }

    // Adds a literal to the cube that was begun.
    fn push_literal(&mut self, literal: Lit) -> Result<(), NoMemory>
        requires open { length self.old.clauses < max_cubes }
        requires room { literals_of self.old < max_literals }
        requires range { nat_abs literal ≤ self.old.vars }
        requires consistent { is_denied literal self.old.begun ≡ false }
        ensures ok { OnOk result (self.new ≡ with_number literal self.old) }
    {
        let variable = literal.var() as usize;
        let stamp = stamp_of(self.ended, literal.is_negative());
        reach(&mut self.stamps, variable)?;
        self.builder.push_lit(literal)?;
        self.stamps[variable] = stamp;
        self.begun += 1;
        self.literals += 1;
        Ok(())
    }

    // The end of the text, on this line.
    fn finish(self, line: u64) -> Result<Cubes, CubeError>
        ensures value { result ≡ answer_of (text_end self line) }
        ensures cubes { IfOk result (AreCubes self.vars) }
    {
        let Front {
            builder,
            vars: _,
            ended: _,
            begun,
            literals: _,
            stamps: _,
        } = self;
        if begun > 0 {
            Err(CubeError::Refused(CubeKind::NoEndingZero, line))
        } else {
            let list = builder.finish();
            list.formula_law();
            Ok(Cubes::of_clauses(list))
        }
    }
}

/// Reads the text of cubes about so many variables to its end, and answers what it is. Memory may be refused instead, or a read may
/// fail. No read follows once the answer is decided.
pub fn read_cubes<S: Source>(alloc: Global, vars: u32, source: &mut S) -> Result<Cubes, CubeError>
    requires { vars ≤ max_vars }
    // The answer is the definition's of the bytes that were taken and whatever may follow them, so of the whole text.
    ensures decides { IsTrue S.tells → Decides (S.channel source.old) (S.channel source.new)
        (λ bytes more. Answers result (cube_text vars bytes)) }
    ensures fault { result ≡ Err ReadFault → Rose (S.channel source.old).faults (S.channel source.new).faults }
    // no failed read is told as anything else
    ensures unfailed { result ≢ Err ReadFault → (S.channel source.new).faults ≡ (S.channel source.old).faults }
    // a read fails only where the bytes taken decide nothing yet
    ensures undecided { IsTrue S.tells → result ≡ Err ReadFault
        → cubes_so_far vars (gained (S.channel source.old) (S.channel source.new)) ≡ overlong }
    // Memory is wanted only for a number that offends nothing, with no more tokens behind it in the bytes taken than a block can spell.
    ensures memory { IsTrue S.tells → result ≡ Err OutOfMemory → Decides (S.channel source.old) (S.channel source.new)
        (λ bytes more. WantsMemory vars (length more) (items 35 max_bytes bytes)) }
    ensures cubes { IfOk result (AreCubes vars) }

    ensures reads { OnlyReads (S.channel source.old) (S.channel source.new) }
    ensures beside { S.beside source.new ≡ S.beside source.old }
{
    let mut scanner = Scanner::new(b'#', MAX_BYTES);
    let mut front = Front::new(alloc, vars);
    'tokens: loop {
        match scanner.next(source)? {
            None => return front.finish(scanner.line()),
            Some(token) => {
                scanner.near_law();
                front.take(&token)?;
            }
        }
    }
}
