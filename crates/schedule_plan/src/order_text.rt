// Reads the text of an order: plain numbers, each variable once, the top one first.
ghost use Rattle.std.specs.Prelude.{ℕ, List, ◌^◌, ◌≡◌, ◌≢◌, slice_index_or, ◌≤◌, ◌<◌, [], ◌∷◌, ◌++◌, false, length, None, Some, Ok, Err};
ghost use Rattle.std.specs.Prelude.{IsTrue, IfOk, OnOk, OnErr, ◌==◌};
ghost use Rattle.cnf_base.specs.Number.{plain_number};
ghost use Rattle.host_io.specs.Channel.{Rose};
ghost use Rattle.text_scan.specs.Items.{items};
ghost use Rattle.text_scan.specs.Decides.{gained, Decides, OnlyReads};
ghost use Rattle.text_scan.specs.Scan.{ahead};
ghost use Rattle.schedule_plan.specs.declared.order_error.OrderError.TheVariants.{ReadFault, OutOfMemory};
ghost use Rattle.cnf_base.specs.Order.{IsOrder};
ghost use Rattle.schedule_plan.specs.OrderReader.{Answers, Takes, WantsMemory, answer_of};
ghost use Rattle.schedule_plan.specs.OrderText.{max_bytes, order, overlong, order_text, order_so_far, stands_in, offence_of, text_end};
ghost use Rattle.schedule_plan.specs.OrderText.{with_read};

use crate::order::Order;
use crate::order_error::{OrderError, OrderKind};
use host_io::Source;
use std::alloc::Global;
use std::marker::Model;
use text_scan::{MAX_BYTES, Scanner, Token, plain_number};

/// What a text is read as is an order, of as many variables as were asked for.
pub fn order_text_law()
    ensures { (vars : ℕ) (bytes variables : List ℕ) → order_text vars bytes ≡ order variables → IsOrder variables
        × (length variables ≡ vars) }
{}

// The numbers read so far, with a flag for each number that stands among them; the flags reach as far as is needed.
#[derive(Drop)]
struct Front {
    vars: u32,
    numbers: Vec<u32>,
    seen: Vec<bool>,
}

impl Model for Front {
    ghost use Rattle.schedule_plan.specs.OrderReader.{Front as FrontState, IsFront};

    ghost Value = { FrontState };

    ghost view = { λ f. record { vars = f.vars; numbers = f.numbers.items } };

    ghost invariant = { λ f. IsFront f.vars f.numbers.items f.seen.items };
}

// Lets the flags reach to a number.
fn reach(seen: &mut Vec<bool>, number: u32) -> Result<(), cnf_base::OutOfMemory>
    ensures same { (i : ℕ) → slice_index_or seen.new.items i false ≡ slice_index_or seen.old.items i false }
    ensures ok { OnOk result (number < length seen.new.items) }
{
    if seen.len() <= number as usize {
        seen.resize(number as usize + 1, false)?;
    }
    Ok(())
}

impl Front {
    fn new(alloc: Global, vars: u32) -> Front
        ensures { result ≡ record { vars = vars; numbers = [] } }
    {
        Front {
            vars,
            numbers: Vec::new(alloc),
            seen: Vec::new(alloc),
        }
    }

    // Judges the next token, and adds its number.
    fn take(&mut self, token: &Token) -> Result<(), OrderError>
        ensures takes { Takes result (offence_of (plain_number token.now.bytes) self.old.vars self.old.numbers) token.now.line
            (with_read (plain_number token.now.bytes) self.old.numbers) self.new.numbers }
        // want of memory never stands for a refusal
        ensures memory { result ≡ Err OutOfMemory → offence_of (plain_number token.now.bytes) self.old.vars self.old.numbers ≡ None }
        ensures vars { self.new.vars ≡ self.old.vars }
    {
        match plain_number(token) {
            None => Err(OrderError::Refused(OrderKind::BadNumber, token.line())),
            Some(number) => self.take_number(number, token.line()),
        }
    }

    fn take_number(&mut self, number: u64, line: u64) -> Result<(), OrderError>
        ensures takes { Takes result (offence_of (Some number) self.old.vars self.old.numbers) line (self.old.numbers ++ number
            ∷ []) self.new.numbers }
        ensures memory { result ≡ Err OutOfMemory → offence_of (Some number) self.old.vars self.old.numbers ≡ None }
        ensures vars { self.new.vars ≡ self.old.vars }
        ensures small { self.old.vars < 2 ^ 32 }
    {
        if let Some(kind) = self.offence(number) {
            return Err(OrderError::Refused(kind, line));
        }
        self.put(number as u32)?;
        Ok(())
    }

    // What is wrong with a number, if anything.
    fn offence(&self, number: u64) -> Option<OrderKind>
        ensures value { result ≡ offence_of (Some number) self.now.vars self.now.numbers }
        ensures fits { result ≡ None → number < 2 ^ 32 }
        ensures small { self.now.vars < 2 ^ 32 }
    {
        let vars = self.vars as u64;
        if number == 0 || number > vars {
            Some(OrderKind::Range)
        } else if self.has(number as usize) {
            Some(OrderKind::Repeated)
        } else {
            None
        }
    }

    fn has(&self, number: usize) -> bool
        ensures { result ≡ stands_in number self.now.numbers }
    {
        number < self.seen.len() && self.seen[number]
    }

    // Adds a number that doesn't offend.
    fn put(&mut self, number: u32) -> Result<(), cnf_base::OutOfMemory>
        requires { offence_of (Some number) self.old.vars self.old.numbers ≡ None }
        ensures ok { OnOk result (self.new.numbers ≡ self.old.numbers ++ number ∷ []) }
        ensures vars { self.new.vars ≡ self.old.vars }
    {
        reach(&mut self.seen, number)?;
        self.numbers.push(number)?;
        self.seen[number as usize] = true;
        Ok(())
    }

    // The end of the text, on this line.
    fn finish(self, line: u64) -> Result<Order, OrderError>
        ensures value { result ≡ answer_of (text_end self.vars self.numbers line) }
        ensures order { IfOk result (λ order. IsOrder order × (length order ≡ self.vars)) }
    {
        let Front {
            vars,
            numbers,
            seen: _,
        } = self;
        if numbers.len() < vars as usize {
            Err(OrderError::Refused(OrderKind::Missing, line))
        } else {
            Ok(Order::of_variables(numbers))
        }
    }
}

impl Order {
    /// Reads the text of an order of so many variables to its end, and answers what it is. Memory may be refused instead,
    /// or a read may fail. No read follows once the answer is decided.
    pub fn read<S: Source>(alloc: Global, vars: u32, source: &mut S) -> Result<Order, OrderError>
        // The answer is the definition's of the bytes that were taken and whatever may follow them, so of the whole text.
        ensures decides { IsTrue S.tells → Decides (S.channel source.old) (S.channel source.new)
            (λ bytes more. Answers result (order_text vars bytes)) }
        ensures order { IfOk result (λ order. IsOrder order × (length order ≡ vars)) }
        ensures fault { result ≡ Err ReadFault → Rose (S.channel source.old).faults (S.channel source.new).faults }
        // no failed read is told as anything else
        ensures unfailed { result ≢ Err ReadFault → (S.channel source.new).faults ≡ (S.channel source.old).faults }
        // a read fails only where the bytes taken decide nothing yet
        ensures undecided { IsTrue S.tells → result ≡ Err ReadFault
            → order_so_far vars (gained (S.channel source.old) (S.channel source.new)) ≡ overlong }
        // Memory is wanted only for a number that offends nothing, with no more tokens behind it in the bytes taken than a block can spell.
        ensures memory { IsTrue S.tells → result ≡ Err OutOfMemory → Decides (S.channel source.old) (S.channel source.new)
            (λ bytes more. WantsMemory vars (length more) (items 35 max_bytes bytes)) }

        ensures reads { OnlyReads (S.channel source.old) (S.channel source.new) }
        ensures beside { S.beside source.new ≡ S.beside source.old }
    {
        let mut scanner = Scanner::new(b'#', MAX_BYTES);
        let mut front = Front::new(alloc, vars);
        'tokens: loop {
            match scanner.next(source)? {
                None => return front.finish(scanner.line()),
                Some(token) => {
                    scanner.near_law();
                    front.take(&token)?;
                }
            }
        }
    }
}
