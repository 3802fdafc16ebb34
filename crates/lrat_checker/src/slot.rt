// A slot for one short clause, whose literals stand in the slot itself.
ghost use Rattle.std.specs.Prelude.{◌≡◌, None, Some, IfSome};
ghost use Rattle.std.specs.Option.{option_copied};
ghost use Rattle.lrat_checker.specs.Clauses.{clause_in};

use cnf_base::Lit;

/// How many literals a clause has, at most four, or 0 where there is none, and the literals. What stands behind them belongs to no clause.
#[derive(Clone, Copy)]
pub struct Slot {
    len: u32,
    literals: [Lit; 4],
}

const _: () = prove!(size_of::<Slot>() == 20);

impl Slot {
    /// A slot with a clause of one to four literals. The last one also stands in the places behind it, so that no branch depends on
    /// their number.
    #[inline(always)]
    pub fn of(clause: &[Lit]) -> Option<Slot>
        ensures { IfSome result (λ slot. clause_in slot ≡ Some clause.now) }
    {
        let len = clause.len();
        if len == 0 || len > 4 {
            return None;
        }
        let last = len - 1;
        Some(Slot {
            len: len as u32,
            literals: [
                clause[0],
                clause[last.min(1)],
                clause[last.min(2)],
                clause[last],
            ],
        })
    }

    /// The same slot without a clause.
    #[inline(always)]
    pub fn freed(&self) -> Slot
        ensures { clause_in result ≡ None }
    {
        Slot {
            len: 0,
            literals: self.literals,
        }
    }

    /// Takes the clause out.
    #[inline(always)]
    pub fn free(&mut self)
        ensures { clause_in self.new ≡ None }
    {
        self.len = 0;
    }

    /// The clause, where there is one.
    #[inline(always)]
    pub fn clause(&self) -> Option<&[Lit]>
        ensures { option_copied result ≡ clause_in self.now }
    {
        if self.len == 0 {
            None
        } else {
            Some(&self.literals[..(self.len as usize).min(4)])
        }
    }
}
