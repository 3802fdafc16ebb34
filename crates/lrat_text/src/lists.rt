// The lists of steps whose memory is used again, so that a line takes none once they are large enough. Those of the kind of step
// that doesn't stand there are kept, so that additions and deletions in turn take none either. The hints of a group are a list of
// their own each time: few lines have groups.
ghost use Rattle.std.specs.Prelude.{◌≡◌};
ghost use Rattle.cnf_base.specs.declared.step.Step.TheVariants.{Add, Delete};

use cnf_base::{GroupList, Id, IdList, LitList, Step};
use std::alloc::Global;
use std::mem::replace;

/// The lists of an addition and of a deletion, but for those that stand in a step.
#[derive(Drop)]
pub struct Lists {
    pub alloc: Global,
    pub clause: LitList,
    pub hints: IdList,
    pub groups: GroupList,
    pub deleted: IdList,
}

impl Lists {
    pub fn new(alloc: Global) -> Lists {
        Lists {
            alloc,
            clause: LitList::new(alloc),
            hints: IdList::new(alloc),
            groups: GroupList::new(alloc),
            deleted: IdList::new(alloc),
        }
    }

    /// A step that takes no memory.
    pub fn blank_step(&self) -> Step {
        Step::Delete {
            id: Id(0),
            ids: IdList::new(self.alloc),
        }
    }

    /// Takes the lists of a step that is needed no more.
    pub fn take_back(&mut self, step: &mut Step) {
        match replace(step, self.blank_step()) {
            Step::Add {
                lits,
                pos,
                groups,
                ..
            } => {
                self.clause = lits;
                self.hints = pos;
                self.groups = groups;
            }
            Step::Delete { ids, .. } => self.deleted = ids,
        }
    }

    /// Gives the addition of this clause with these hints and groups.
    pub fn addition(&mut self, id: u64) -> Step
        ensures { result ≡ Add id self.old.clause self.old.hints self.old.groups }
    {
        Step::Add {
            id: Id(id),
            lits: replace(&mut self.clause, LitList::new(self.alloc)),
            pos: replace(&mut self.hints, IdList::new(self.alloc)),
            groups: replace(&mut self.groups, GroupList::new(self.alloc)),
        }
    }

    /// Gives the deletion of these clauses.
    pub fn deletion(&mut self, id: u64) -> Step
        ensures { result ≡ Delete id self.old.deleted }
    {
        Step::Delete {
            id: Id(id),
            ids: replace(&mut self.deleted, IdList::new(self.alloc)),
        }
    }
}
