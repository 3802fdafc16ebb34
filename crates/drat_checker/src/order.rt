// In which order a conflict is explained: by the places of the literals that it needs, the last one first. No clause says that these are
// all: what is found by them is tested, so that places that are wrong cost time alone.
use crate::database::Database;
use crate::false_list::FalseList;
use crate::marks::Marks;
use cnf_base::{Lit, OutOfMemory};
use std::alloc::Global;

/// Places of a trail.
#[derive(Drop)]
pub struct Order {
    pub places: Vec<usize>,
    /// the literals at those places that are explained
    pub taken: Marks,
    queued: Marks,
}

impl Order {
    pub fn new(alloc: Global) -> Order {
        Order {
            places: Vec::new(alloc),
            taken: Marks::new(alloc),
            queued: Marks::new(alloc),
        }
    }

    /// Finds the places of what a conflict needs and isn't assumed, the last one first.
    pub fn find(
        &mut self,
        db: &Database,
        trail: &FalseList,
        given: &Marks,
        conflict: u32,
    ) -> Result<(), OutOfMemory> {
        self.places.clear();
        self.queued.clear();
        self.enter(db, trail, given, conflict)?;
        self.follow_all(db, trail, given)?;
        self.places
            .sort_unstable_by_key(|place| usize::MAX - *place);
        Ok(())
    }

    // Each place needs the literals of the clause that forced its own.
    fn follow_all(
        &mut self,
        db: &Database,
        trail: &FalseList,
        given: &Marks,
    ) -> Result<(), OutOfMemory> {
        for next in 0..trail.len() {
            if self.places.len() <= next {
                return Ok(());
            }
            let place = self.places[next];
            self.follow(db, trail, given, place)?;
        }
        Ok(())
    }

    fn follow(
        &mut self,
        db: &Database,
        trail: &FalseList,
        given: &Marks,
        place: usize,
    ) -> Result<(), OutOfMemory> {
        if trail.len() <= place {
            return Ok(());
        }
        match trail.reason(place) {
            None => Ok(()),
            Some(number) => self.enter(db, trail, given, number),
        }
    }

    // The places of a clause's literals.
    fn enter(
        &mut self,
        db: &Database,
        trail: &FalseList,
        given: &Marks,
        number: u32,
    ) -> Result<(), OutOfMemory> {
        match db.clause(number) {
            None => Ok(()),
            Some(clause) => self.enter_all(trail, given, clause),
        }
    }

    fn enter_all(
        &mut self,
        trail: &FalseList,
        given: &Marks,
        clause: &[Lit],
    ) -> Result<(), OutOfMemory> {
        for literal in clause {
            self.enter_literal(trail, given, *literal)?;
        }
        Ok(())
    }

    fn enter_literal(
        &mut self,
        trail: &FalseList,
        given: &Marks,
        literal: Lit,
    ) -> Result<(), OutOfMemory> {
        if self.queued.contains(literal) || given.contains(literal) {
            return Ok(());
        }
        match trail.place(literal) {
            None => Ok(()),
            Some(place) => {
                self.queued.mark(literal)?;
                self.places.push(place)?;
                Ok(())
            }
        }
    }
}
