// From LRAT to DRAT: a list of clauses is kept beside the live clauses of an LRAT proof, and what is good there is good here.
ghost use Rattle.std.specs.Prelude.{◌≡◌, ℕ, ℤ, List, None, Some};
ghost use Rattle.std.specs.FinMap as map;
ghost use Rattle.cnf_base.specs.declared.list.Group.{Group};
ghost use Rattle.drat_text.specs.declared.step.DratStep.TheVariants.{Add as adds, Delete as deletes};
ghost use Rattle.lrat_rules.specs.State.{State, clause_at, start, with_clause};
ghost use Rattle.lrat_rules.specs.Addition.{fault};
ghost use Rattle.drat_rules.specs.Addition.{drat_fault};
ghost use Rattle.drat_rules.specs.Run.{after};
ghost use Rattle.drat_rules.specs.FromLrat.{HaveSame, IsListOf};

/// An addition with good hints needs none in DRAT, whichever of equal clauses the hints name; and a list of clauses follows a
/// state of LRAT through additions and through each deleted number.
pub fn from_lrat_law()
    ensures good { (state : State) (clauses : List (List ℤ)) (id : ℕ) (clause : List ℤ) (hints : List ℕ) (groups : List Group)
        → HaveSame state.live clauses → fault state id clause hints groups ≡ None → drat_fault clauses clause ≡ None }
    ensures start { (clauses : List (List ℤ)) → IsListOf (start clauses) clauses }
    ensures added { (state : State) (clauses : List (List ℤ)) (id : ℕ) (clause : List ℤ) (hints : List ℕ) (groups : List Group)
        → IsListOf state clauses → fault state id clause hints groups ≡ None
        → IsListOf (record { live = with_clause state.live id clause; top = id }) (after clauses (adds clause)) }
    ensures deleted { (state : State) (clauses : List (List ℤ)) (id : ℕ) (clause : List ℤ) → IsListOf state clauses
        → clause_at state.live id ≡ Some clause
        → IsListOf (record { live = map.remove state.live id; top = state.top }) (after clauses (deletes clause)) }
    // A number that isn't live is passed over.
    ensures passed_over { (state : State) (clauses : List (List ℤ)) (id : ℕ) → IsListOf state clauses → clause_at state.live id ≡ None
        → IsListOf (record { live = map.remove state.live id; top = state.top }) clauses }
{
    lrat_rules::start_law();
}
