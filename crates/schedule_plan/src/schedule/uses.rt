// Where the variables stand: in how many clauses to come, and since which push.
ghost use Rattle.std.specs.Prelude.{◌≡◌, ℕ, ◌<◌, ◌≤◌, nat_abs, nat_lt, length, IsTrue};
ghost use Rattle.std.specs.List.{list_all, list_any};
ghost use Rattle.cnf_base.specs.Limits.{max_clauses};
ghost use Rattle.schedule_plan.specs.ScheduleState.{counted, with_push, changed, use_at, use_behind, is_used, when_quantified};

use cnf_base::Lit;

/// Of a variable.
#[derive(Clone, Copy, Drop)]
pub(crate) struct Use {
    // how many clauses that hold it aren't pushed yet
    pub(crate) to_come: u32,
    // the earliest push of a clause that holds it; none once it is quantified
    pub(crate) earliest: u32,
    // the clause that was looked at last, so that one which holds it twice counts once
    pub(crate) seen: u32,
}

/// Later than every push.
pub(crate) const NEVER: u32 = u32::MAX;

#[inline(always)]
fn counted(one: Use, mark: u32) -> Use
    requires { one.to_come ≤ 10000001 }
    ensures { result ≡ counted mark one }
{
    if one.seen == mark {
        return one;
    }
    Use {
        to_come: one.to_come + 1,
        earliest: one.earliest,
        seen: mark,
    }
}

#[inline(always)]
fn with_push(one: Use, mark: u32, place: u32) -> Use
    ensures { result ≡ with_push mark place one }
{
    if one.seen == mark {
        return one;
    }
    Use {
        to_come: one.to_come.saturating_sub(1),
        earliest: one.earliest.min(place),
        seen: mark,
    }
}

/// Of a variable that is quantified: no clause to come holds it, and no stacked term does.
#[inline(always)]
pub(crate) fn quantified(one: Use) -> Use
    ensures { result ≡ when_quantified one }
{
    Use {
        to_come: 0,
        earliest: NEVER,
        seen: one.seen,
    }
}

/// A clause is there.
pub(crate) fn count_clause(uses: &mut Vec<Use>, clause: &[Lit], mark: u32)
    requires few { (x : ℕ) → (use_at uses.old.items x).to_come ≤ max_clauses }
    requires within { IsTrue (list_all (λ literal. nat_lt (nat_abs literal) (length uses.old.items)) clause.now) }
    ensures count { length uses.new.items ≡ length uses.old.items }
    ensures uses { (x : ℕ) → use_at uses.new.items x ≡ changed (counted mark) clause.now uses.old.items x }
{
    'literals: for literal in clause {
        let variable = literal.var() as usize;
        uses[variable] = counted(uses[variable], mark);
    }
}

/// It is pushed, behind so many others.
pub(crate) fn push_clause(uses: &mut Vec<Use>, clause: &[Lit], mark: u32, place: u32)
    requires within { IsTrue (list_all (λ literal. nat_lt (nat_abs literal) (length uses.old.items)) clause.now) }
    ensures count { length uses.new.items ≡ length uses.old.items }
    ensures uses { (x : ℕ) → use_at uses.new.items x ≡ changed (with_push mark place) clause.now uses.old.items x }
{
    'literals: for literal in clause {
        let variable = literal.var() as usize;
        uses[variable] = with_push(uses[variable], mark, place);
    }
}

/// Whether one of these variables is held by a clause to come, or by one that was pushed before this push.
pub(crate) fn is_any_used(uses: &[Use], numbers: &[u64], start: u32) -> bool
    requires within { IsTrue (list_all (λ x. nat_lt x (length uses.now)) numbers.now) }
    ensures { result ≡ list_any (is_used uses.now start) numbers.now }
{
    'numbers: for number in numbers {
        let one = uses[*number as usize];
        if one.earliest < start || one.to_come > 0 {
            return true;
        }
    }
    false
}

/// These variables are quantified.
pub(crate) fn quantify_each(uses: &mut Vec<Use>, numbers: &[u64])
    requires within { IsTrue (list_all (λ x. nat_lt x (length uses.old.items)) numbers.now) }
    ensures count { length uses.new.items ≡ length uses.old.items }
    ensures uses { (x : ℕ) → use_at uses.new.items x ≡ use_behind numbers.now uses.old.items x }
{
    'numbers: for number in numbers {
        let variable = *number as usize;
        uses[variable] = quantified(uses[variable]);
    }
}
