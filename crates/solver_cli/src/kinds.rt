// What is wrong with a text that is refused, and what is wanted there: a sentence for each kind.
use cube_text::CubeKind;
use dimacs_reader::CnfKind;
use lrat_rules::Reason;
use schedule_plan::{OrderKind, PlanKind};

/// Of a formula.
pub fn cnf_reason(kind: CnfKind) -> &'static str {
    match kind {
        CnfKind::NoHeader => "the first word has to be p, of the header 'p cnf VARIABLES CLAUSES'",
        CnfKind::BadHeader => {
            "the header has to be 'p cnf VARIABLES CLAUSES', with two numbers without signs"
        }
        CnfKind::BadToken => "a literal, or the 0 that ends a clause, has to stand here: a number",
        CnfKind::LiteralRange => "this literal is of a variable above the header's VARIABLES",
        CnfKind::TooManyClauses => {
            "there are more clauses than the header's CLAUSES; --lax accepts a wrong count"
        }
        CnfKind::ClauseMissing => {
            "there are fewer clauses than the header's CLAUSES; --lax accepts a wrong count"
        }
        CnfKind::NoEndingZero => "the last clause lacks its 0; --lax accepts that",
        CnfKind::Limit => {
            "a formula has at most 1000000 variables, 10000000 clauses and 100000000 literals"
        }
    }
}

/// Of an order.
pub fn order_reason(kind: OrderKind) -> &'static str {
    match kind {
        OrderKind::BadNumber => "a variable has to stand here: a number without a sign",
        OrderKind::Range => "this number is no variable of the formula",
        OrderKind::Repeated => "this variable stands in the order already",
        OrderKind::Missing =>
            "the order has to name each variable of the formula, and one is missing",
    }
}

/// Of a schedule.
pub fn plan_reason(kind: PlanKind) -> &'static str {
    match kind {
        PlanKind::Syntax => {
            "the line has to be 'c CLAUSES', 'a N' with N from 2 on, 'q VARIABLES' or 'e VARIABLES'"
        }
        PlanKind::ClauseRange => "the formula has no clause of a number in this line",
        PlanKind::ClauseTwice => "a clause in this line was pushed before",
        PlanKind::StackShort => "the stack has too few terms for this command",
        PlanKind::VariableRange => "the formula has no variable of a number in this line",
        PlanKind::VariableInUse => {
            "a variable in this line is in another term of the stack, or in a clause to be pushed yet"
        }
        PlanKind::ClauseUnused => "at the end a clause of the formula was not pushed",
        PlanKind::TermsLeft => "at the end there is more than one term on the stack",
    }
}

/// Of cubes.
pub fn cube_reason(kind: CubeKind) -> &'static str {
    match kind {
        CubeKind::BadToken => "a literal, or the 0 that ends a cube, has to stand here: a number",
        CubeKind::LiteralRange => "this literal is of a variable that the formula doesn't have",
        CubeKind::BothSigns => "the cube has this literal's negation, too",
        CubeKind::NoEndingZero => "the last cube lacks its 0",
        CubeKind::Limit => "there are at most 1000000 cubes and 100000000 literals",
    }
}

/// Of a proof.
pub fn proof_reason(reason: Reason) -> &'static str {
    match reason {
        Reason::Syntax => "the line is no step of a proof in this format",
        Reason::IdNotGreater => "its number has to be greater than those of all clauses before it",
        Reason::HintNotLive => "a hint names no clause that is live: never added, or deleted",
        Reason::HintNotUnit => "the clause of a hint is neither false nor unit when its turn comes",
        Reason::NoConflict => "the empty clause doesn't follow: no conflict is reached",
        Reason::CandidateOpen => {
            "the clause isn't implied, and a live clause with its first literal's negation isn't refuted"
        }
        Reason::GroupStray =>
            "a group of hints is of a clause without the first literal's negation",
        Reason::NoEmptyClause => "the lines are good, but none adds the empty clause",
    }
}
