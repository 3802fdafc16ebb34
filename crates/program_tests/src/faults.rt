// One call of the host fails, each in turn: how the run ends, and what stands then. A call moves at most 8 bytes.
use crate::support::{ended, expect_same, halves, number_of, role_of};
use std::alloc::Global;
use std::process::Abort;
use std::test::Fail;

// Behind words and the role and number of the call that fails: the status, standard output, the file that is made, standard error.
// The first words are of a formula with an empty clause. An order is opened and read at its end, a schedule is read in one piece
// before. The formula of `check` is opened, read in three pieces, and read again at its end; the proof is read in two pieces; the
// verdict is written in two pieces and flushed; of a refused proof there are two lines. Behind a bad line no read follows. Where a proof
// is converted, a step is written once a token of a later line, or the end, was read; the verdict comes behind the flush. The board
// without dominoes has a text of 14 bytes; decided, its line, that of the last identifier and the answer are written in pieces and flushed.
const FAULTS: &str = "\
bddsat solve empty --proof out.lrat
Cnf 1;ReadFault||none|error: read failed/
Cnf 2;ReadFault||none|error: read failed/
ProofOut 1;WriteFault||none|error: write failed/
ProofOut 2;WriteFault|||error: write failed/
ProofOut 3;WriteFault||2 0 1 0/|error: write failed/
ProofOut 4;Unsat|s UNSATISFIABLE/|2 0 1 0/|
Out 1;WriteFault||2 0 1 0/|error: write failed/
Out 2;WriteFault|s UNSATI|2 0 1 0/|error: write failed/
Out 3;WriteFault|s UNSATISFIABLE/|2 0 1 0/|error: write failed/
Out 4;Unsat|s UNSATISFIABLE/|2 0 1 0/|
Err 1;Unsat|s UNSATISFIABLE/|2 0 1 0/|
bddsat solve empty --proof out.lrat --order order --schedule schedule
Cnf 4;ReadFault||none|error: read failed/
Order 1;ReadFault||none|error: read failed/
Order 2;ReadFault||none|error: read failed/
Order 3;Unsat|s UNSATISFIABLE/|2 0 1 0/|
Schedule 1;ReadFault||none|error: read failed/
Schedule 2;ReadFault||none|error: read failed/
Schedule 3;ReadFault||none|error: read failed/
Schedule 4;Unsat|s UNSATISFIABLE/|2 0 1 0/|
ProofOut 1;WriteFault||none|error: write failed/
bddsat check both good
Cnf 1;ReadFault||none|error: read failed/
Cnf 2;ReadFault||none|error: read failed/
Cnf 3;ReadFault||none|error: read failed/
Cnf 4;ReadFault||none|error: read failed/
Cnf 5;ReadFault||none|error: read failed/
Cnf 6;Verified|s VERIFIED/|none|
ProofIn 1;ReadFault||none|error: read failed/
ProofIn 2;ReadFault||none|error: read failed/
ProofIn 3;ReadFault||none|error: read failed/
ProofIn 4;ReadFault||none|error: read failed/
ProofIn 5;Verified|s VERIFIED/|none|
Out 1;WriteFault||none|error: write failed/
Out 2;WriteFault|s VERIFI|none|error: write failed/
Out 3;WriteFault|s VERIFIED/|none|error: write failed/
Out 4;Verified|s VERIFIED/|none|
Err 1;Verified|s VERIFIED/|none|
bddsat check both bad
Out 1;WriteFault||none|error: write failed/
Out 2;WriteFault|c line |none|error: write failed/
Out 3;WriteFault|c line 1|none|error: write failed/
Out 4;WriteFault|c line 1 |none|error: write failed/
Out 5;WriteFault|c line 1 NoConfli|none|error: write failed/
Out 6;WriteFault|c line 1 NoConflict|none|error: write failed/
Out 7;WriteFault|c line 1 NoConflict/s NOT V|none|error: write failed/
Out 8;WriteFault|c line 1 NoConflict/s NOT VERIFIED/|none|error: write failed/
Out 9;NotVerified(1, NoConflict)|c line 1 NoConflict/s NOT VERIFIED/|none|
bddsat check both early
ProofIn 3;ReadFault||none|error: read failed/
ProofIn 4;NotVerified(1, NoConflict)|c line 1 NoConflict/s NOT VERIFIED/|none|
bddsat drat both good --out out.lrat
Cnf 5;ReadFault||none|error: read failed/
ProofIn 1;ReadFault||none|error: read failed/
ProofIn 2;ReadFault|||error: read failed/
ProofIn 3;ReadFault|||error: read failed/
ProofIn 4;ReadFault|||error: read failed/
ProofIn 5;Verified|s VERIFIED/|0/|
ProofOut 1;WriteFault||none|error: write failed/
ProofOut 2;WriteFault|||error: write failed/
ProofOut 3;WriteFault||0/|error: write failed/
ProofOut 4;Verified|s VERIFIED/|0/|
Out 1;WriteFault||0/|error: write failed/
Out 2;WriteFault|s VERIFI|0/|error: write failed/
Out 3;WriteFault|s VERIFIED/|0/|error: write failed/
Out 4;Verified|s VERIFIED/|0/|
bddsat drat both worse --out out.lrat
ProofIn 3;ReadFault|||error: read failed/
ProofIn 4;ReadFault||0/|error: read failed/
ProofIn 5;ReadFault||0/|error: read failed/
ProofIn 6;NotVerified(2, HintNotLive)|c line 2 HintNotLive/s NOT VERIFIED/|0/|
bddsat lrat both plain --out out.lrat
ProofIn 1;ReadFault||none|error: read failed/
ProofIn 2;ReadFault|||error: read failed/
ProofOut 1;WriteFault||none|error: write failed/
Out 1;WriteFault||3 0 1 2 0/|error: write failed/
Out 4;Verified|s VERIFIED/|3 0 1 2 0/|
bddsat trim both good --out out.lrat
Cnf 5;ReadFault||none|error: read failed/
ProofIn 1;ReadFault||none|error: read failed/
ProofIn 2;ReadFault||none|error: read failed/
ProofIn 3;ReadFault||none|error: read failed/
ProofIn 4;ReadFault||none|error: read failed/
ProofOut 1;WriteFault||none|error: write failed/
ProofOut 2;WriteFault|||error: write failed/
Out 1;WriteFault||3 0 1 2 0/|error: write failed/
bddsat trim both good --out out.lrat --core core
ProofOut 1;WriteFault||none|error: write failed/
Made 1;WriteFault||3 0 1 2 0/|error: write failed/
Made 2;WriteFault||3 0 1 2 0/|error: write failed/
Out 1;WriteFault||3 0 1 2 0/|error: write failed/
bddsat trim both worse --out out.lrat
ProofIn 5;ReadFault||none|error: read failed/
ProofIn 6;NotVerified(2, HintNotLive)|c line 2 HintNotLive/s NOT VERIFIED/|none|
bddsat make board 2 --part cnf --out out.lrat
Made 1;WriteFault||none|error: write failed/
Made 2;WriteFault|||error: write failed/
Made 3;WriteFault||p cnf 0 |error: write failed/
Made 4;WriteFault||p cnf 0 2/0/0/|error: write failed/
Made 5;Done||p cnf 0 2/0/0/|
ProofOut 1;Done||p cnf 0 2/0/0/|
bddsat bench board 2 --proof out.lrat
ProofOut 1;WriteFault||none|error: write failed/
ProofOut 3;WriteFault||3 0 1 0/|error: write failed/
Out 1;WriteFault||3 0 1 0/|error: write failed/
Out 10;WriteFault|c board 2 variables 0 clauses 2/|3 0 1 0/|error: write failed/
Out 15;WriteFault|c board 2 variables 0 clauses 2/c last identifier 3/|3 0 1 0/|error: write failed/
Out 17;WriteFault|c board 2 variables 0 clauses 2/c last identifier 3/s UNSATISFIABLE/|3 0 1 0/|error: write failed/
Out 18;Unsat|c board 2 variables 0 clauses 2/c last identifier 3/s UNSATISFIABLE/|3 0 1 0/|";

fn expect_row(rt: &impl Abort, alloc: Global, line: &str, row: &str) -> Result<(), Fail> {
    let (call, expected) = halves(row, ';');
    let found = ended(alloc, line, 8, role_of(call), number_of(call))?;
    expect_same(rt, found.as_str(), expected, row);
    Ok(())
}

fn expect_rows(rt: &impl Abort, alloc: Global, rows: &str) -> Result<(), Fail> {
    let mut line = "";
    for row in rows.lines() {
        if row.starts_with("bddsat ") {
            line = row;
        } else {
            expect_row(rt, alloc, line, row)?;
        }
    }
    Ok(())
}

#[test]
fn faults(rt: HostRuntime) -> Result<(), Fail> {
    expect_rows(&rt, rt.alloc(), FAULTS)
}
