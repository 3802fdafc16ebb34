// The commands, with their arguments and texts of help.
use crate::argument::{Argument, Form};
use crate::subcommand::{Subcommand, Texts};

/// The commands, in the order of help.
pub const COMMANDS: [Subcommand<'static>; 9] = [
    SOLVE, CHECK, DRAT, LRAT, TRIM, ARRANGE, ASK, BENCH, MAKE,
];

const SOLVE: Subcommand<'static> = Subcommand {
    name: "solve",
    texts: Texts {
        about: "Decide FILE and write the proof to P",
        usage: "\
bddsat solve FILE --proof P [--lax] [--order F]
                    [--search | --buckets F | --schedule F | --plan PLAN]
                    [--parity] [--max-nodes N] [--max-ids N] [--cache N]
                    [--progress] [--explain]",
        after: "\
Example:
  bddsat solve formula.cnf --search --proof formula.lrat",
    },
    arguments: &[
        FILE, PROOF, LAX, SEARCH, ORDER, BUCKETS, SCHEDULE, PLAN, PARITY, MAX_NODES, MAX_IDS,
        CACHE, PROGRESS, EXPLAIN,
    ],
};

const CHECK: Subcommand<'static> = Subcommand {
    name: "check",
    texts: Texts {
        about: "Check the proof in PROOF that FILE is unsatisfiable",
        usage: "\
bddsat check FILE PROOF [--format FORMAT] [--any-order] [--lax]
                    [--progress] [--explain]",
        after: "\
Examples:
  bddsat check formula.cnf formula.lrat
  bddsat check formula.cnf formula.drat --format drat --any-order",
    },
    arguments: &[FILE, GIVEN_PROOF, FORMAT, ANY_ORDER, LAX, PROGRESS, EXPLAIN],
};

const DRAT: Subcommand<'static> = Subcommand {
    name: "drat",
    texts: Texts {
        about: "Check PROOF, an LRAT proof, and write it in DRAT to P",
        usage: "\
bddsat drat FILE PROOF --out P [--lax] [--fresh] [--progress]
                   [--explain]",
        after: "\
Example:
  bddsat drat formula.cnf formula.lrat --out formula.drat",
    },
    arguments: &[FILE, LRAT_PROOF, DRAT_OUT, LAX, FRESH, PROGRESS, EXPLAIN],
};

const LRAT: Subcommand<'static> = Subcommand {
    name: "lrat",
    texts: Texts {
        about: "Check PROOF, a DRAT proof, and write it in LRAT to P",
        usage: "\
bddsat lrat FILE PROOF --out P [--lax] [--any-order] [--progress]
                   [--explain]",
        after: "\
Example:
  bddsat lrat formula.cnf formula.drat --any-order --out formula.lrat",
    },
    arguments: &[
        FILE, DRAT_PROOF, LRAT_OUT, LAX, ANY_ORDER, PROGRESS, EXPLAIN,
    ],
};

const TRIM: Subcommand<'static> = Subcommand {
    name: "trim",
    texts: Texts {
        about: "Check PROOF, an LRAT proof, and write what it needs to P",
        usage: "\
bddsat trim FILE PROOF --out P [--lax] [--core C] [--progress]
                   [--explain]",
        after: "\
Example:
  bddsat trim formula.cnf formula.lrat --out trimmed.lrat",
    },
    arguments: &[FILE, LRAT_PROOF, TRIMMED_OUT, LAX, CORE, PROGRESS, EXPLAIN],
};

const ARRANGE: Subcommand<'static> = Subcommand {
    name: "order",
    texts: Texts {
        about: "Write an order of FILE's variables, found by METHOD, to F",
        usage: "\
bddsat order FILE --by METHOD --out F [--lax] [--progress] [--explain]",
        after: "\
Example:
  bddsat order formula.cnf --by degree --out formula.order",
    },
    arguments: &[FILE, METHOD, ORDER_OUT, LAX, PROGRESS, EXPLAIN],
};

const ASK: Subcommand<'static> = Subcommand {
    name: "ask",
    texts: Texts {
        about: "Answer the cubes in Q over FILE and write one proof to P",
        usage: "\
bddsat ask FILE --cubes Q --proof P [--lax] [--order F]
                  [--max-nodes N] [--max-ids N] [--cache N]
                  [--progress] [--explain]",
        after: "\
Example:
  bddsat ask formula.cnf --cubes questions.cubes --proof formula.lrat",
    },
    arguments: &[
        FILE, CUBES, PROOF, ORDER, LAX, MAX_NODES, MAX_IDS, CACHE, PROGRESS, EXPLAIN,
    ],
};

const BENCH: Subcommand<'static> = Subcommand {
    name: "bench",
    texts: Texts {
        about: "Decide the mutilated chessboard of N by N and write the proof to P",
        usage: "\
bddsat bench board N --proof P [--max-nodes N] [--max-ids N] [--cache N]
                    [--progress] [--explain]",
        after: "\
Example:
  bddsat bench board 8 --proof board.lrat",
    },
    arguments: &[
        KIND, SIZE, PROOF, MAX_NODES, MAX_IDS, CACHE, PROGRESS, EXPLAIN,
    ],
};

const MAKE: Subcommand<'static> = Subcommand {
    name: "make",
    texts: Texts {
        about: "Write a text of the mutilated chessboard of N by N to F",
        usage: "bddsat make board N --part PART --out F [--explain]",
        after: "\
Example:
  bddsat make board 8 --part cnf --out board.cnf",
    },
    arguments: &[KIND, SIZE, PART, OUT, EXPLAIN],
};

const FILE: Argument<'static> = Argument {
    name: "FILE",
    form: Form::Word,
    help: "The formula, in DIMACS CNF",
};

const PROOF: Argument<'static> = Argument {
    name: "proof",
    form: Form::Needed("P"),
    help: "The proof in LRAT, or its steps so far where a run stops",
};

const LAX: Argument<'static> = Argument {
    name: "lax",
    form: Form::Flag,
    help: "Accept a wrong clause count and a missing last 0",
};

const SEARCH: Argument<'static> = Argument {
    name: "search",
    form: Form::Flag,
    help: "Find both orders by trial runs; try this first",
};

const ORDER: Argument<'static> = Argument {
    name: "order",
    form: Form::Valued("F"),
    help: "A file with the variables' order [default: 1, 2, ..]",
};

const BUCKETS: Argument<'static> = Argument {
    name: "buckets",
    form: Form::Valued("F"),
    help: "A file with the order that the bucket plan goes by",
};

const SCHEDULE: Argument<'static> = Argument {
    name: "schedule",
    form: Form::Valued("F"),
    help: "A file with the plan, as lines of commands c, a, q and e",
};

const PLAN: Argument<'static> = Argument {
    name: "plan",
    form: Form::Valued("PLAN"),
    help: "bucket quantifies early, conjoin never [default: bucket]",
};

const PARITY: Argument<'static> = Argument {
    name: "parity",
    form: Form::Flag,
    help: "Add up parity equations first",
};

const MAX_NODES: Argument<'static> = Argument {
    name: "max-nodes",
    form: Form::Valued("N"),
    help: "Most nodes at once, 0 to 100000000 [default: 10000000]",
};

const MAX_IDS: Argument<'static> = Argument {
    name: "max-ids",
    form: Form::Valued("N"),
    help: "Greatest clause number [default: 1000000000000000]",
};

const CACHE: Argument<'static> = Argument {
    name: "cache",
    form: Form::Valued("N"),
    help: "Entries in each cache, 1 to 100000000 [default: 1000000]",
};

const PROGRESS: Argument<'static> = Argument {
    name: "progress",
    form: Form::Flag,
    help: "Report progress on standard error",
};

const EXPLAIN: Argument<'static> = Argument {
    name: "explain",
    form: Form::Flag,
    help: "Explain on standard error what goes wrong",
};

const GIVEN_PROOF: Argument<'static> = Argument {
    name: "PROOF",
    form: Form::Word,
    help: "The proof, in LRAT or in textual DRAT",
};

const FORMAT: Argument<'static> = Argument {
    name: "format",
    form: Form::Valued("FORMAT"),
    help: "lrat, or drat, which has no hints [default: lrat]",
};

const ANY_ORDER: Argument<'static> = Argument {
    name: "any-order",
    form: Form::Flag,
    help: "DRAT: let a deletion name its literals in any order",
};

const LRAT_PROOF: Argument<'static> = Argument {
    name: "PROOF",
    form: Form::Word,
    help: "The proof, in LRAT",
};

const DRAT_PROOF: Argument<'static> = Argument {
    name: "PROOF",
    form: Form::Word,
    help: "The proof, in textual DRAT",
};

const DRAT_OUT: Argument<'static> = Argument {
    name: "out",
    form: Form::Needed("P"),
    help: "The DRAT proof",
};

const LRAT_OUT: Argument<'static> = Argument {
    name: "out",
    form: Form::Needed("P"),
    help: "The LRAT proof",
};

const TRIMMED_OUT: Argument<'static> = Argument {
    name: "out",
    form: Form::Needed("P"),
    help: "The trimmed proof, made once PROOF is verified",
};

const FRESH: Argument<'static> = Argument {
    name: "fresh",
    form: Form::Flag,
    help: "Give each definition a variable of its own",
};

const CORE: Argument<'static> = Argument {
    name: "core",
    form: Form::Valued("C"),
    help: "The numbers of FILE's clauses that P names, one a line",
};

const METHOD: Argument<'static> = Argument {
    name: "by",
    form: Form::Needed("METHOD"),
    help: "degree, cardinality, levels or profile",
};

const ORDER_OUT: Argument<'static> = Argument {
    name: "out",
    form: Form::Needed("F"),
    help: "The file that the order is written to",
};

const CUBES: Argument<'static> = Argument {
    name: "cubes",
    form: Form::Needed("Q"),
    help: "A file with the cubes: literals, each cube ended by 0",
};

const KIND: Argument<'static> = Argument {
    name: "KIND",
    form: Form::Shown("board"),
    help: "The word board, for the mutilated chessboard",
};

const SIZE: Argument<'static> = Argument {
    name: "SIZE",
    form: Form::Shown("N"),
    help: "The squares a side, 2 to 100",
};

const PART: Argument<'static> = Argument {
    name: "part",
    form: Form::Needed("PART"),
    help: "cnf, or order, schedule or sets, which go by columns",
};

const OUT: Argument<'static> = Argument {
    name: "out",
    form: Form::Needed("F"),
    help: "The file that the text is written to",
};
