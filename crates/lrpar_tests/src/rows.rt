//! Lines, and what they yield.

use crate::lexer::NO_TOKEN;
use lrpar::flat::Visit;

/// What is shown of a line.
#[derive(Clone, Copy)]
pub enum Shown {
    /// The value by functions of productions.
    Value,
    /// That value, and what the parse asked for.
    Asked,
    /// What each call that parses yields.
    Each,
    /// The text of the tree over an input, and the children of nodes.
    Tree(&'static str, &'static [Visit]),
    /// Whether the list of nodes gives the tree by rules.
    OneTree,
}

/// A line: the text of a grammar, tokens with their starts and lengths, sequences of repairs, what is shown, and what it is.
pub type Row = (
    &'static str,
    &'static [(u8, u16, u16)],
    Option<&'static str>,
    Shown,
    &'static str,
);

const SUMS: &str = "%start E %% E: T '+' E | T; T: 'ID';";

const TAILS: &str = "%start S %% S: 'a' A 't' | 'a' B | 'b' A 'u' | 'b' B; A: 'q'; B: 'q' 'x';";

const LIST: &str = "%start S %% S: L; L: 'ID' | ;";

const CALL: &str = "%% Call: 'ID' '(' ')';";

const EXPR: &str =
    "%start Expr %% Expr : Expr '+' Term | Term; Term : Term '*' Factor | Factor; Factor : 'INT';";

const SUM_TOLD: &str = "0:1[0,3]( 2:2[0,1]( 1@0 ) 0@1 1:1[2,3]( 2:2[2,3]( 1@2 ) ) )
1@0 2/1 0@1 1@2 2/1 1/1 1/3
1@0 2:2[0,1]/1 0@1 1@2 2:2[2,3]/1 1:1[2,3]/1 0:1[0,3]/3
1/3 2/1 1@0 0@1 1/1 2/1 1@2
1/3 2/1 1@0 0@1 1/1 2/1 1@2
1@0 2[0,1]/1 0@1 1@2 2[2,3]/1 1[2,3]/2 0[0,3]/6  6.0 1.1 0.2 2.1 5.1 4.2 3.3
";

const AFTER_TOLD: &str = "0:1[0,1]( 0@0 1:2[0,1]( ) )
0@0 2/0 1/2
0@0 1:2[0,1]/0 0:1[0,1]/2
1/2 0@0 2/0
1/2 0@0 2/0
0@0 1[0,1]/0 0[0,1]/2  2.0 0.1 1.1
";

const EMPTY_TOLD: &str = "0:1[0,0]( 2:2[0,0]( ) )
2/0 1/1
2:2[0,0]/0 0:1[0,0]/1
1/1 2/0
1/1 2/0
2[0,0]/0 0[0,0]/1  1.0 0.1
";

const CUT_SUM: &str = "none; error at 2@4+0 faulty
none; error at 2@4+0 faulty
none; error at 2@4+0 faulty
none; error at 2@4+0 faulty
none; error at 2@4+0 faulty
none; error at 2@4+0 faulty
; error at 2@4+0 faulty";

const SECOND_PLUS: &str = "none; error at 0@5+1
none; error at 0@5+1
none; error at 0@5+1
none; error at 0@5+1
none; error at 0@5+1
none; error at 0@5+1
; error at 0@5+1";

const FAULTY: &str = "none; fault at 3
none; fault at 3
none; fault at 3
none; fault at 3
none; fault at 3
none; fault at 3
; fault at 3";

const OUTSIDE: &str = "LexemeOutside: outside 0
LexemeOutside: outside 0
LexemeOutside: outside 0
LexemeOutside: outside 0
LexemeOutside: outside 0
LexemeOutside: outside 0
LexemeOutside: outside 0";

const DECREASES: &str = "StartDecreases: decreases 1
StartDecreases: decreases 1
StartDecreases: decreases 1
StartDecreases: decreases 1
StartDecreases: decreases 1
StartDecreases: decreases 1
StartDecreases: decreases 1";

const MENDED_SUM: &str =
    "0:1[0,4]( 2:2[0,2]( 1@0 ) 0@3 1:1[4,4]( 2:2[4,4]( 1@4 ) ) ); error at 2@4+0 faulty, insert 1
1@0 2/1 0@3 1@4 2/1 1/1 1/3; error at 2@4+0 faulty, insert 1
1@0 2:2[0,2]/1 0@3 1@4 2:2[4,4]/1 1:1[4,4]/1 0:1[0,4]/3; error at 2@4+0 faulty, insert 1
1/3 2/1 1@0 0@3 1/1 2/1 1@4; error at 2@4+0 faulty, insert 1
1/3 2/1 1@0 0@3 1/1 2/1 1@4; error at 2@4+0 faulty, insert 1
1@0 2[0,2]/1 0@3 1@4 2[4,4]/1 1[4,4]/2 0[0,4]/6  6.0 1.1 0.2 2.1 5.1 4.2 3.3; error at 2@4+0 faulty, insert 1
; error at 2@4+0 faulty, insert 1";

const MENDED_TAIL: &str = "0:1[0,4]( 0@0 4:2[2,3]( 4@2 ) 1@4 ); error at 3@4+1, insert 1 delete 3@4
0@0 4@2 2/1 1@4 1/3; error at 3@4+1, insert 1 delete 3@4
0@0 4@2 4:2[2,3]/1 1@4 0:1[0,4]/3; error at 3@4+1, insert 1 delete 3@4
1/3 0@0 2/1 4@2 1@4; error at 3@4+1, insert 1 delete 3@4
1/3 0@0 2/1 4@2 1@4; error at 3@4+1, insert 1 delete 3@4
0@0 4@2 4[2,3]/1 1@4 0[0,4]/4  4.0 0.1 2.1 1.2 3.1; error at 3@4+1, insert 1 delete 3@4
; error at 3@4+1, insert 1 delete 3@4";

const NODES: &[Visit] = &[
    Visit {
        index: 12,
        depth: 0,
    },
    Visit {
        index: 11,
        depth: 1,
    },
    Visit { index: 4, depth: 1 },
];

const TREE_WITH_CHILDREN: &str =
    "Expr\n Expr\n  Term\n   Factor\n    INT 2\n + +\n Term\n  Term\n   Factor\n    INT \u{E9}\n  * *\n  Factor\n   INT 4\n[Visit { index: 3, depth: 1 }, Visit { index: 4, depth: 1 }, Visit { index: 11, depth: 1 }]\n[Visit { index: 7, depth: 2 }, Visit { index: 8, depth: 2 }, Visit { index: 10, depth: 2 }]\n[]\n";

/// What lines yield.
pub const LINES: &[Row] = &[
    // By each call.
    (
        SUMS,
        &[(1, 0, 1), (0, 1, 1), (1, 2, 1)],
        None,
        Shown::Each,
        SUM_TOLD,
    ),
    (
        "%start S %% S: 'a' L; L: ;",
        &[(0, 0, 1)],
        None,
        Shown::Each,
        AFTER_TOLD,
    ),
    (LIST, &[], None, Shown::Each, EMPTY_TOLD),
    (SUMS, &[(1, 0, 2), (0, 3, 1)], None, Shown::Each, CUT_SUM),
    (
        SUMS,
        &[(1, 0, 2), (0, 3, 1), (0, 5, 1), (1, 7, 2)],
        Some("s"),
        Shown::Each,
        SECOND_PLUS,
    ),
    (
        SUMS,
        &[(1, 0, 2), (NO_TOKEN, 3, 1), (NO_TOKEN, 5, 2)],
        Some("d"),
        Shown::Each,
        FAULTY,
    ),
    // The end token, a number past the tokens, a start before the last one.
    (SUMS, &[(2, 0, 1)], None, Shown::Each, OUTSIDE),
    (SUMS, &[(3, 0, 1)], None, Shown::Each, OUTSIDE),
    (SUMS, &[(1, 4, 1), (0, 2, 1)], None, Shown::Each, DECREASES),
    // `ID +`, where one of two sequences can be taken.
    (
        SUMS,
        &[(1, 0, 2), (0, 3, 1)],
        Some("d 1"),
        Shown::Each,
        MENDED_SUM,
    ),
    // `a q u`, where `A: 'q'` was reduced before the error.
    (
        TAILS,
        &[(0, 0, 1), (4, 2, 1), (3, 4, 1)],
        Some("5d 1d"),
        Shown::Each,
        MENDED_TAIL,
    ),
    // `ID + + ID`.
    (
        SUMS,
        &[(1, 0, 2), (0, 3, 1), (0, 5, 1), (1, 7, 2)],
        None,
        Shown::Value,
        "none; error at 0@5+1",
    ),
    // `ID +`, where one of several sequences can be taken.
    (
        SUMS,
        &[(1, 0, 2), (0, 3, 1)],
        Some(" 2 c s d 101"),
        Shown::Value,
        "0:1[0,4]( 2:2[0,2]( 1@0 ) 0@3 0:1[4,4]( 2:2[4,4]( 1@4 ) 0@4 1:1[4,4]( 2:2[4,4]( 1@4 ) ) ) ); error at 2@4+0 faulty, insert 1 insert 0 insert 1",
    ),
    // `x`.
    (
        LIST,
        &[(0, 0, 1)],
        None,
        Shown::Value,
        "0:1[0,1]( 1:2[0,1]( 0@0 ) )",
    ),
    // `a x z`, where the reduction that is kept lets `y` alone follow.
    (
        "%start S %% S: A 'x' 'y' | B 'x' 'z'; A: 'a'; B: 'a';",
        &[(3, 0, 1), (0, 2, 1), (2, 4, 1)],
        None,
        Shown::Value,
        "none; error at 2@4+1",
    ),
    // `a u`, behind which comes no end.
    (
        "%start S %% S: 'a' U | 'b'; U: 'u' U;",
        &[(0, 0, 1), (2, 2, 1)],
        None,
        Shown::Value,
        "none; error at 3@3+0 faulty",
    ),
    // `f()`, `f(`, `f(f(`.
    (
        CALL,
        &[(0, 0, 1), (1, 1, 1), (2, 2, 1)],
        None,
        Shown::Value,
        "0:1[0,3]( 0@0 1@1 2@2 )",
    ),
    (
        CALL,
        &[(0, 0, 1), (1, 1, 1)],
        None,
        Shown::Value,
        "none; error at 3@2+0 faulty",
    ),
    (
        CALL,
        &[(0, 0, 1), (1, 1, 1), (0, 2, 1), (1, 3, 1)],
        None,
        Shown::Value,
        "none; error at 0@2+1",
    ),
    // `2+3*4`, `2*3+4`.
    (
        EXPR,
        &[(2, 0, 1), (0, 1, 1), (2, 2, 1), (1, 3, 1), (2, 4, 1)],
        None,
        Shown::Value,
        "0:1[0,5]( 1:1[0,1]( 3:2[0,1]( 4:3[0,1]( 2@0 ) ) ) 0@1 2:2[2,5]( 3:2[2,3]( 4:3[2,3]( 2@2 ) ) 1@3 4:3[4,5]( 2@4 ) ) )",
    ),
    (
        EXPR,
        &[(2, 0, 1), (1, 1, 1), (2, 2, 1), (0, 3, 1), (2, 4, 1)],
        None,
        Shown::Value,
        "0:1[0,5]( 1:1[0,3]( 2:2[0,3]( 3:2[0,1]( 4:3[0,1]( 2@0 ) ) 1@1 4:3[2,3]( 2@2 ) ) ) 0@3 3:2[4,5]( 4:3[4,5]( 2@4 ) ) )",
    ),
    // Each is asked once, and the lexemes as repaired yield the same by themselves. `ID + + ID ID`, where a lexeme is deleted at each
    // error.
    (
        SUMS,
        &[(1, 0, 2), (0, 3, 1), (0, 5, 1), (1, 7, 2), (1, 10, 2)],
        Some("d"),
        Shown::Asked,
        "0:1[0,9]( 2:2[0,2]( 1@0 ) 0@3 1:1[7,9]( 2:2[7,9]( 1@7 ) ) ); error at 0@5+1, delete 0@5; error at 1@10+2, delete 1@10; asked 35 212 3321",
    ),
    (
        SUMS,
        &[(1, 0, 2), (0, 3, 1), (1, 7, 2)],
        None,
        Shown::Value,
        "0:1[0,9]( 2:2[0,2]( 1@0 ) 0@3 1:1[7,9]( 2:2[7,9]( 1@7 ) ) )",
    ),
    // `ID +`, where one of several sequences inserts an `ID` at the end.
    (
        SUMS,
        &[(1, 0, 2), (0, 3, 1)],
        Some("s d 1 101"),
        Shown::Asked,
        "0:1[0,4]( 2:2[0,2]( 1@0 ) 0@3 1:1[4,4]( 2:2[4,4]( 1@4 ) ) ); error at 2@4+0 faulty, insert 1, insert 1 insert 0 insert 1; asked 3 212 3321",
    ),
    (
        SUMS,
        &[(1, 0, 2), (0, 3, 1), (1, 4, 0)],
        None,
        Shown::Value,
        "0:1[0,4]( 2:2[0,2]( 1@0 ) 0@3 1:1[4,4]( 2:2[4,4]( 1@4 ) ) )",
    ),
    // `a q u`, where `A: 'q'` was reduced before the error at `u`, which `t` replaces.
    (
        TAILS,
        &[(0, 0, 1), (4, 2, 1), (3, 4, 1)],
        Some("5d 1d"),
        Shown::Asked,
        "0:1[0,4]( 0@0 4:2[2,3]( 4@2 ) 1@4 ); error at 3@4+1, insert 1 delete 3@4; asked 3 152 51",
    ),
    (
        TAILS,
        &[(0, 0, 1), (4, 2, 1), (1, 4, 0)],
        None,
        Shown::Value,
        "0:1[0,4]( 0@0 4:2[2,3]( 4@2 ) 1@4 )",
    ),
    // Texts of trees.
    (
        EXPR,
        &[(2, 0, 1), (0, 1, 1), (2, 2, 2), (1, 4, 1), (2, 5, 1)],
        None,
        Shown::Tree("2+\u{E9}*4", NODES),
        TREE_WITH_CHILDREN,
    ),
    (
        EXPR,
        &[(2, 0, 1), (0, 1, 1), (2, 2, 1), (1, 3, 1), (2, 4, 1)],
        None,
        Shown::Tree("2+3*4", &[]),
        "Expr\n Expr\n  Term\n   Factor\n    INT 2\n + +\n Term\n  Term\n   Factor\n    INT 3\n  * *\n  Factor\n   INT 4\n",
    ),
    (
        EXPR,
        &[(2, 0, 1), (1, 1, 1), (2, 2, 1), (0, 3, 1), (2, 4, 1)],
        None,
        Shown::Tree("2*3+4", &[]),
        "Expr\n Expr\n  Term\n   Term\n    Factor\n     INT 2\n   * *\n   Factor\n    INT 3\n + +\n Term\n  Factor\n   INT 4\n",
    ),
    (
        CALL,
        &[(0, 0, 1), (1, 1, 1), (2, 2, 1)],
        None,
        Shown::Tree("f()", &[]),
        "Call\n ID f\n ( (\n ) )\n",
    ),
    (
        CALL,
        &[(0, 0, 1), (1, 1, 1)],
        None,
        Shown::Tree("f(", &[]),
        "no tree",
    ),
    (
        LIST,
        &[(0, 0, 1)],
        None,
        Shown::Tree("x", &[]),
        "S\n L\n  ID x\n",
    ),
    (LIST, &[], None, Shown::Tree("", &[]), "S\n L\n"),
    // A list of nodes, and the tree by rules that it gives.
    (
        "%start S %% S: 'a' E S 'b' | E T E; E: ; T: 'c' | T 'c';",
        &[
            (0, 0, 1),
            (0, 1, 1),
            (2, 2, 1),
            (2, 3, 1),
            (1, 4, 1),
            (1, 5, 1),
        ],
        None,
        Shown::OneTree,
        "one tree: true",
    ),
];
