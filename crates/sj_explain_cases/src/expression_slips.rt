//! Slips in expressions and blocks.

use crate::slips::{Slip, check_slips};
use std::test::Fail;

const SLIPS: [Slip; 10] = [
    Slip {
        name: "unequal_sign",
        source: b"protocol p { begin.!<int> }
protocol q { begin.?(int) }
party a { let n = 1; if n != 2 { } else { } send x 5; close x; }
party b { recv y n int; close y; }
connect a x p to b y q;
",
        answer: b"syntax P1 at 3:27
not due: no file goes on so there

  3 | party a { let n = 1; if n != 2 { } else { } send x 5; close x; }
    |                           ^

there: `!` stands there
wanted one of: < { == <= + - *
did you mean `not (a == b)`? the language hasn't `!=`
mend: put there what the grammar wants after what stands before
",
    },
    Slip {
        name: "and_in_test",
        source: b"protocol p { begin.!<int> }
protocol q { begin.?(int) }
party a { let n = 1; if 0 < n and n < 5 { } else { } send x 5; close x; }
party b { recv y n int; close y; }
connect a x p to b y q;
",
        answer: b"syntax P1 at 3:31
not due: no file goes on so there

  3 | party a { let n = 1; if 0 < n and n < 5 { } else { } send x 5; close x; }
    |                               ^^^

there: `and` stands there
wanted one of: { + - *
did you mean an `if` inside the `if`? the language hasn't `and`
mend: put there what the grammar wants after what stands before
",
    },
    Slip {
        name: "greater_sign",
        source: b"protocol p { begin.!<int> }
protocol q { begin.?(int) }
party a { let n = 1; if n > 2 { } else { } send x 5; close x; }
party b { recv y n int; close y; }
connect a x p to b y q;
",
        answer: b"syntax P1 at 3:27
not due: no file goes on so there

  3 | party a { let n = 1; if n > 2 { } else { } send x 5; close x; }
    |                           ^

there: `>` stands there
wanted one of: < { == <= + - *
did you mean `b < a` for `a > b`? the language hasn't `>`
mend: put there what the grammar wants after what stands before
",
    },
    Slip {
        name: "single_equal_sign",
        source: b"protocol p { begin.!<int> }
protocol q { begin.?(int) }
party a { let n = 1; if n = 2 { } else { } send x 5; close x; }
party b { recv y n int; close y; }
connect a x p to b y q;
",
        answer: b"syntax P1 at 3:27
not due: no file goes on so there

  3 | party a { let n = 1; if n = 2 { } else { } send x 5; close x; }
    |                           ^

there: `=` stands there
wanted one of: < { == <= + - *
did you mean `==`? a single `=` gives a variable its value
mend: put there what the grammar wants after what stands before
",
    },
    Slip {
        name: "double_equal_sign",
        source: b"protocol p { begin.!<int> }
protocol q { begin.?(int) }
party a { let n == 1; send x n; close x; }
party b { recv y n int; close y; }
connect a x p to b y q;
",
        answer: b"syntax P1 at 3:17
not due: no file goes on so there

  3 | party a { let n == 1; send x n; close x; }
    |                 ^^

there: `==` stands there
wanted one of: =
did you mean `=`? `==` compares two values
mend: put there what the grammar wants after what stands before
",
    },
    Slip {
        name: "minus_before_name",
        source: b"protocol p { begin.!<int> }
protocol q { begin.?(int) }
party a { let n = 5; send x -n; close x; }
party b { recv y n int; close y; }
connect a x p to b y q;
",
        answer: b"syntax P1 at 3:30
not due: no file goes on so there

  3 | party a { let n = 5; send x -n; close x; }
    |                              ^

there: `n` stands there
wanted one of: NUMBER
did you mean `0 - ..`? a `-` that stands first is part of a number
mend: put there what the grammar wants after what stands before
",
    },
    Slip {
        name: "if_without_else",
        source: b"protocol p { begin.!<int> }
protocol q { begin.?(int) }
party a { if true { } send x 5; close x; }
party b { recv y n int; close y; }
connect a x p to b y q;
",
        answer: b"syntax P1 at 3:23
not due: no file goes on so there

  3 | party a { if true { } send x 5; close x; }
    |                       ^^^^

there: `send` stands there
wanted one of: else
did you mean `else { }` before it? each `if` has an `else`
mend: put there what the grammar wants after what stands before
",
    },
    Slip {
        name: "else_if",
        source: b"protocol p { begin.!<int> }
protocol q { begin.?(int) }
party a { let n = 1; if n < 2 { } else if n < 3 { } else { } send x n; close x; }
party b { recv y n int; close y; }
connect a x p to b y q;
",
        answer: b"syntax P1 at 3:40
not due: no file goes on so there

  3 | party a { let n = 1; if n < 2 { } else if n < 3 { } else { } send x n; close x; }
    |                                        ^^

there: `if` stands there
wanted one of: {
did you mean `else { if .. }`? a block has braces
mend: put there what the grammar wants after what stands before
",
    },
    Slip {
        name: "arm_without_braces",
        source: b"protocol p { begin.!{YES:} }
protocol q { begin.?{YES:} }
party a { send x 5; close x; }
party b { inbranch y { YES: close y; } }
connect a x p to b y q;
",
        answer: b"syntax P1 at 4:29
not due: no file goes on so there

  4 | party b { inbranch y { YES: close y; } }
    |                             ^^^^^

there: `close` stands there
wanted one of: {
did you mean `{` before `close`?
mend: put there what the grammar wants after what stands before
",
    },
    Slip {
        name: "no_closing_brace",
        source: b"protocol p { begin.!<int> }
protocol q { begin.?(int) }
party a { send x 5; close x;
party b { recv y n int; close y; }
connect a x p to b y q;
",
        answer: b"syntax P1 at 4:1
not due: no file goes on so there

  4 | party b { recv y n int; close y; }
    | ^^^^^

there: `party` stands there
wanted one of: } accept close delegate if inbranch inwhile let outbranch outwhile recv relay request send
did you mean `}` before it? a brace is still open
mend: put there what the grammar wants after what stands before
",
    },
];

#[test]
fn expression_slips_are_answered(rt: HostRuntime) -> Result<(), Fail> {
    check_slips(&rt, rt.alloc(), &SLIPS)
}
