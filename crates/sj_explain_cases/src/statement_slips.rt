//! Slips in statements.

use crate::slips::{Slip, check_slips};
use std::test::Fail;

const SLIPS: [Slip; 11] = [
    Slip {
        name: "take_without_kind",
        source: b"protocol p { begin.!<int> }
protocol q { begin.?(int) }
party a { send x 5; close x; }
party b { recv y n; close y; }
connect a x p to b y q;
",
        answer: b"syntax P1 at 4:19
not due: no file goes on so there

  4 | party b { recv y n; close y; }
    |                   ^

there: `;` stands there
wanted one of: boolean int session String
did you mean a kind before `;`? it is `int`, `boolean`, `String`, or `session` and a protocol
mend: put there what the grammar wants after what stands before
",
    },
    Slip {
        name: "misspelt_send",
        source: b"protocol p { begin.!<int> }
protocol q { begin.?(int) }
party a { sned x 5; close x; }
party b { recv y n int; close y; }
connect a x p to b y q;
",
        answer: b"syntax P1 at 3:11
not due: no file goes on so there

  3 | party a { sned x 5; close x; }
    |           ^^^^

there: `sned` stands there
wanted one of: } accept close delegate if inbranch inwhile let outbranch outwhile recv relay request send
did you mean `send`?
mend: put there what the grammar wants after what stands before
",
    },
    Slip {
        name: "no_semicolon",
        source: b"protocol p { begin.!<int> }
protocol q { begin.?(int) }
party a { send x 5 close x; }
party b { recv y n int; close y; }
connect a x p to b y q;
",
        answer: b"syntax P1 at 3:20
not due: no file goes on so there

  3 | party a { send x 5 close x; }
    |                    ^^^^^

there: `close` stands there
wanted one of: ; < == <= + - *
did you mean `;` before `close`?
mend: put there what the grammar wants after what stands before
",
    },
    Slip {
        name: "no_last_semicolon",
        source: b"protocol p { begin.!<int> }
protocol q { begin.?(int) }
party a { send x 5; close x }
party b { recv y n int; close y; }
connect a x p to b y q;
",
        answer: b"syntax P1 at 3:29
not due: no file goes on so there

  3 | party a { send x 5; close x }
    |                             ^

there: `}` stands there
wanted one of: ;
did you mean `;` before `}`?
mend: put there what the grammar wants after what stands before
",
    },
    Slip {
        name: "semicolon_twice",
        source: b"protocol p { begin.!<int> }
protocol q { begin.?(int) }
party a { send x 5;; close x; }
party b { recv y n int; close y; }
connect a x p to b y q;
",
        answer: b"syntax P1 at 3:20
not due: no file goes on so there

  3 | party a { send x 5;; close x; }
    |                    ^

there: `;` stands there
wanted one of: } accept close delegate if inbranch inwhile let outbranch outwhile recv relay request send
did you mean to leave out `;`?
mend: put there what the grammar wants after what stands before
",
    },
    Slip {
        name: "call_with_parentheses",
        source: b"protocol p { begin.!<int> }
protocol q { begin.?(int) }
party a { send(x, 5); close x; }
party b { recv y n int; close y; }
connect a x p to b y q;
",
        answer: b"syntax P1 at 3:15
not due: no file goes on so there

  3 | party a { send(x, 5); close x; }
    |               ^

there: `(` stands there
wanted one of: NAME
did you mean to leave out the parentheses? a statement has none around its words
mend: put there what the grammar wants after what stands before
",
    },
    Slip {
        name: "comma_in_send",
        source: b"protocol p { begin.!<int> }
protocol q { begin.?(int) }
party a { send x, 5; close x; }
party b { recv y n int; close y; }
connect a x p to b y q;
",
        answer: b"syntax P1 at 3:17
not due: no file goes on so there

  3 | party a { send x, 5; close x; }
    |                 ^

there: `,` stands there
wanted one of: ( - NAME NUMBER TEXT false not true
did you mean to leave out `,`?
mend: put there what the grammar wants after what stands before
",
    },
    Slip {
        name: "no_let",
        source: b"protocol p { begin.!<int> }
protocol q { begin.?(int) }
party a { n = 5; send x n; close x; }
party b { recv y n int; close y; }
connect a x p to b y q;
",
        answer: b"syntax P1 at 3:11
not due: no file goes on so there

  3 | party a { n = 5; send x n; close x; }
    |           ^

there: `n` stands there
wanted one of: } accept close delegate if inbranch inwhile let outbranch outwhile recv relay request send
did you mean `let` before `n`?
mend: put there what the grammar wants after what stands before
",
    },
    Slip {
        name: "reserved_name",
        source: b"protocol p { begin.!<int> }
protocol q { begin.?(int) }
party a { let to = 5; send x to; close x; }
party b { recv y n int; close y; }
connect a x p to b y q;
",
        answer: b"syntax P1 at 3:15
not due: no file goes on so there

  3 | party a { let to = 5; send x to; close x; }
    |               ^^

there: `to` stands there
wanted one of: NAME
did you mean a name in place of `to`?
mend: put there what the grammar wants after what stands before
",
    },
    Slip {
        name: "bool_for_boolean",
        source: b"protocol p { begin.!<int> }
protocol q { begin.?(int) }
party a { send x 5; close x; }
party b { recv y n bool; close y; }
connect a x p to b y q;
",
        answer: b"syntax P1 at 4:20
not due: no file goes on so there

  4 | party b { recv y n bool; close y; }
    |                    ^^^^

there: `bool` stands there
wanted one of: boolean int session String
did you mean `boolean`?
mend: put there what the grammar wants after what stands before
",
    },
    Slip {
        name: "label_in_quotes",
        source: b"protocol p { begin.!{YES:} }
protocol q { begin.?{YES:} }
party a { outbranch x \"YES\"; close x; }
party b { recv y n int; close y; }
connect a x p to b y q;
",
        answer: b"syntax P1 at 3:23
not due: no file goes on so there

  3 | party a { outbranch x \"YES\"; close x; }
    |                       ^^^^^

there: `\"YES\"` stands there
wanted one of: NAME
did you mean a name in place of `\"YES\"`?
mend: put there what the grammar wants after what stands before
",
    },
];

#[test]
fn statement_slips_are_answered(rt: HostRuntime) -> Result<(), Fail> {
    check_slips(&rt, rt.alloc(), &SLIPS)
}
