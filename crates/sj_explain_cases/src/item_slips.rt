//! Slips in protocols.

use crate::slips::{Slip, check_slips};
use std::test::Fail;

const SLIPS: [Slip; 9] = [
    Slip {
        name: "capital_kind",
        source: b"protocol p { begin.!<string> }
protocol q { begin.?(String) }
party a { send x 5; close x; }
party b { recv y n int; close y; }
connect a x p to b y q;
",
        answer: b"syntax P1 at 1:22
not due: no file goes on so there

  1 | protocol p { begin.!<string> }
    |                      ^^^^^^

there: `string` stands there
wanted one of: ! ? boolean int String
did you mean `String`?
mend: put there what the grammar wants after what stands before
",
    },
    Slip {
        name: "sent_in_parentheses",
        source: b"protocol p { begin.!(int) }
protocol q { begin.?(int) }
party a { send x 5; close x; }
party b { recv y n int; close y; }
connect a x p to b y q;
",
        answer: b"syntax P1 at 1:21
not due: no file goes on so there

  1 | protocol p { begin.!(int) }
    |                     ^

there: `(` stands there
wanted one of: < [ {
did you mean `!<..>`? what is sent stands in `<` and `>`
mend: put there what the grammar wants after what stands before
",
    },
    Slip {
        name: "taken_in_angles",
        source: b"protocol p { begin.!<int> }
protocol q { begin.?<int> }
party a { send x 5; close x; }
party b { recv y n int; close y; }
connect a x p to b y q;
",
        answer: b"syntax P1 at 2:21
not due: no file goes on so there

  2 | protocol q { begin.?<int> }
    |                     ^

there: `<` stands there
wanted one of: ( [ {
did you mean `?(..)`? what is taken stands in `(` and `)`
mend: put there what the grammar wants after what stands before
",
    },
    Slip {
        name: "kind_without_brackets",
        source: b"protocol p { begin.!int }
protocol q { begin.?(int) }
party a { send x 5; close x; }
party b { recv y n int; close y; }
connect a x p to b y q;
",
        answer: b"syntax P1 at 1:21
not due: no file goes on so there

  1 | protocol p { begin.!int }
    |                     ^^^

there: `int` stands there
wanted one of: < [ {
did you mean `!<..>`? what is sent stands in `<` and `>`
mend: put there what the grammar wants after what stands before
",
    },
    Slip {
        name: "comma_between_items",
        source: b"protocol p { begin.!<int>,?(int) }
protocol q { begin.?(int).!<int> }
party a { send x 5; close x; }
party b { recv y n int; close y; }
connect a x p to b y q;
",
        answer: b"syntax P1 at 1:26
not due: no file goes on so there

  1 | protocol p { begin.!<int>,?(int) }
    |                          ^

there: `,` stands there
wanted one of: . }
did you mean `.` in place of `,`?
mend: put there what the grammar wants after what stands before
",
    },
    Slip {
        name: "no_dot_after_begin",
        source: b"protocol p { begin !<int> }
protocol q { begin.?(int) }
party a { send x 5; close x; }
party b { recv y n int; close y; }
connect a x p to b y q;
",
        answer: b"syntax P1 at 1:20
not due: no file goes on so there

  1 | protocol p { begin !<int> }
    |                    ^

there: `!` stands there
wanted one of: . }
did you mean `.` before `!`?
mend: put there what the grammar wants after what stands before
",
    },
    Slip {
        name: "no_begin",
        source: b"protocol p { !<int> }
protocol q { begin.?(int) }
party a { send x 5; close x; }
party b { recv y n int; close y; }
connect a x p to b y q;
",
        answer: b"syntax P1 at 1:14
not due: no file goes on so there

  1 | protocol p { !<int> }
    |              ^

there: `!` stands there
wanted one of: begin
did you mean `begin.` before it? each protocol begins so
mend: put there what the grammar wants after what stands before
",
    },
    Slip {
        name: "no_star",
        source: b"protocol p { begin.![!<int>] }
protocol q { begin.?[?(int)]* }
party a { send x 5; close x; }
party b { recv y n int; close y; }
connect a x p to b y q;
",
        answer: b"syntax P1 at 1:30
not due: no file goes on so there

  1 | protocol p { begin.![!<int>] }
    |                              ^

there: `}` stands there
wanted one of: *
did you mean `*` before `}`?
mend: put there what the grammar wants after what stands before
",
    },
    Slip {
        name: "arm_without_colon",
        source: b"protocol p { begin.!{YES, NO} }
protocol q { begin.?{YES:, NO:} }
party a { send x 5; close x; }
party b { recv y n int; close y; }
connect a x p to b y q;
",
        answer: b"syntax P1 at 1:25
not due: no file goes on so there

  1 | protocol p { begin.!{YES, NO} }
    |                         ^

there: `,` stands there
wanted one of: :
did you mean `:` before `,`?
mend: put there what the grammar wants after what stands before
",
    },
];

#[test]
fn item_slips_are_answered(rt: HostRuntime) -> Result<(), Fail> {
    check_slips(&rt, rt.alloc(), &SLIPS)
}
