//! Slips in the parts of a file, in tokens and at limits, and accepted files that warn.

use crate::slips::{Slip, check_slips};
use std::test::Fail;

const SLIPS: [Slip; 13] = [
    Slip {
        name: "party_without_name",
        source: b"protocol p { begin.!<int> }
protocol q { begin.?(int) }
party { send x 5; close x; }
party b { recv y n int; close y; }
connect a x p to b y q;
",
        answer: b"syntax P1 at 3:7
not due: no file goes on so there

  3 | party { send x 5; close x; }
    |       ^

there: `{` stands there
wanted one of: NAME
did you mean a name before `{`?
mend: put there what the grammar wants after what stands before
",
    },
    Slip {
        name: "connect_without_to",
        source: b"protocol p { begin.!<int> }
protocol q { begin.?(int) }
party a { send x 5; close x; }
party b { recv y n int; close y; }
connect a x p b y q;
",
        answer: b"syntax P1 at 5:15
not due: no file goes on so there

  5 | connect a x p b y q;
    |               ^

there: `b` stands there
wanted one of: to
did you mean `to` before `b`?
mend: put there what the grammar wants after what stands before
",
    },
    Slip {
        name: "party_after_connection",
        source: b"protocol p { begin.!<int> }
protocol q { begin.?(int) }
party a { send x 5; close x; }
connect a x p to b y q;
party b { recv y n int; close y; }
",
        answer: b"syntax P1 at 5:1
not due: no file goes on so there

  5 | party b { recv y n int; close y; }
    | ^^^^^

there: `party` stands there
wanted one of: connect END
did you mean to put it further up? protocols stand first, then parties, then connections
mend: put there what the grammar wants after what stands before
",
    },
    Slip {
        name: "hash_comment",
        source: b"# numbers
protocol p { begin.!<int> }
protocol q { begin.?(int) }
party a { send x 5; close x; }
party b { recv y n int; close y; }
connect a x p to b y q;
",
        answer: b"syntax P2 at 1:1
no token: a byte begins no token, or may not stand in a text or a comment

  1 | # numbers
    | ^

did you mean `//`? a comment begins so
mend: take the byte out; a text has bytes 32 to 126 without \" and \\
",
    },
    Slip {
        name: "c_comment",
        source: b"/* numbers */
protocol p { begin.!<int> }
protocol q { begin.?(int) }
party a { send x 5; close x; }
party b { recv y n int; close y; }
connect a x p to b y q;
",
        answer: b"syntax P2 at 1:1
no token: a byte begins no token, or may not stand in a text or a comment

  1 | /* numbers */
    | ^

did you mean `//`? a comment begins so, and ends with its line
mend: take the byte out; a text has bytes 32 to 126 without \" and \\
",
    },
    Slip {
        name: "two_ampersands",
        source: b"protocol p { begin.!<int> }
protocol q { begin.?(int) }
party a { if true && false { } else { } send x 5; close x; }
party b { recv y n int; close y; }
connect a x p to b y q;
",
        answer: b"syntax P2 at 3:19
no token: a byte begins no token, or may not stand in a text or a comment

  3 | party a { if true && false { } else { } send x 5; close x; }
    |                   ^

did you mean an `if` inside the `if`? the language hasn't `and`
mend: take the byte out; a text has bytes 32 to 126 without \" and \\
",
    },
    Slip {
        name: "single_quotes",
        source: b"protocol p { begin.!<String> }
protocol q { begin.?(String) }
party a { send x 'hi'; close x; }
party b { recv y n String; close y; }
connect a x p to b y q;
",
        answer: b"syntax P2 at 3:18
no token: a byte begins no token, or may not stand in a text or a comment

  3 | party a { send x 'hi'; close x; }
    |                  ^

did you mean `\"`? a text stands in these
mend: take the byte out; a text has bytes 32 to 126 without \" and \\
",
    },
    Slip {
        name: "leading_zero",
        source: b"protocol p { begin.!<int> }
protocol q { begin.?(int) }
party a { send x 05; close x; }
party b { recv y n int; close y; }
connect a x p to b y q;
",
        answer: b"syntax P3 at 3:18
no number: a number has a leading zero, or is out of its range

  3 | party a { send x 05; close x; }
    |                  ^

mend: write it without the zero, up to 9223372036854775807
",
    },
    Slip {
        name: "open_text",
        source: b"protocol p { begin.!<int> }
protocol q { begin.?(int) }
party a { send x \"hi; close x; }
party b { recv y n int; close y; }
connect a x p to b y q;
",
        answer: b"syntax P5 at 3:18
open text: a text has no closing quote on its line

  3 | party a { send x \"hi; close x; }
    |                  ^

mend: put the closing quote on the same line
",
    },
    Slip {
        name: "long_name",
        source: b"protocol p { begin.!<int> }
protocol q { begin.?(int) }
party a_party_whose_name_is_somewhat_longer_than_the_sixty_four_bytes_of_a_name { }
party b { recv y n int; close y; }
connect a x p to b y q;
",
        answer: b"syntax P4 at 3:7
past a limit: a token passes a limit

  3 | party a_party_whose_name_is_somewhat_longer_than_the_sixty_four_bytes_of_a_name { }
    |       ^^^^^^^^^^^^^^^^^^^^^^^^^^^^^^^^^^^^^^^^^^^^^^^^^^^^^^^^^^^^^^^^^^^^^^^^^

there: a name has at most 64 bytes
mend: shorten the name or the text, or have fewer of these
",
    },
    Slip {
        name: "too_many_labels",
        source: b"protocol p { begin.!{A:, B:, C:, D:, E:, F:, G:, H:, I:, J:, K:, L:, M:, N:, O:, P:, Q:} }
",
        answer: b"syntax P4 at 1:86
past a limit: a token passes a limit

  1 | protocol p { begin.!{A:, B:, C:, D:, E:, F:, G:, H:, I:, J:, K:, L:, M:, N:, O:, P:, Q:} }
    |                                                                                      ^

there: a choice has at most 16 labels
mend: shorten the name or the text, or have fewer of these
",
    },
    Slip {
        name: "cut_loop",
        source: b"protocol p { begin.![!<int>]* }
protocol q { begin.?[?(int)]* }
party a { let n = 500 * 3; outwhile x n { send x n; } close x; }
party b { inwhile y { recv y n int; } close y; }
connect a x p to b y q;
",
        answer: b"accepted parties 2 sessions 1

session 0, connected on line 5
  a x p { begin.![!<int>]* }
  b y q { begin.?[?(int)]* }
  the two are duals

ends done: each party comes to its end

warning line 3: the loop's count is 1500, and it is cut to 1000 turns
",
    },
    Slip {
        name: "wrapped_count",
        source: b"protocol p { begin.![!<int>]* }
protocol q { begin.?[?(int)]* }
party a {
  let n = 9223372036854775807;
  outwhile x n + 1 { send x n; }
  close x;
}
party b { inwhile y { recv y n int; } close y; }
connect a x p to b y q;
",
        answer: b"accepted parties 2 sessions 1

session 0, connected on line 9
  a x p { begin.![!<int>]* }
  b y q { begin.?[?(int)]* }
  the two are duals

ends done: each party comes to its end

warning line 5: the loop's count wraps to -9223372036854775808, so it has 0 turns
",
    },
];

#[test]
fn file_slips_are_answered(rt: HostRuntime) -> Result<(), Fail> {
    check_slips(&rt, rt.alloc(), &SLIPS)
}
