//! What the program prints of files that tests share.

// The transcript of the first session.
pub(crate) const FIRST_TRANSCRIPT: &str = "session 0 a x b y\n\
    0.0 0 a b int 5\n\
    party a ended 2\n\
    party b ended 2\n\
    done\n";

// That of the agency.
pub(crate) const AGENCY_TRANSCRIPT: &str = "session 0 customer x agency y\n\
    0.0 0 customer agency more\n\
    0.0 1 customer agency String \"Paris\"\n\
    0.0 2 customer agency more\n\
    0.0 3 customer agency String \"Paris\"\n\
    0.0 4 customer agency stop\n\
    0.0 5 customer agency label ACCEPT\n\
    0.0 6 customer supplier String \"1 High Street\"\n\
    0.1 0 agency customer int 400\n\
    0.1 1 agency customer int 300\n\
    0.1 2 supplier customer String \"3 May\"\n\
    session 1 agency z supplier u\n\
    1.0 0 agency supplier label ACCEPT\n\
    1.0 1 agency supplier session 0.1 agency\n\
    party customer ended 13\n\
    party agency ended 14\n\
    party supplier ended 6\n\
    done\n";

// That of the two ends that are delegated.
pub(crate) const CROSSING_TRANSCRIPT: &str = "session 0 a x b y\n\
    0.0 0 a d int 1\n\
    0.0 1 c d int 2\n\
    session 1 a z c u\n\
    1.0 0 a c session 0.0 a\n\
    session 2 b z d u\n\
    2.0 0 b d session 0.1 b\n\
    party a ended 3\n\
    party b ended 2\n\
    party c ended 4\n\
    party d ended 5\n\
    done\n";

// That of the end that comes back.
pub(crate) const BACK_AGAIN_TRANSCRIPT: &str = "session 0 a x b y\n\
    0.0 0 a b int 1\n\
    session 1 b z c u\n\
    1.0 0 b c session 0.1 b\n\
    1.1 0 c b session 0.1 c\n\
    party a ended 2\n\
    party b ended 5\n\
    party c ended 3\n\
    done\n";

// The transcript of the first session, and the history of a drain from its start on.
pub(crate) const FIRST_HISTORY: &str = "session 0 a x b y\n\
    0.0 0 a b int 5\n\
    party a ended 2\n\
    party b ended 2\n\
    done\n\
    %%log\n\
    1 a send 0.0 int 5\n\
    2 a close 0.0\n\
    2 b from a carry 0.1 0 0 0 int 5\n\
    3 b from a fin 0.1 0 1\n\
    4 b take 0.1 int 5\n\
    5 b close 0.1\n\
    6 a from b fin 0.0 0 0\n";

// The same where untaken numbers go to the new holder.
pub(crate) const HANDED_ON_HISTORY: &str = "session 0 a x b y\n\
    0.0 0 a b int 1\n\
    0.0 1 a c int 2\n\
    0.0 2 a c int 3\n\
    session 1 b z c u\n\
    1.0 0 b c session 0.1 b\n\
    party a ended 4\n\
    party b ended 3\n\
    party c ended 5\n\
    done\n\
    %%log\n\
    1 a send 0.0 int 1\n\
    2 a send 0.0 int 2\n\
    3 a send 0.0 int 3\n\
    4 a close 0.0\n\
    2 b from a carry 0.1 0 0 0 int 1\n\
    3 b from a carry 0.1 0 1 0 int 2\n\
    4 b from a carry 0.1 0 2 0 int 3\n\
    5 b from a fin 0.1 0 3\n\
    6 b take 0.1 int 1\n\
    7 b send 1.0 session 0.1 b\n\
    8 b close 1.0\n\
    8 c from b carry 1.1 0 0 0 session 0.1 b\n\
    9 c from b fin 1.1 0 1\n\
    10 c take 1.1 session 0.1 b\n\
    11 b from c claim 0.1\n\
    12 a from b signal 0.0 0 c 1\n\
    13 b from a ack 0.1 0\n\
    13 c from a carry 0.1 1 1 0 int 2\n\
    14 c from a carry 0.1 1 2 0 int 3\n\
    15 c from a fin 0.1 1 3\n\
    16 c from b give 0.1 1 a 0 1 0 -\n\
    17 c take 0.1 int 2\n\
    18 c take 0.1 int 3\n\
    19 c close 0.1\n\
    20 c close 1.1\n\
    20 a from c fin 0.0 1 0\n\
    21 b from c fin 1.0 0 0\n";

// The same where an end is delegated before anything passed on it.
pub(crate) const UNUSED_HISTORY: &str = "session 0 a x b y\n\
    0.1 0 c a int 9\n\
    session 1 b z c u\n\
    1.0 0 b c session 0.1 b\n\
    party a ended 2\n\
    party b ended 2\n\
    party c ended 4\n\
    done\n\
    %%log\n\
    1 b send 1.0 session 0.1 b\n\
    2 b close 1.0\n\
    2 c from b carry 1.1 0 0 0 session 0.1 b\n\
    3 c from b fin 1.1 0 1\n\
    4 c take 1.1 session 0.1 b\n\
    5 b from c claim 0.1\n\
    6 a from b signal 0.0 0 c 0\n\
    7 b from a ack 0.1 0\n\
    8 c from b give 0.1 1 a 0 0 0 -\n\
    9 c send 0.1 int 9\n\
    10 c close 0.1\n\
    11 c close 1.1\n\
    10 a from c carry 0.0 1 0 0 int 9\n\
    11 a from c fin 0.0 1 1\n\
    12 a take 0.0 int 9\n\
    13 a close 0.0\n\
    12 b from c fin 1.0 0 0\n\
    14 c from a fin 0.1 1 0\n";

// The same where the holder of an end has said how much it took.
pub(crate) const TOLD_HISTORY: &str = "session 0 a x b y\n\
    0.0 0 a b int 2\n\
    0.0 1 a c int 3\n\
    0.1 0 b a int 1\n\
    session 1 b z c u\n\
    1.0 0 b c session 0.1 b\n\
    party a ended 4\n\
    party b ended 4\n\
    party c ended 4\n\
    done\n\
    %%log\n\
    1 b send 0.1 int 1\n\
    2 a from b carry 0.0 0 0 0 int 1\n\
    3 a take 0.0 int 1\n\
    4 a send 0.0 int 2\n\
    5 a send 0.0 int 3\n\
    6 a close 0.0\n\
    5 b from a carry 0.1 0 0 1 int 2\n\
    6 b from a carry 0.1 0 1 1 int 3\n\
    7 b from a fin 0.1 0 2\n\
    8 b take 0.1 int 2\n\
    9 b send 1.0 session 0.1 b\n\
    10 b close 1.0\n\
    10 c from b carry 1.1 0 0 0 session 0.1 b\n\
    11 c from b fin 1.1 0 1\n\
    12 c take 1.1 session 0.1 b\n\
    13 b from c claim 0.1\n\
    14 a from b signal 0.0 0 c 1\n\
    15 b from a ack 0.1 0\n\
    15 c from a carry 0.1 1 1 1 int 3\n\
    16 c from a fin 0.1 1 2\n\
    17 c from b give 0.1 1 a 1 1 1 -\n\
    18 c take 0.1 int 3\n\
    19 c close 0.1\n\
    20 c close 1.1\n\
    20 a from c fin 0.0 1 1\n\
    21 b from c fin 1.0 0 0\n";

pub(crate) const OPENED_TRANSCRIPT: &str = "session 0 ann x agency y\n\
    0.0 0 ann agency String \"Rome\"\n\
    0.1 0 agency ann int 300\n\
    session 1 agency z bob u\n\
    1.0 0 agency bob session 165.0 agency\n\
    session 164 agency s supplier s\n\
    164.0 0 agency supplier String \"Rome\"\n\
    164.1 0 supplier agency int 300\n\
    session 165 agency t supplier s\n\
    165.0 0 bob supplier String \"Oslo\"\n\
    165.1 0 supplier bob int 200\n\
    party ann ended 3\n\
    party agency ended 10\n\
    party bob ended 5\n\
    party supplier ended 8\n\
    done\n";
