//! Files that tests share.

// A session of one number.
pub(crate) const FIRST: &str = "protocol p { begin.!<int> }\n\
    protocol q { begin.?(int) }\n\
    party a { send x 5; close x; }\n\
    party b { recv y n int; close y; }\n\
    connect a x p to b y q;\n";

// A session in which nothing passes.
pub(crate) const EMPTY: &str = "protocol p { begin }\n\
    protocol q { begin }\n\
    party a { close x; }\n\
    party b { close y; }\n\
    connect a x p to b y q;\n";

// A customer, an agency that delegates its end to a supplier, and the supplier.
pub(crate) const AGENCY: &str =
    "protocol cust { begin.![!<String>.?(int)]*.!{ACCEPT: !<String>.?(String), REJECT:} }\n\
    protocol agen { begin.?[?(String).!<int>]*.?{ACCEPT: ?(String).!<String>, REJECT:} }\n\
    protocol rest { begin.?(String).!<String> }\n\
    protocol asks { begin.!{ACCEPT: !<?(String).!<String>>, REJECT:} }\n\
    protocol gets { begin.?{ACCEPT: ?(?(String).!<String>), REJECT:} }\n\
    party customer {\n\
    let last = 0;\n\
    outwhile x 2 { send x \"Paris\"; recv x last int; }\n\
    if last <= 400 { outbranch x ACCEPT; send x \"1 High Street\"; recv x date String; close x; }\n\
    else { outbranch x REJECT; close x; }\n\
    }\n\
    party agency {\n\
    let price = 500;\n\
    inwhile y { recv y place String; let price = price - 100; send y price; }\n\
    inbranch y {\n\
    ACCEPT: { outbranch z ACCEPT; delegate z y; close z; }\n\
    REJECT: { close y; outbranch z REJECT; close z; }\n\
    }\n\
    }\n\
    party supplier {\n\
    inbranch u {\n\
    ACCEPT: { recv u s session rest; close u; recv s street String; send s \"3 May\"; close s; }\n\
    REJECT: { close u; }\n\
    }\n\
    }\n\
    connect customer x cust to agency y agen;\n\
    connect agency z asks to supplier u gets;\n";

// A receiver delegates its end after the first of three numbers.
pub(crate) const HANDED_ON: &str = "protocol p { begin.!<int>.!<int>.!<int> }\n\
    protocol q { begin.?(int).?(int).?(int) }\n\
    protocol r { begin.?(int).?(int) }\n\
    protocol g { begin.!<?(int).?(int)> }\n\
    protocol h { begin.?(?(int).?(int)) }\n\
    party a { send x 1; send x 2; send x 3; close x; }\n\
    party b { recv y n int; delegate z y; close z; }\n\
    party c { recv u y session r; recv y n int; recv y n int; close y; close u; }\n\
    connect a x p to b y q;\n\
    connect b z g to c u h;\n";

// The holder of an end has said how much it took, and delegates the end.
pub(crate) const TOLD: &str = "protocol p { begin.?(int).!<int>.!<int> }\n\
    protocol q { begin.!<int>.?(int).?(int) }\n\
    protocol r { begin.?(int) }\n\
    protocol g { begin.!<?(int)> }\n\
    protocol h { begin.?(?(int)) }\n\
    party a { recv x n int; send x 2; send x 3; close x; }\n\
    party b { send y 1; recv y n int; delegate z y; close z; }\n\
    party c { recv u y session r; recv y n int; close y; close u; }\n\
    connect a x p to b y q;\n\
    connect b z g to c u h;\n";

// An end is delegated before anything passed on it.
pub(crate) const UNUSED: &str = "protocol p { begin.?(int) }\n\
    protocol q { begin.!<int> }\n\
    protocol g { begin.!<!<int>> }\n\
    protocol h { begin.?(!<int>) }\n\
    party a { recv x n int; close x; }\n\
    party b { delegate z y; close z; }\n\
    party c { recv u y session q; send y 9; close y; close u; }\n\
    connect a x p to b y q;\n\
    connect b z g to c u h;\n";

// Both ends of a session are delegated.
pub(crate) const CROSSING: &str = "protocol p { begin.!<int>.!<int> }\n\
    protocol q { begin.?(int).?(int) }\n\
    protocol p1 { begin.!<int> }\n\
    protocol gp { begin.!<!<int>> }\n\
    protocol hp { begin.?(!<int>) }\n\
    protocol gq { begin.!<?(int).?(int)> }\n\
    protocol hq { begin.?(?(int).?(int)) }\n\
    party a { send x 1; delegate z x; close z; }\n\
    party b { delegate z y; close z; }\n\
    party c { recv u x session p1; send x 2; close x; close u; }\n\
    party d { recv u y session q; recv y n int; recv y n int; close y; close u; }\n\
    connect a x p to b y q;\n\
    connect a z gp to c u hp;\n\
    connect b z gq to d u hq;\n";

// The same, where one of them is delegated a second time.
pub(crate) const MOVED_TWICE: &str = "protocol p { begin.!<int>.!<int> }\n\
    protocol q { begin.?(int).?(int) }\n\
    protocol p1 { begin.!<int> }\n\
    protocol gp { begin.!<!<int>> }\n\
    protocol hp { begin.?(!<int>) }\n\
    protocol gq { begin.!<?(int).?(int)> }\n\
    protocol hq { begin.?(?(int).?(int)) }\n\
    party a { send x 1; delegate z x; close z; }\n\
    party b { delegate z y; close z; }\n\
    party c { recv u x session p1; close u; delegate w x; close w; }\n\
    party d { recv u y session q; recv y n int; recv y n int; close y; close u; }\n\
    party e { recv v x session p1; send x 2; close x; close v; }\n\
    connect a x p to b y q;\n\
    connect a z gp to c u hp;\n\
    connect b z gq to d u hq;\n\
    connect c w gp to e v hp;\n";

// An end goes to another party and comes back.
pub(crate) const BACK_AGAIN: &str = "protocol p { begin.!<int> }\n\
    protocol q { begin.?(int) }\n\
    protocol g { begin.!<?(int)>.?(?(int)) }\n\
    protocol h { begin.?(?(int)).!<?(int)> }\n\
    party a { send x 1; close x; }\n\
    party b { delegate z y; recv z y session q; close z; recv y n int; close y; }\n\
    party c { recv u y session q; delegate u y; close u; }\n\
    connect a x p to b y q;\n\
    connect b z g to c u h;\n";

// An end goes to the holder of the other end.
pub(crate) const TO_THE_PEER: &str = "protocol p { begin.!<int> }\n\
    protocol q { begin.?(int) }\n\
    protocol g { begin.!<!<int>> }\n\
    protocol h { begin.?(!<int>) }\n\
    party a { delegate z x; close z; }\n\
    party b { recv u x session p; send x 4; recv y n int; close x; close y; close u; }\n\
    connect a x p to b y q;\n\
    connect a z g to b u h;\n";

// A party delegates an end to itself.
pub(crate) const TO_ITSELF: &str = "protocol p { begin.!<int> }\n\
    protocol q { begin.?(int) }\n\
    protocol g { begin.!<!<int>> }\n\
    protocol h { begin.?(!<int>) }\n\
    party a { delegate z x; recv u w session p; send w 4; close w; close z; close u; }\n\
    party b { recv y n int; close y; }\n\
    connect a x p to b y q;\n\
    connect a z g to a u h;\n";

// Two sessions are taken in opposite order.
pub(crate) const OPPOSITE: &str = "protocol p { begin.!<int> }\n\
    protocol q { begin.?(int) }\n\
    party a { recv x n int; send w 1; close x; close w; }\n\
    party b { recv z n int; send y 1; close y; close z; }\n\
    connect a x q to b y p;\n\
    connect a w p to b z q;\n";

// An end goes back and forth fifty times.
pub(crate) const AND_BACK: &str = "protocol p { begin.!<int> }\n\
    protocol q { begin.?(int) }\n\
    protocol g { begin.![!<?(int)>.?(?(int))]* }\n\
    protocol h { begin.?[?(?(int)).!<?(int)>]* }\n\
    party a { send x 1; close x; }\n\
    party b { outwhile z 50 { delegate z y; recv z y session q; } close z; recv y n int; close y; }\n\
    party c { inwhile u { recv u y session q; delegate u y; } close u; }\n\
    connect a x p to b y q;\n\
    connect b z g to c u h;\n";

// An agency opens a session to a supplier for each of two customers; the second goes to that customer.
pub(crate) const OPENED: &str = "protocol ask { begin.!<String>.?(int) }\n\
    protocol tell { begin.?(String).!<int> }\n\
    protocol gives { begin.!<!<String>.?(int)> }\n\
    protocol gets { begin.?(!<String>.?(int)) }\n\
    party ann { send x \"Rome\"; recv x price int; close x; }\n\
    party agency {\n\
    recv y place String;\n\
    request s ask to supplier;\n\
    send s place;\n\
    recv s price int;\n\
    close s;\n\
    send y price;\n\
    close y;\n\
    request t ask to supplier;\n\
    delegate z t;\n\
    close z;\n\
    }\n\
    party bob { recv u t session ask; send t \"Oslo\"; recv t price int; close t; close u; }\n\
    party supplier {\n\
    accept s tell from agency;\n\
    recv s place String;\n\
    send s 300;\n\
    close s;\n\
    accept s tell from agency;\n\
    recv s place String;\n\
    send s 200;\n\
    close s;\n\
    }\n\
    connect ann x ask to agency y tell;\n\
    connect agency z gives to bob u gets;\n";
