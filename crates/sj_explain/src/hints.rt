//! Forms that beginners write, and what this language has for them.

use crate::marks::Scanned;

/// A fault's token with its neighbours, and whether a token may stand there.
#[derive(Clone, Copy)]
pub(crate) struct Around<'a> {
    pub scanned: &'a Scanned<'a>,
    pub at: usize,
    pub marks: &'a [bool],
}

impl<'a> Around<'a> {
    /// The token so many after the fault; the fault's own is 0.
    pub fn ahead(&self, n: usize) -> &'a [u8] {
        self.scanned.spelled(self.at.saturating_add(n))
    }

    /// The token so many before the fault.
    pub fn behind(&self, n: usize) -> &'a [u8] {
        if n > self.at {
            return b"";
        }
        self.scanned.spelled(self.at.saturating_sub(n))
    }

    /// The text before the fault.
    pub fn front(&self) -> &'a [u8] {
        self.scanned.front(self.at)
    }

    /// Whether that one, as it is shown, may stand there.
    pub fn wants(&self, shown: &[u8]) -> bool {
        for (word, mark) in sj_wanted::SHOWN.iter().zip(self.marks.iter()) {
            if *mark && *word == shown {
                return true;
            }
        }
        false
    }

    /// How many may.
    pub fn count(&self) -> usize {
        self.marks.iter().filter(|m| **m).count()
    }
}

/// What was meant, where the fault's token and its neighbours are such a form.
pub(crate) fn form_of(around: Around<'_>) -> Option<&'static [u8]> {
    if let Some(said) = item_form(around) {
        return Some(said);
    }
    if let Some(said) = operator_form(around) {
        return Some(said);
    }
    if let Some(said) = statement_form(around) {
        return Some(said);
    }
    order_form(around)
}

fn item_form(around: Around<'_>) -> Option<&'static [u8]> {
    let here = around.ahead(0);
    let before = around.behind(1);
    if before == b"!".as_slice() && around.wants(b"<") {
        return Some(b"`!<..>`? what is sent stands in `<` and `>`");
    }
    if before == b"?".as_slice() && around.wants(b"(") {
        return Some(b"`?(..)`? what is taken stands in `(` and `)`");
    }
    if around.wants(b"begin") && (here == b"!".as_slice() || here == b"?".as_slice()) {
        return Some(b"`begin.` before it? each protocol begins so");
    }
    let closes = here == b"}".as_slice() || here == b"]".as_slice() || here == b")".as_slice();
    if closes && before == b".".as_slice() {
        return Some(b"to leave out the `.` before it?");
    }
    if closes && before == b",".as_slice() {
        return Some(b"to leave out the `,` before it?");
    }
    None
}

fn operator_form(around: Around<'_>) -> Option<&'static [u8]> {
    let here = around.ahead(0);
    if around.wants(b"+") {
        return comparison_form(here, around.ahead(1));
    }
    if around.wants(b"=") && here == b"==".as_slice() {
        return Some(b"`=`? `==` compares two values");
    }
    if around.wants(b"not") && here == b"!".as_slice() {
        return Some(b"`not`?");
    }
    if around.behind(1) == b"-".as_slice() && around.wants(b"NUMBER") && around.count() == 1 {
        return Some(b"`0 - ..`? a `-` that stands first is part of a number");
    }
    None
}

// What may stand there are operators.
fn comparison_form(here: &[u8], next: &[u8]) -> Option<&'static [u8]> {
    if here == b"!".as_slice() && next == b"=".as_slice() {
        return Some(b"`not (a == b)`? the language hasn't `!=`");
    }
    if here == b"=".as_slice() {
        return Some(b"`==`? a single `=` gives a variable its value");
    }
    if here == b">".as_slice() && next == b"=".as_slice() {
        return Some(b"`b <= a` for `a >= b`? the language hasn't `>=`");
    }
    if here == b">".as_slice() {
        return Some(b"`b < a` for `a > b`? the language hasn't `>`");
    }
    if here == b"and".as_slice() {
        return Some(b"an `if` inside the `if`? the language hasn't `and`");
    }
    if here == b"or".as_slice() {
        return Some(b"an `if` inside the `else`? the language hasn't `or`");
    }
    if here == b".".as_slice() {
        return Some(b"a whole number? the language has no others");
    }
    None
}

fn statement_form(around: Around<'_>) -> Option<&'static [u8]> {
    let here = around.ahead(0);
    if around.wants(b"session") && here == b";".as_slice() {
        return Some(
            b"a kind before `;`? it is `int`, `boolean`, `String`, or `session` and a protocol",
        );
    }
    if around.wants(b"NUMBER") && around.wants(b"NAME") && here == b";".as_slice() {
        return Some(b"a value before `;`?");
    }
    if around.wants(b"NAME") && around.count() == 1 && here == b"(".as_slice() {
        return Some(b"to leave out the parentheses? a statement has none around its words");
    }
    if around.behind(1) == b"else".as_slice() && here == b"if".as_slice() {
        return Some(b"`else { if .. }`? a block has braces");
    }
    if around.wants(b"else") {
        return Some(b"`else { }` before it? each `if` has an `else`");
    }
    if here == b"-".as_slice() && around.ahead(1) == b">".as_slice() && around.wants(b"to") {
        return Some(b"`to`?");
    }
    None
}

fn order_form(around: Around<'_>) -> Option<&'static [u8]> {
    let here = around.ahead(0);
    let is_party = here == b"party".as_slice();
    let is_protocol = here == b"protocol".as_slice();
    if around.wants(b"}") {
        if is_party || is_protocol || here == b"connect".as_slice() {
            return Some(b"`}` before it? a brace is still open");
        }
        if here.is_empty() {
            return Some(b"`}`? a brace is still open");
        }
    }
    if around.wants(b"connect") && (is_party || is_protocol) {
        return Some(b"to put it further up? protocols stand first, then parties, then connections");
    }
    None
}

/// What was meant by a byte that begins no token.
pub(crate) fn byte_form(rest: &[u8]) -> Option<&'static [u8]> {
    match rest {
        [b'#', ..] => Some(b"`//`? a comment begins so"),
        [b'/', b'*', ..] => Some(b"`//`? a comment begins so, and ends with its line"),
        [b'/', ..] => Some(b"`//`? that begins a comment; the language has no division"),
        [b'&', ..] => Some(b"an `if` inside the `if`? the language hasn't `and`"),
        [b'|', ..] => Some(b"an `if` inside the `else`? the language hasn't `or`"),
        [b'\'', ..] => Some(b"`\"`? a text stands in these"),
        _ => None,
    }
}
