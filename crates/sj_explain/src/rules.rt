//! The rules: their names, what each says, and how a fault is mended.

use sj_check::CheckRule;
use sj_proto::Rule;

/// A rule in words.
#[derive(Clone, Copy)]
pub(crate) struct Lesson {
    pub name: &'static [u8],
    pub says: &'static [u8],
    pub mends: &'static [u8],
}

/// That rule of the checker.
pub(crate) fn check_lesson(rule: CheckRule) -> Lesson {
    Lesson {
        name: name_of(rule),
        says: saying(rule),
        mends: mending(rule),
    }
}

// Its name.
fn name_of(rule: CheckRule) -> &'static [u8] {
    match rule {
        CheckRule::NoProtocol => b"no protocol",
        CheckRule::NoParty => b"no party",
        CheckRule::NameInUse => b"name in use",
        CheckRule::DoNotMeet => b"do not meet",
        CheckRule::NotThere => b"not there",
        CheckRule::OtherAction => b"other action",
        CheckRule::OtherKind => b"other kind",
        CheckRule::NoLabel => b"no label",
        CheckRule::ArmsDiffer => b"arms differ",
        CheckRule::TurnDiffers => b"turn differs",
        CheckRule::ClosedEarly => b"closed early",
        CheckRule::LeftOpen => b"left open",
        CheckRule::NotToDelegate => b"not to delegate",
        CheckRule::OtherArms => b"other arms",
        CheckRule::AcceptUnmet => b"accept unmet",
    }
}

// What it says of a file that breaks it.
fn saying(rule: CheckRule) -> &'static [u8] {
    match rule {
        CheckRule::NoProtocol => b"no protocol has that name",
        CheckRule::NoParty => b"no party has that name",
        CheckRule::NameInUse => b"the name is in use, or a choice names a label twice",
        CheckRule::DoNotMeet => b"the two protocols don't meet",
        CheckRule::NotThere => b"no live end, or no variable, has that name",
        CheckRule::OtherAction => b"the place begins with another action, or is empty",
        CheckRule::OtherKind => b"the kind is another one than is wanted",
        CheckRule::NoLabel => b"the choice has no such label",
        CheckRule::ArmsDiffer => b"the arms leave different live ends, or places",
        CheckRule::TurnDiffers =>
            b"a turn of the loop leaves other live ends, or places, than there were before the loop",
        CheckRule::ClosedEarly => b"the end is closed before its place is empty",
        CheckRule::LeftOpen => b"an end is live after the party's body",
        CheckRule::NotToDelegate =>
            b"the carrier itself, or an end whose place is empty, is delegated",
        CheckRule::OtherArms => b"the arms aren't the labels of the choice, each once",
        CheckRule::AcceptUnmet => b"an accept and a request between two parties don't meet",
    }
}

// What mends such a file.
fn mending(rule: CheckRule) -> &'static [u8] {
    match rule {
        CheckRule::NoProtocol => b"name a protocol of the file, or define it",
        CheckRule::NoParty => b"name a party of the file, or define it",
        CheckRule::NameInUse => b"take a name that isn't in use; the labels of a choice differ",
        CheckRule::DoNotMeet => {
            b"exchange ! and ? item by item and keep what is carried (`sj show` prints the dual); \
                select only among labels that the other protocol offers"
        }
        CheckRule::NotThere => {
            b"use no end that was closed or delegated; give a variable a value before, on every way \
                that leads there"
        }
        CheckRule::OtherAction =>
            b"do what the place begins with, or put the item into both protocols",
        CheckRule::OtherKind => {
            b"send, take or compare what is of the kind that is wanted; delegate an end whose place \
                stands for what the carrier carries"
        }
        CheckRule::NoLabel => b"send a label of the choice, or put it into both protocols",
        CheckRule::ArmsDiffer => {
            b"let all arms close, delegate and move the same ends; what they have in common may \
                stand after them"
        }
        CheckRule::TurnDiffers => {
            b"let one turn do what the loop of the protocol has in its brackets, and leave all other \
                ends as they were"
        }
        CheckRule::ClosedEarly => b"do what is still ahead of the end before",
        CheckRule::LeftOpen => b"close each end, or delegate it",
        CheckRule::NotToDelegate =>
            b"delegate an end while something is ahead of it, and over another end",
        CheckRule::OtherArms => b"write one arm for each label of the choice, and none besides",
        CheckRule::AcceptUnmet =>
            b"accept with a protocol that meets each one that the other party requests of this one",
    }
}

/// That rule of the grammar.
pub(crate) fn syntax_lesson(rule: Rule) -> Lesson {
    match rule {
        Rule::P1 => Lesson {
            name: b"not due",
            says: b"no file goes on so there",
            mends: b"put there what the grammar wants after what stands before",
        },
        Rule::P2 => Lesson {
            name: b"no token",
            says: b"a byte begins no token, or may not stand in a text or a comment",
            mends: b"take the byte out; a text has bytes 32 to 126 without \" and \\",
        },
        Rule::P3 => Lesson {
            name: b"no number",
            says: b"a number has a leading zero, or is out of its range",
            mends: b"write it without the zero, up to 9223372036854775807",
        },
        Rule::P4 => Lesson {
            name: b"past a limit",
            says: b"a token passes a limit",
            mends: b"shorten the name or the text, or have fewer of these",
        },
        Rule::P5 => Lesson {
            name: b"open text",
            says: b"a text has no closing quote on its line",
            mends: b"put the closing quote on the same line",
        },
    }
}
