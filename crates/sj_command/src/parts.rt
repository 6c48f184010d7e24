//! What the words give to each part of the line.

/// A command and a number, two flags and two options, where the words give them.
#[derive(Clone, Copy)]
pub(crate) struct Line<'a> {
    pub command: Option<&'a str>,
    pub number: Option<&'a str>,
    pub log: Option<&'a str>,
    pub looks: Option<&'a str>,
    pub workers: Option<&'a str>,
    pub forward: Option<&'a str>,
}
