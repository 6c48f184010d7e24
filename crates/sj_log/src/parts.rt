//! The source of a replay: a file, a line `%%log` or `%%log2`, and a log.
ghost use Rattle.std.specs.Prelude.{◌≡◌, ◌++◌, IfSome, None, codes};
ghost use Rattle.sj_log.specs.Parts.{HasNoPart, IsFirst, IsParted};

use memchr::arch::all::is_prefix;
use memchr::memmem;

/// The text of the file, the version of the log, and the log. They are split at the first line that
/// is exactly `%%log`, for version 1, or `%%log2`, for version 2, with its newline. None where
/// there is no such line. Takes time linear in the bytes, and no memory.
pub fn parted(source: &[u8]) -> Option<(&[u8], u8, &[u8])>
    ensures some { IfSome result (λ p. IsParted source.now p.0.now p.1 p.2.now) }
    ensures none { result ≡ None → HasNoPart source.now }
{
    let first = find_line(source, b"%%log\n", b"\n%%log\n");
    let second = find_line(source, b"%%log2\n", b"\n%%log2\n");
    match (first, second) {
        (None, None) => None,
        (Some(at), None) => Some((&source[..at], 1, &source[at + 6..])),
        (None, Some(at)) => Some((&source[..at], 2, &source[at + 7..])),
        (Some(m), Some(n)) => {
            if m < n {
                Some((&source[..m], 1, &source[m + 6..]))
            } else {
                Some((&source[..n], 2, &source[n + 7..]))
            }
        }
    }
}

/// After how many bytes that line stands first; None where no line is that one. The line is given
/// with its newline, alone and after the newline of another.
pub fn find_line(source: &[u8], mark: &[u8], inner: &[u8]) -> Option<usize>
    requires { inner.now ≡ codes "\n" ++ mark.now }
    ensures { IsFirst mark.now source.now result }
{
    if is_prefix(source, mark) {
        return Some(0);
    }
    match memmem::find(source, inner) {
        Some(at) => Some(at + 1),
        None => None,
    }
}
