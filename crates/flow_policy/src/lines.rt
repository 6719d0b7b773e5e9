//! Lines, and the parts that a byte cuts.

ghost use Rattle.std.specs.Prelude.{◌≡◌, ◌<◌, ◌==◌, [], ◌∷◌, length, MatchOption, IfSome};
ghost use Rattle.std.specs.List.{slice_split, position};
ghost use Rattle.flow_policy.specs.Lines.{lines_of, without_cr};

fn place(bytes: &[u8], byte: u8) -> Option<usize>
    ensures { result ≡ position (λ b. b == byte) bytes.now }
{
    bytes.iter().position(|b| *b == byte)
}

/// What stands before and behind the first such byte.
pub(crate) fn cut(bytes: &[u8], byte: u8) -> Option<(&[u8], &[u8])>
    ensures parts { MatchOption result (slice_split (λ b. b == byte) bytes.now ≡ bytes.now ∷ []) (λ r. slice_split (λ b. b == byte) bytes.now ≡ r.0.now ∷ slice_split (λ b. b == byte) r.1.now) }
    ensures shorter { IfSome result (λ r. length r.1.now < length bytes.now) }
{
    let at = place(bytes, byte)?;
    Some((&bytes[..at], &bytes[at + 1..]))
}

fn without_cr(line: &[u8]) -> &[u8]
    ensures { result.now ≡ without_cr line.now }
{
    line.strip_suffix(b"\r").unwrap_or(line)
}

/// The first line, and what stands behind it.
pub(crate) fn next_line(bytes: &[u8]) -> Option<(&[u8], &[u8])>
    ensures lines { MatchOption result (lines_of bytes.now ≡ []) (λ r. lines_of bytes.now ≡ r.0.now ∷ lines_of r.1.now) }
    ensures shorter { IfSome result (λ r. length r.1.now < length bytes.now) }
{
    match cut(bytes, b'\n') {
        Some((line, rest)) => Some((without_cr(line), rest)),
        None if bytes.is_empty() => None,
        None => Some((bytes, &[])),
    }
}
