ghost use Rattle.std.specs.Prelude.{◌≡◌, ◌==◌, ◌≤◌, length};
ghost use Rattle.std.specs.List.{position_or_len};
ghost use Rattle.tensor_text.specs.Lines.{is_blank};

/// The place of the first such byte, or the length.
pub(crate) fn place_of(wanted: u8, bytes: &[u8]) -> usize
    ensures place { result ≡ position_or_len (λ c. c == wanted) bytes.now }
    ensures within { result ≤ length bytes.now }
{
    bytes
        .iter()
        .position(|c| *c == wanted)
        .unwrap_or(bytes.len())
}

/// The place of the first space or tab, or the length.
pub(crate) fn blank_place(bytes: &[u8]) -> usize
    ensures place { result ≡ position_or_len is_blank bytes.now }
    ensures within { result ≤ length bytes.now }
{
    bytes
        .iter()
        .position(|c| *c == b' ' || *c == b'\t')
        .unwrap_or(bytes.len())
}
