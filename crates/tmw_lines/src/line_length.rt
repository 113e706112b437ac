ghost use Rattle.std.specs.Prelude.{◌≡◌, ◌==◌};
ghost use Rattle.std.specs.List.{position_or_len};

/// Returns how many bytes come before the first that is `stop`, or how many there are if none is.
pub fn length_before(bytes: &[u8], stop: u8) -> usize
    ensures { result ≡ position_or_len (λ byte. byte == stop) bytes.now }
{
    for (index, byte) in bytes.iter().enumerate() {
        if *byte == stop {
            return index;
        }
    }
    bytes.len()
}
