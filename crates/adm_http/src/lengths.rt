// The length of a body, as a request writes it.
ghost use Rattle.std.specs.Prelude.{◌≡◌};
ghost use Rattle.adm_http.specs.Lengths.{body_length_of};

/// The number that 1 to 10 decimal digits write. Zeros may be at its front.
pub(crate) fn body_length(bytes: &[u8]) -> Option<u64>
    ensures { result ≡ body_length_of bytes.now }
{
    if bytes.is_empty() || bytes.len() > 10 {
        return None;
    }
    let mut value = 0u64;
    for byte in bytes {
        if !byte.is_ascii_digit() {
            return None;
        }
        value = value * 10 + u64::from(*byte - b'0');
    }
    Some(value)
}
