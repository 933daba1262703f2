// Where a byte first stands, and whether all bytes are one.
ghost use Rattle.std.specs.Prelude.{◌≡◌, length};
ghost use Rattle.octets.specs.Runs.{up_to, all_are};

// How many bytes stand before the first stop.
pub fn length_before(bytes: &[u8], stop: u8) -> usize
    ensures { result ≡ length (up_to stop bytes.now) }
{
    bytes
        .iter()
        .position(|byte| *byte == stop)
        .unwrap_or(bytes.len())
}

// The bytes before the first stop.
pub fn before(bytes: &[u8], stop: u8) -> &[u8]
    ensures { result.now ≡ up_to stop bytes.now }
{
    &bytes[..length_before(bytes, stop)]
}

// Whether every byte is this one.
pub fn are_all(bytes: &[u8], value: u8) -> bool
    ensures { result ≡ all_are value bytes.now }
{
    bytes.iter().all(|byte| *byte == value)
}
