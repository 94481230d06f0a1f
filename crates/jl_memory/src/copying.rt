// Reading from the bytes of a file in memory.
ghost use Rattle.std.specs.Prelude.{◌≡◌, ◌++◌, ◌-◌, ◌≤◌, ◌<◌, length, take, drop, min};

// Copies as many bytes as there are from an offset on, and as the buffer holds.
pub fn copy_out(bytes: &[u8], at: usize, buf: &mut [u8]) -> usize
    ensures copied { buf.new ≡ take result (drop at bytes.now) ++ drop result buf.old }
    ensures room { result ≤ length buf.old }
    ensures within { result ≤ length bytes.now - at }
    ensures whole { result ≡ min (length buf.old) (length bytes.now - at) }
    ensures end { 0 < length buf.old → result ≡ 0 → length bytes.now ≤ at }
{
    if at >= bytes.len() {
        return 0;
    }
    let left = bytes.len() - at;
    let n = if left < buf.len() { left } else { buf.len() };
    buf[..n].copy_from_slice(&bytes[at..at + n]);
    n
}
