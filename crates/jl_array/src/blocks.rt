// Blocks of numbers, as the bytes of a dump file.
ghost use Rattle.std.specs.Prelude.{◌≡◌, ◌≢◌, ◌<◌, ◌*◌, ◌^◌, length, take, IfNone, IfSome};
ghost use Rattle.jl_text.specs.declared.limits.TheConstants.{PIECE_BYTES};
ghost use Rattle.jl_array.specs.Dumps.{dump_mark, dump_head, numbers_bytes, AreSigned};

use byteorder::{ByteOrder, LittleEndian};
use jl_text::limits::PIECE_BYTES;

/// What each dump file begins with.
const MARK: &[u8] = b"JLARR1\n";

/// How many bytes the head of a dump file has.
pub(crate) const HEAD_BYTES: usize = 15;

/// How many numbers a piece has.
pub(crate) const BLOCK_NUMBERS: usize = 8_192;

// Room for a block.
pub(crate) fn new_block() -> [u8; PIECE_BYTES]
    ensures { PIECE_BYTES ≡ length result }
{
    [0; PIECE_BYTES]
}

pub(crate) fn head_of(count: u64) -> [u8; HEAD_BYTES]
    ensures { result ≡ dump_head count }
{
    let mut head = [0; HEAD_BYTES];
    head[..7].copy_from_slice(MARK);
    LittleEndian::write_u64(&mut head[7..], count);
    head
}

// The count that a head says, if it begins with the mark.
pub(crate) fn count_of(head: &[u8]) -> Option<u64>
    requires { length head.now ≡ 15 }
    ensures some { IfSome result (λ count. head.now ≡ dump_head count) }
    ensures fits { IfSome result (λ count. count < 2 ^ 64) }
    ensures none { IfNone result (take 7 head.now ≢ dump_mark) }
{
    if &head[..7] != MARK {
        return None;
    }
    Some(LittleEndian::read_u64(&head[7..]))
}

// Writes the bytes of each number.
pub(crate) fn put_numbers(numbers: &[i64], buf: &mut [u8])
    requires { length buf.old ≡ 8 * length numbers.now }
    ensures bytes { buf.new ≡ numbers_bytes numbers.now }
    ensures signed { AreSigned numbers.now }
{
    'numbers: for i in 0..numbers.len() {
        LittleEndian::write_i64(&mut buf[8 * i..], numbers[i]);
    }
}

// Reads a number from each eight bytes.
pub(crate) fn take_numbers(bytes: &[u8], out: &mut [i64])
    requires { length bytes.now ≡ 8 * length out.old }
    ensures bytes { numbers_bytes out.new ≡ bytes.now }
    ensures signed { AreSigned out.new }
{
    LittleEndian::read_i64_into(bytes, out);
}
