//! The words of a refusal.
ghost use Rattle.std.specs.Prelude.{◌≡◌, ◌≤◌, length};
ghost use Rattle.tsp_lines.specs.Outcomes.{bad_line, limit_line};

use arrayvec::ArrayVec;
use itoa::Buffer;

/// The words for a refused line, `bad LINE CAUSE`: its number, from 1 on, and the cause, at most 64 octets.
pub fn bad_line(number: u64, cause: &[u8]) -> ArrayVec<u8, 128>
    requires { length cause.now ≤ 64 }
    ensures { result.items ≡ bad_line number cause.now }
{
    let mut buffer = Buffer::new();
    let mut words = ArrayVec::new();
    let _ = words.try_extend_from_slice(b"bad ");
    let _ = words.try_extend_from_slice(buffer.format(number).as_bytes());
    let _ = words.try_push(b' ');
    let _ = words.try_extend_from_slice(cause);
    let _ = words.try_push(b'\n');
    words
}

/// The words for a line past a limit, `limit LINE`: its number, from 1 on.
pub fn limit_line(number: u64) -> ArrayVec<u8, 128>
    ensures { result.items ≡ limit_line number }
{
    let mut buffer = Buffer::new();
    let mut words = ArrayVec::new();
    let _ = words.try_extend_from_slice(b"limit ");
    let _ = words.try_extend_from_slice(buffer.format(number).as_bytes());
    let _ = words.try_push(b'\n');
    words
}
