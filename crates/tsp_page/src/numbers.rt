//! Numbers in octets, the lowest octet first.
ghost use Rattle.std.specs.Prelude.{◌≡◌, ◌+◌, ◌*◌, ◌≤◌, ◌++◌, length};
ghost use Rattle.arrayvec.specs.ArrayVec.{array_vec_len};
ghost use Rattle.std.specs.Int.{cast_signed, w64};
ghost use Rattle.tsp_page.specs.Numbers.{number_at, octets_of_all};

use arrayvec::ArrayVec;

/// The unsigned number of the eight octets at this place, the lowest first.
#[tactic(auto, unfolding(crate::specs::Numbers::number_at))]
pub fn u64_at(octets: &[u8], i: usize) -> u64
    requires { i + 8 ≤ length octets.now }
    ensures { result ≡ number_at octets.now i }
{
    u64::from_le_bytes([
        octets[i],
        octets[i + 1],
        octets[i + 2],
        octets[i + 3],
        octets[i + 4],
        octets[i + 5],
        octets[i + 6],
        octets[i + 7],
    ])
}

/// The number of eight octets, the lowest first, in two's complement.
pub fn i64_at(octets: &[u8], i: usize) -> i64
    requires { i + 8 ≤ length octets.now }
    ensures { result ≡ cast_signed w64 (number_at octets.now i) }
{
    u64_at(octets, i).cast_signed()
}

/// Appends octets.
pub fn append<const ROOM: usize>(out: &mut ArrayVec<u8, ROOM>, piece: &[u8])
    requires { array_vec_len out.old + length piece.now ≤ ROOM }
    ensures { out.new.items ≡ out.old.items ++ piece.now }
{
    let _ = out.try_extend_from_slice(piece);
}

/// Numbers one after the other, eight octets each, the lowest first.
pub fn octets_of_all<const ROOM: usize>(numbers: &[u64]) -> ArrayVec<u8, ROOM>
    requires { 8 * length numbers.now ≤ ROOM }
    ensures octets { result.items ≡ octets_of_all numbers.now }
    ensures size { array_vec_len result ≡ 8 * length numbers.now }
{
    let mut out = ArrayVec::new();
    for number in numbers {
        append(&mut out, &number.to_le_bytes());
    }
    out
}
