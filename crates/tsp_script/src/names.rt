//! Names as texts: an octet that isn't plain is a per cent sign and two hexadecimal digits.
ghost use Rattle.std.specs.Prelude.{◌≡◌, ◌≢◌, ℕ, ◌+◌, ◌*◌, ◌^◌, ◌≤◌, ◌<◌, ◌++◌, [], ◌∷◌, List};
ghost use Rattle.std.specs.Prelude.{length, flat_map, IfSome, IsSomeAnd, codes, MatchBool};
ghost use Rattle.std.specs.List.{AllPass};
ghost use Rattle.arrayvec.specs.ArrayVec.{array_vec_len};
ghost use Rattle.hex.specs.Hex.{encode_lower, IsBytes};
ghost use Rattle.tsp_base.specs.Names.{IsName};
ghost use Rattle.tsp_script.specs.Texts.{is_plain, escaped, name_text};

use crate::numbers::{append, append_hex};
use crate::text::Text;
use crate::words::is_same;
use arrayvec::ArrayVec;
use tsp_base::name::Name;

/// Whether an octet is written as itself: it is printable, no space and no per cent sign.
fn is_plain(octet: u8) -> bool
    ensures { result ≡ is_plain octet }
{
    32 < octet && octet < 127 && octet != b'%'
}

/// Whether each of these octets is written as itself.
fn are_plain(octets: &[u8]) -> bool
    ensures { MatchBool result (AllPass is_plain octets.now) (¬ AllPass is_plain octets.now) }
{
    for octet in octets {
        if !is_plain(*octet) {
            return false;
        }
    }
    true
}

fn append_octet(out: &mut Text, octet: u8)
    requires { array_vec_len out.old + 3 ≤ 1024 }
    ensures text { out.new.items ≡ out.old.items ++ escaped octet }
    ensures short { array_vec_len out.new ≤ array_vec_len out.old + 3 }
{
    if is_plain(octet) {
        append(out, &[octet]);
    } else {
        append(out, b"%");
        append_hex(out, &[octet]);
    }
}

fn append_octets(out: &mut Text, octets: &[u8])
    requires { array_vec_len out.old + 3 * length octets.now ≤ 1024 }
    ensures text { out.new.items ≡ out.old.items ++ flat_map escaped octets.now }
    ensures short { array_vec_len out.new ≤ array_vec_len out.old + 3 * length octets.now }
    ensures range { IsBytes octets.now }
{
    if are_plain(octets) {
        append(out, octets);
    } else {
        append_each(out, octets);
    }
}

/// The same, octet by octet.
fn append_each(out: &mut Text, octets: &[u8])
    requires { array_vec_len out.old + 3 * length octets.now ≤ 1024 }
    ensures text { out.new.items ≡ out.old.items ++ flat_map escaped octets.now }
    ensures short { array_vec_len out.new ≤ array_vec_len out.old + 3 * length octets.now }
{
    for octet in octets {
        append_octet(out, *octet);
    }
}

/// Writes a name's text, in at most 765 octets.
pub fn append_name(out: &mut Text, name: &Name)
    requires { array_vec_len out.old + 765 ≤ 1024 }
    ensures text { out.new.items ≡ out.old.items ++ name_text name.now }
    ensures short { array_vec_len out.new ≤ array_vec_len out.old + 765 }
    ensures range { IsName name.now × IsBytes name.now }
{
    match name.octets() {
        [] => append(out, b"%"),
        octets => append_octets(out, octets),
    }
}

/// The octet whose two digits these are, in lower case.
fn octet_of(pair: &[u8]) -> Option<u8>
    ensures found { IfSome result (λ c. pair.now ≡ encode_lower (c ∷ [])) }
    ensures reads { (c : ℕ) → c < 2 ^ 8 → pair.now ≡ encode_lower (c ∷ []) → result ≡ Some c }
{
    let mut octet = [0u8; 1];
    match hex::decode_to_slice(pair, &mut octet) {
        Ok(()) if is_pair_of(pair, octet[0]) => Some(octet[0]),
        _ => None,
    }
}

/// Whether these are the two digits of an octet, in lower case.
fn is_pair_of(pair: &[u8], octet: u8) -> bool
    ensures { MatchBool result (pair.now ≡ encode_lower (octet ∷ []))
        (pair.now ≡ encode_lower (octet ∷ []) → ⊥) }
{
    let mut digits = [0u8; 2];
    let _ = hex::encode_to_slice([octet], &mut digits);
    is_same(pair, &digits)
}

/// The octet whose text comes first, and what follows that text.
fn first_octet(text: &[u8]) -> Option<(u8, &[u8])>
    ensures found { IfSome result (λ r. (r.0 < 2 ^ 8) × (text.now ≡ escaped r.0 ++ r.1.now)) }
    ensures reads { (c : ℕ) (rest : List ℕ) → c < 2 ^ 8 → text.now ≡ escaped c ++ rest
        → IsSomeAnd result (λ r. (r.0 ≡ c) × (r.1.now ≡ rest)) }
    ensures shorter { IfSome result (λ r. length r.1.now < length text.now) }
{
    let (first, rest) = text.split_first()?;
    if is_plain(*first) {
        return Some((*first, rest));
    }
    if *first != b'%' {
        return None;
    }
    if rest.len() < 2 {
        return None;
    }
    let (pair, rest) = rest.split_at(2);
    let octet = octet_of(pair)?;
    if is_plain(octet) {
        return None;
    }
    Some((octet, rest))
}

/// The name with this text; None exactly where no name is written so.
pub(crate) fn name_of(text: &[u8]) -> Option<Name>
    ensures found { IfSome result (λ name. IsName name × IsBytes name
        × (text.now ≡ name_text name)) }
    ensures reads { (name : List ℕ) → IsName name → IsBytes name → text.now ≡ name_text name
        → result ≡ Some name }
{
    if is_same(text, b"%") {
        return Some(Name::empty());
    }
    if text.is_empty() {
        return None;
    }
    if are_plain(text) {
        return Name::of(text).ok();
    }
    unescaped(text)
}

/// The same, read octet by octet.
fn unescaped(text: &[u8]) -> Option<Name>
    requires some { 0 < length text.now }
    requires not_empty { text.now ≢ codes "%" }
    ensures found { IfSome result (λ name. IsName name × IsBytes name
        × (text.now ≡ name_text name)) }
    ensures reads { (name : List ℕ) → IsName name → IsBytes name → text.now ≡ name_text name
        → result ≡ Some name }
{
    let mut octets = ArrayVec::<u8, 255>::new();
    let mut rest = text;
    while !rest.is_empty() {
        let (octet, after) = first_octet(rest)?;
        let Ok(()) = octets.try_push(octet) else {
            return None;
        };
        rest = after;
    }
    Name::of(octets.as_slice()).ok()
}
