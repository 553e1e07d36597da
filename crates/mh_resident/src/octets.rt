//! Parts of octet strings, and searching in them. Octets are counted from 1, and a place before the
//! first is the first.
ghost use Rattle.std.specs.Prelude.{◌≡◌, ◌+◌, ◌≤◌, ◌<◌, ◌^◌, take, drop, length, IfSome};
ghost use Rattle.mh_model.specs.Programs as programs;

use memchr::memmem;

/// A count as a number of 32 bits, the largest where it is larger.
pub(crate) fn counted(count: u64) -> i32
    ensures { result ≡ programs.counted count }
{
    if count <= 2147483647 {
        count as i32
    } else {
        2147483647
    }
}

/// How many octets stand in front of a place.
pub(crate) fn in_front(place: i32) -> usize
    ensures number { result ≡ programs.in_front place }
    ensures bounded { result < 2 ^ 31 }
{
    up_to(place).saturating_sub(1)
}

/// How many octets there are up to a place.
pub(crate) fn up_to(place: i32) -> usize
    ensures number { result ≡ programs.up_to place }
    ensures bounded { result < 2 ^ 31 }
{
    if place < 0 { 0 } else { place as usize }
}

/// The first octets, as many as there are of these.
pub(crate) fn front(octets: &[u8], count: usize) -> &[u8]
    ensures { result.now ≡ take count octets.now }
{
    if count < octets.len() {
        &octets[..count]
    } else {
        octets
    }
}

/// The octets behind the first ones.
pub(crate) fn behind(octets: &[u8], count: usize) -> &[u8]
    ensures { result.now ≡ drop count octets.now }
{
    if count < octets.len() {
        &octets[count..]
    } else {
        &[]
    }
}

/// The octets from one place to another.
pub(crate) fn substring(octets: &[u8], begin: i32, end: i32) -> &[u8]
    ensures { result.now ≡ programs.substring octets.now begin end }
{
    behind(front(octets, up_to(end)), in_front(begin))
}

/// How many octets stand in front of the first place at which the target does. In no octets nothing is found, not even a
/// target without octets. It takes as long as target and octets are, whatever they are, and no memory.
#[tactic(auto, using(crate::proofs::SearchLemmas::is_searched))]
pub(crate) fn searched(target: &[u8], octets: &[u8]) -> Option<usize>
    ensures found { result ≡ programs.searched target.now octets.now }
    ensures bounded { IfSome result (λ n. n + length target.now ≤ length octets.now) }
{
    if octets.is_empty() {
        return None;
    }
    memmem::find(octets, target)
}

/// The same from a place on.
pub(crate) fn searched_from(octets: &[u8], start: i32, target: &[u8]) -> Option<usize>
    ensures found { result ≡ programs.searched_from octets.now start target.now }
    ensures bounded { IfSome result (λ n. n + length target.now ≤ length octets.now) }
{
    searched(target, behind(octets, in_front(start)))
}
