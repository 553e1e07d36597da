//! The front of bytes: what stands there, and what stands behind it.
ghost use Rattle.std.specs.Prelude.{◌≡◌, ◌≤◌, length};
ghost use Rattle.std.specs.List.{prefix_len};
ghost use Rattle.mh_look.specs.Front.{IsInFront, is_other, before, behind};

/// The length of the text, if the bytes begin with it.
pub fn length_in_front(bytes: &[u8], text: &[u8]) -> Option<usize>
    ensures { IsInFront bytes.now text.now result }
{
    if bytes.starts_with(text) {
        Some(text.len())
    } else {
        None
    }
}

/// What stands in front of the first such byte; all, where there is none.
#[tactic(auto, unfolding(crate::specs::Front::before))]
pub fn before(bytes: &[u8], byte: u8) -> &[u8]
    ensures { result.now ≡ before byte bytes.now }
{
    &bytes[..count_before(bytes, byte)]
}

/// What stands behind the first such byte; nothing, where there is none.
#[tactic(auto, unfolding(crate::specs::Front::behind))]
pub fn behind(bytes: &[u8], byte: u8) -> &[u8]
    ensures { result.now ≡ behind byte bytes.now }
{
    let count = count_before(bytes, byte);
    if count < bytes.len() {
        &bytes[count + 1..]
    } else {
        &[]
    }
}

fn count_before(bytes: &[u8], byte: u8) -> usize
    ensures count { result ≡ prefix_len (is_other byte) bytes.now }
    ensures within { result ≤ length bytes.now }
{
    bytes.iter().take_while(|b| **b != byte).count()
}
