//! Where a part begins in the bytes of the caller.

ghost use Rattle.std.specs.Prelude.{◌≡◌, ◌≤◌, length};
ghost use Rattle.is_c.specs.ServersPackets.{begins_at, IsPlaceFrom, IsOffset};

/// Whether the part begins at this byte.
fn begins_at(whole: &[u8], part: &[u8], at: usize) -> bool
    requires { at ≤ length whole.now }
    ensures { result ≡ begins_at whole.now part.now at }
{
    whole[at..].starts_with(part)
}

/// The first place from this one on at which the part begins.
pub(crate) fn place_from(whole: &[u8], part: &[u8], first: usize) -> Option<usize>
    ensures { IsPlaceFrom whole.now part.now first result }
{
    for at in first..whole.len() {
        if begins_at(whole, part, at) {
            return Some(at);
        }
    }
    None
}

/// How many bytes come before the part. Before an empty one: none.
pub(crate) fn offset_of(whole: &[u8], part: &[u8]) -> Option<usize>
    ensures { IsOffset whole.now part.now result }
{
    if part.is_empty() {
        Some(0)
    } else {
        place_from(whole, part, 0)
    }
}
