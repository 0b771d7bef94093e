// The search for an octet.
ghost use Rattle.std.specs.Prelude.{◌≡◌, ◌==◌, length, nat_lt, position};
ghost use Rattle.octets.specs.Search.{index_of};

// The first octets are tested one by one, so that a near one is found soon, and the others so many at once.
const NEAR: usize = 16;

const BLOCK: usize = 64;

// Whether x is among the octets. It is gathered over the loop, which then has no branch on what it reads, as `any` would.
fn has(s: &[u8], x: u8) -> bool
    ensures { result ≡ nat_lt (index_of x s.now) (length s.now) }
{
    let mut seen = false;
    for y in s {
        seen = seen | (*y == x);
    }
    seen
}

// The place of the first x, where there is one. A `while`, since it goes from block to block only until one has it.
pub(crate) fn find(s: &[u8], x: u8) -> Option<usize>
    ensures { result ≡ position (λ y. y == x) s.now }
{
    if s.len() < NEAR {
        return octets::find(s, x);
    }
    if let Some(i) = octets::find(&s[..NEAR], x) {
        return Some(i);
    }
    let mut at = NEAR;
    while BLOCK <= s.len() - at && !has(&s[at..at + BLOCK], x) {
        at += BLOCK;
    }
    let i = octets::find(&s[at..], x)?;
    Some(at + i)
}
