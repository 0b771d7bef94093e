// The mode, CCM over AES-128. Nothing else here names it.
ghost use Rattle.std.specs.Prelude.{◌≡◌, ◌+◌, ◌-◌, ◌≤◌, not, ◌++◌, length, drop};
ghost use Rattle.octets.specs.Options.{contents, is_none};
ghost use Rattle.rules.specs.Limits.{least_data, most_data, most_body};
ghost use Rattle.rules.specs.Mode.{code_octets, sealed_text, opened_body};

use crate::number::CCMP_HEADER;
use rules::KEY_OCTETS;

// The octets that sealing adds: the CCMP header and the code.
pub const ADDED: usize = CCMP_HEADER + ccm::CODE_OCTETS;

// The text of a body into the front of out.
pub(crate) fn put_text(
    key: [u8; KEY_OCTETS],
    nonce: [u8; 13],
    aad: &[u8],
    body: &[u8],
    out: &mut [u8],
)
    requires least_data_in_bounds { (least_data ≤ length aad.now) × (length aad.now ≤ most_data) × (length body.now ≤ most_body) }
    requires code_octets_in_bounds { length body.now + code_octets ≤ length out.old }
    ensures { out.new ≡ contents (sealed_text key nonce aad.now body.now) ++ drop (length body.now + code_octets) out.old }
{
    ccm::seal(key, nonce, aad, body, out);
}

// The body of a text into the front of out, where the code is right.
pub(crate) fn put_body(
    key: [u8; KEY_OCTETS],
    nonce: [u8; 13],
    aad: &[u8],
    text: &[u8],
    out: &mut [u8],
) -> bool
    requires { length text.now - code_octets ≤ length out.old }
    ensures value { result ≡ not (is_none (opened_body key nonce aad.now text.now)) }
    ensures out_after { out.new ≡ contents (opened_body key nonce aad.now text.now)
        ++ drop (length (contents (opened_body key nonce aad.now text.now))) out.old }
{
    ccm::open(key, nonce, aad, text, out).is_some()
}
