// A frame as a call sees it: octets enough for the least header, and then all of its header, looked at once.
ghost use Rattle.std.specs.Prelude.{◌≡◌, ◌+◌, ◌*◌, ◌<◌, ◌≤◌, ◌++◌, length, take, drop, ◌==◌, slice_index, slice_set, IfOk};
ghost use Rattle.rules.specs.Limits.{least_header, ht_octets, ccmp_octets};
ghost use Rattle.rules.specs.Header.{qos, order, qos_place, muted_control, address2, authenticated, authenticated_length, header_of, wrong_kind};
ghost use Rattle.rules.specs.Nonce.{nonce, number};
ghost use Rattle.rules.specs.Tests.{header_tests};
ghost use Rattle.ccmp.specs.Verdict.{verdict, found};

use rules::{ADDRESS_OCTETS, Header, Refusal};

const LEAST_HEADER: usize = 24;

const HT_OCTETS: usize = 4;

// The octets of the authenticated data at most.
const MOST_DATA: usize = LEAST_HEADER + ADDRESS_OCTETS;

// The octets of a frame, at least those of the least header.
#[derive(Clone, Copy)]
struct Lent<'a> {
    octets: &'a [u8],
    ghost long: { least_header ≤ length octets.now },
}

impl Lent<'_> {
    // Whether there is QoS Control.
    fn has_qos(self) -> bool
        ensures { result ≡ (qos self.entry.octets.now == 1) }
    {
        let octets = self.octets;
        octets[0] & 0x80 == 0x80
    }

    fn qos_place(self) -> usize
        ensures { result ≡ qos_place self.entry.octets.now }
    {
        let octets = self.octets;
        if octets[1] & 0x03 == 0x03 {
            return LEAST_HEADER + ADDRESS_OCTETS;
        }
        LEAST_HEADER
    }

    // The octets of HT Control in a frame with QoS Control.
    fn ht_octets(self) -> usize
        ensures { result ≡ ht_octets * order self.entry.octets.now }
    {
        let octets = self.octets;
        if octets[1] & 0x80 == 0x80 {
            return HT_OCTETS;
        }
        0
    }

    fn header(self) -> Header
        ensures { result ≡ header_of self.entry.octets.now }
    {
        let octets = self.octets;
        let qos = self.qos_place();
        if self.has_qos() {
            return Header {
                length: qos + 2 + self.ht_octets(),
                qos,
                priority: octets.get(qos).copied().unwrap_or(0) & 0x0f,
                data: qos,
            };
        }
        Header {
            length: qos,
            qos,
            priority: 0,
            data: qos - 2,
        }
    }

    // Test 3.
    fn wrong_kind(self) -> bool
        ensures { result ≡ wrong_kind self.entry.octets.now }
    {
        let octets = self.octets;
        octets[0] & 0x4f != 0x08
    }

    // Frame Control's second octet in the authenticated data: b15 is cleared with QoS Control, and kept without.
    fn muted_octet(self) -> u8
        ensures { result ≡ slice_index (muted_control self.entry.octets.now) 1 }
    {
        let octets = self.octets;
        if self.has_qos() {
            return octets[1] & 0x07 | 0x40;
        }
        octets[1] & 0x87 | 0x40
    }
}

// A frame and its header, all of which stands in it.
#[derive(Clone, Copy)]
pub(crate) struct Frame<'a> {
    pub(crate) octets: &'a [u8],
    pub(crate) header: Header,
    ghost is: { header ≡ header_of octets.now },
    ghost least: { least_header ≤ header.length },
    ghost whole: { header.length ≤ length octets.now },
}

impl<'a> Frame<'a> {
    // Tests 2, 3, 4 and 2 again, and the frame where none applies. `wrong` is what Protected must not be.
    pub(crate) fn tested(octets: &'a [u8], wrong: u8) -> Result<Frame<'a>, Refusal>
        ensures found { found (λ x. x.header) result ≡ verdict (header_tests wrong octets.now) (header_of octets.now) }
        ensures lent { IfOk result (λ x. x.octets.now ≡ octets.now) }
    {
        if octets.len() < LEAST_HEADER {
            return Err(Refusal::Short);
        }
        let lent = Lent { octets };
        if lent.wrong_kind() {
            return Err(Refusal::Kind);
        }
        if (octets[1] >> 6) & 1 == wrong {
            return Err(Refusal::Protected);
        }
        let header = lent.header();
        if octets.len() < header.length {
            return Err(Refusal::Short);
        }
        Ok(Frame { octets, header })
    }

    // Octet i of the authenticated data.
    fn authenticated_octet(self, i: usize) -> u8
        requires inside { i < authenticated_length self.octets.now }
        requires in_bounds { i + 2 < length self.octets.now }
        ensures { result ≡ slice_index (authenticated self.entry.octets.now) i }
    {
        let octets = self.octets;
        let qos = self.header.qos;
        if i == 0 {
            return octets[0] & 0x8f;
        }
        if i == 1 {
            return Lent { octets }.muted_octet();
        }
        if i == 20 {
            return octets[22] & 0x0f;
        }
        if i == 21 {
            return 0;
        }
        if i + 2 == qos {
            return octets[i + 2] & 0x0f;
        }
        if i + 1 == qos {
            return 0;
        }
        octets[i + 2]
    }

    // The authenticated data, in the front of an array with room for the most: there is no heap.
    pub(crate) fn authenticated_data(self) -> [u8; MOST_DATA]
        ensures { take self.entry.header.«data» result ≡ authenticated self.entry.octets.now }
    {
        let mut data = [0u8; MOST_DATA];
        for i in 0..self.header.data {
            data[i] = self.authenticated_octet(i);
        }
        data
    }

    // The nonce of the frame under number n.
    pub(crate) fn nonce(self, n: u64) -> [u8; 13]
        ensures { result ≡ nonce self.entry.header.priority (address2 self.entry.octets.now) n }
    {
        let [_, _, n5, n4, n3, n2, n1, n0] = n.to_be_bytes();
        let octets = self.octets;
        [
            self.header.priority,
            octets[10],
            octets[11],
            octets[12],
            octets[13],
            octets[14],
            octets[15],
            n5,
            n4,
            n3,
            n2,
            n1,
            n0,
        ]
    }

    // The packet number in the CCMP header, which stands after the header.
    pub(crate) fn number(self) -> u64
        requires { self.header.length + ccmp_octets ≤ length self.octets.now }
        ensures { result ≡ number self.entry.octets.now }
    {
        let h = self.header.length;
        let octets = self.octets;
        u64::from_le_bytes([
            octets[h],
            octets[h + 1],
            octets[h + 4],
            octets[h + 5],
            octets[h + 6],
            octets[h + 7],
            0,
            0,
        ])
    }

    // The header, with another octet 1, into the front of out.
    pub(crate) fn put_header(self, second: u8, out: &mut [u8])
        requires { self.header.length ≤ length out.old }
        ensures { out.new ≡ slice_set (take self.entry.header.length self.entry.octets.now) 1 second
            ++ drop self.entry.header.length out.old }
    {
        let (header, _) = self.octets.split_at(self.header.length);
        octets::copy(header, out);
        out[1] = second;
    }
}
