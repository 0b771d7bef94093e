// The front of a buffer: what it is, and the number of its layout.
ghost use Rattle.std.specs.Prelude.{◌≡◌, [], ◌∷◌, ◌≤◌, length, take};
ghost use Rattle.kondrivai.specs.Front.{front_octets, is_of};
ghost use Rattle.kondrivai.specs.Kinds.{kind_octet};
ghost use Rattle.kondrivai.specs.Layout1.{layout};

use crate::number::put_octet;

#[derive(Clone, Copy)]
pub(crate) enum Kind {
    Sender,
    Receiver,
}

const LAYOUT: u8 = 1;

impl Kind {
    fn octet(self) -> u8
        ensures { result ≡ kind_octet self }
    {
        match self {
            Kind::Sender => b'S',
            Kind::Receiver => b'R',
        }
    }
}

// Writes the front.
pub(crate) fn put_front(kind: Kind, b: &mut [u8])
    requires { front_octets ≤ length b.old }
    ensures { take front_octets b.new ≡ kind_octet kind ∷ layout ∷ [] }
{
    put_octet(kind.octet(), b, 0);
    put_octet(LAYOUT, b, 1);
}

// Whether b is of this kind, and of the layout.
pub(crate) fn is_of(b: &[u8], kind: Kind) -> bool
    requires { front_octets ≤ length b.now }
    ensures { result ≡ is_of (kind_octet kind) layout (length b.now) b.now }
{
    b[0] == kind.octet() && b[1] == LAYOUT
}
