// A description, as it is handed over.
ghost use Rattle.std.specs.Prelude.{◌≡◌};
ghost use Rattle.descriptions.specs.KindNumbers.{described_of};

use descriptions::{Description, Sizes, of_kind};

// What is answered for an unknown kind. The C interface has no Option: it answers by numbers.
pub(crate) const UNKNOWN_KIND: u32 = 0xffff_ffff;

// The description of a kind by its number and its sizes, which the C interface takes one by one.
// There is none of an unknown kind.
pub(crate) fn described(
    kind: u32,
    divisions: u32,
    steps: u32,
    centred: bool,
    size: f32,
    length: f32,
) -> Option<Description>
    ensures { result ≡ described_of kind divisions steps centred size length }
{
    let sizes = Sizes {
        divisions,
        steps,
        centred,
        size,
        length,
    };
    of_kind(kind, sizes)
}
