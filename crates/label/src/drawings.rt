// The drawings of a label, in the order in which they were made: at most 24.
ghost use Rattle.std.specs.Prelude.{◌≡◌, []};
ghost use Rattle.label.specs.Labels.{seen_drawings};

use fixedvec::FixedVec;
use limits::sizes::MOST_DRAWINGS;
use picture::drawing::Drawing;

pub(crate) type Drawings = FixedVec<Drawing, MOST_DRAWINGS>;

// What stands in the places without a drawing.
const UNUSED: Drawing = Drawing::Level {
    y: 0,
    from: 0,
    to: 0,
    thick: 0,
};

pub(crate) fn no_drawings() -> Drawings
    ensures { seen_drawings result ≡ [] }
{
    FixedVec::new(UNUSED)
}
