// Why a well-formed command is refused: the refusal, the form in which it stands (0: in none) and its place there.
ghost use Rattle.std.specs.Prelude.{◌≡◌};

use faults::Refusal;

#[derive(Clone, Copy)]
pub struct Blame {
    pub refusal: Refusal,
    pub form: u8,
    pub place: usize,
}

// A fault of a lower layer, with the form and the place of the command that it came at. It turns into a blame.
#[derive(Clone, Copy)]
pub struct PlacedFault<E> {
    pub form: u8,
    pub place: usize,
    pub why: E,
}

impl<E: Drop> PlacedFault<E> {
    // At a command of the job itself.
    pub(crate) fn in_job(place: usize, why: E) -> PlacedFault<E>
        ensures { result ≡ record { form = 0; place = place; why = why } }
    {
        PlacedFault {
            form: 0,
            place,
            why,
        }
    }
}

impl<E: Into<Refusal>> From<PlacedFault<E>> for Blame {
    ghost from_gives = { λ e r.
        (E.converts e.why r.refusal) × ((r.form ≡ e.form) × (r.place ≡ e.place)) };

    fn from(e: PlacedFault<E>) -> Blame {
        let PlacedFault { form, place, why } = e;
        Blame {
            refusal: why.into(),
            form,
            place,
        }
    }
}
