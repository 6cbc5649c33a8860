// What a form store refuses.

/// Why reading a form fills nothing: there is none, or it is longer than the buffer.
#[derive(Clone, Copy, PartialEq, Eq, Debug)]
pub enum LoadFault {
    NoForm,
    NoRoom,
}

/// Why a form store refuses. That there is no form is told by whoever asks for it, not by a put.
#[derive(Clone, Copy, PartialEq, Eq, Debug)]
pub enum StoreFault {
    NoForm,
    TooLong,
    Full,
}
