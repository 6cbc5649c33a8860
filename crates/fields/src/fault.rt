/// Why fields refuse something.
#[derive(Clone, Copy, PartialEq, Eq, Debug)]
pub enum FieldFault {
    NoFormat,
    /// The text of a linked field comes from link strings alone.
    FieldLinked,
    JoinedTooLong,
    /// A character outside the set of the field's check.
    OutsideCheck,
}
