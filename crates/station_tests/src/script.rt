// What a test does with a station, as data: one call after the other, each with all that it answers and leaves.

// All of a fault: number, layer, form, place and next place.
#[derive(Clone, Copy, PartialEq, Eq, Debug)]
pub struct Refused(pub u8, pub u8, pub u8, pub usize, pub usize);

// Bodies are parted by `|`.
#[derive(Clone, Copy)]
pub enum Step {
    // These commands are done, and no buffer is written.
    Does(&'static [u8]),
    // The same, so many times.
    Repeats(&'static [u8], u32),
    // This command, alone in a job, is refused, and nothing changes.
    Refuses(&'static [u8], Refused),
    // So is the command at a place of these bytes.
    RefusesAt(&'static [u8], usize, Refused),
    // Each of these commands is refused at its own place, by this number of the station.
    RefusesAll(&'static [u8], u8),
    // This recall is done, and leaves the form with these bodies in the work buffer.
    Recalls(&'static [u8], &'static [u8]),
    // So does a recall that is refused inside; nothing else changes.
    RefusesInside(&'static [u8], &'static [u8], Refused),
    // The status answer is this one.
    Tells(&'static [u8]),
    // The next tag has this line.
    Prints(&'static [u8]),
    // A print that is lent so many bytes is refused, by number and layer, and nothing changes.
    PrintsNot(usize, u8, u8),
    // A picture that is lent so many bytes is refused.
    DrawsNot(usize),
    // The picture has so many black dots.
    Shows(u32),
    Reloads,
}

// The status answer where nothing is owed.
pub const NOTHING_OWED: Step = Step::Tells(b"\x01\x020010000\x03\x04\r\n");

// There is nothing to print.
pub const NOTHING_TO_PRINT: Step = Step::PrintsNot(1404, 22, b'S');

// The stock is out.
pub const OUT_OF_STOCK: Step = Step::PrintsNot(1404, 23, b'P');
