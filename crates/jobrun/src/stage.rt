// What one step of a job came to.
use faults::Fault;

pub mod reckoning;

#[derive(Clone, Copy)]
pub enum Stage {
    // The printer took a tag; the front of the work buffer has its line, of so many bytes.
    Tag(usize),
    // A command was accepted; the job goes on at this place.
    Done(usize),
    // A command was refused; the job goes on at the fault's next place.
    Refused(Fault),
    // The job is over: at its end or bounds, or for want of room in a buffer.
    Ended(Fault),
    // Labels are owed, and a reload brings no stock any more.
    NoStock(Fault),
}
