// An order for a run of texts, as a line says it: RULE,TEXT,STEP,CHECK,ZEROS,COUNT.
use std::fmt;
use std::str::FromStr;
use texts::checks::Check;
use texts::text::{Text, TextFault};

#[derive(Clone, Copy, PartialEq, Debug)]
pub enum RuleName {
    Plain,
    Code128,
}

#[derive(Clone, Copy)]
pub struct Order {
    pub rule: RuleName,
    pub text: Text,
    pub step: i64,
    pub check: Check,
    pub kept: Option<u8>,
    pub count: u16,
}

// The part of an order that is wrong, in the order of the line.
#[derive(Clone, Copy, PartialEq, Debug)]
pub enum Wrong {
    Letters,
    Rule,
    TextByte(usize),
    TextLong,
    Step,
    Check,
    Foreign,
    Zeros,
    Count,
    Parts,
}

impl fmt::Display for Wrong {
    fn fmt<W: fmt::Write>(&self, f: &mut fmt::Formatter<W>) -> fmt::Result {
        match self {
            Wrong::Letters => write!(f, "the line is not plain text"),
            Wrong::Rule => write!(f, "the rule is neither plain nor code128"),
            Wrong::TextByte(place) => write!(
                f,
                "the text's byte {place}, counted from 0, may not stand in a text"
            ),
            Wrong::TextLong => write!(f, "the text has over 40 bytes"),
            Wrong::Step => write!(f, "the step is not a signed number of at most ten digits"),
            Wrong::Check => write!(f, "the check is none of M0, M1 and -"),
            Wrong::Foreign => write!(f, "the text has a character outside the set of its check"),
            Wrong::Zeros => write!(f, "the zero suppression is neither - nor Z00 to Z41"),
            Wrong::Count => write!(f, "the count is not 1 to 9999"),
            Wrong::Parts => write!(f, "there are more than six parts"),
        }
    }
}

impl From<TextFault> for Wrong {
    fn from(fault: TextFault) -> Wrong {
        match fault {
            TextFault::BadByte(place) => Wrong::TextByte(place),
            TextFault::TooLong => Wrong::TextLong,
        }
    }
}

impl FromStr for RuleName {
    type Err = Wrong;

    fn from_str(part: &str) -> Result<RuleName, Wrong> {
        match part {
            "plain" => Ok(RuleName::Plain),
            "code128" => Ok(RuleName::Code128),
            _ => Err(Wrong::Rule),
        }
    }
}

// Kept so: the readers of parts are functions, since none of the types read, but RuleName, is this crate's.
fn check_of(part: &str) -> Result<Check, Wrong> {
    match part {
        "-" => Ok(Check::NoCheck),
        "M0" => Ok(Check::Modulus10),
        "M1" => Ok(Check::Modulus43),
        _ => Err(Wrong::Check),
    }
}

// A step has a sign or none, and at most ten digits.
fn step_of(part: &str) -> Result<i64, Wrong> {
    part.parse::<i64>()
        .ok()
        .filter(|step| step.unsigned_abs() <= 9_999_999_999)
        .ok_or(Wrong::Step)
}

// The places that zero suppression keeps: none named, or 00 to 41.
fn kept_of(part: &str) -> Result<Option<u8>, Wrong> {
    if part == "-" {
        return Ok(None);
    }
    let kept = part.strip_prefix('Z').ok_or(Wrong::Zeros)?;
    match kept.parse::<u8>() {
        Ok(kept @ 0..=41) => Ok(Some(kept)),
        _ => Err(Wrong::Zeros),
    }
}

fn count_of(part: &str) -> Result<u16, Wrong> {
    match part.parse::<u16>() {
        Ok(count @ 1..=9999) => Ok(count),
        _ => Err(Wrong::Count),
    }
}

impl FromStr for Order {
    type Err = Wrong;

    fn from_str(line: &str) -> Result<Order, Wrong> {
        let mut parts = line.split(',');
        let rule = parts.next().ok_or(Wrong::Rule)?.parse::<RuleName>()?;
        let text = Text::from_bytes(parts.next().ok_or(Wrong::TextLong)?.as_bytes())?;
        let step = step_of(parts.next().ok_or(Wrong::Step)?)?;
        let check = check_of(parts.next().ok_or(Wrong::Check)?)?;
        let kept = kept_of(parts.next().ok_or(Wrong::Zeros)?)?;
        let count = count_of(parts.next().ok_or(Wrong::Count)?)?;
        if parts.next().is_some() {
            return Err(Wrong::Parts);
        }
        if !check.admits(text.as_bytes()) {
            return Err(Wrong::Foreign);
        }
        Ok(Order {
            rule,
            text,
            step,
            check,
            kept,
            count,
        })
    }
}

impl TryFrom<&[u8]> for Order {
    type Error = Wrong;

    fn try_from(line: &[u8]) -> Result<Order, Wrong> {
        let line = std::str::from_utf8(line).map_err(|_| Wrong::Letters)?;
        line.parse::<Order>()
    }
}
