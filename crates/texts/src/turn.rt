// Turning a text by a signed step, by any counting rule.
ghost use Rattle.std.specs.Prelude.{◌≡◌, suc, ◌+◌, ◌-◌, ◌*◌, ◌^◌, ◌<◌, true, length};
ghost use Rattle.texts.specs.Plain.{IsText};
ghost use Rattle.texts.specs.Turning.{Turned};
ghost use Rattle.texts.specs.Rolling.{Rolls, Rolled};

use crate::rule::CountingRule;

// What is to be carried into a wheel, and which way.
// Kept so: a signed number would be asked for its sign at every wheel, and could not hold the lowest step turned
// round.
#[derive(Clone, Copy)]
struct Carry {
    down: bool,
    by: u64,
}

impl Carry {
    // Whole rounds of a wheel, and the rest. Most often there is no round, and so no division.
    fn rounds(&self, radix: u8) -> (u64, u8)
        requires { 1 < radix }
        ensures below { result.1 < radix }
        ensures few { result.0 < 2 ^ 63 }
        ensures sum { result.0 * radix + result.1 ≡ self.now.by }
    {
        let size = u64::from(radix);
        if self.by < size {
            return (0, self.by as u8);
        }
        (self.by / size, (self.by % size) as u8)
    }

    // The value that a wheel turns to; then it is what the wheel carries on.
    fn roll(&mut self, radix: u8, value: u8) -> u8
        requires wheel { 1 < radix }
        requires low { value < radix }
        ensures below { result < radix }
        ensures way { self.new.down ≡ self.old.down }
        ensures rolls { Rolls self.old.down radix value self.old.by result self.new.by }
    {
        let (whole, part) = self.rounds(radix);
        let room = radix - part;
        let (turned, round) = if self.down {
            if value < part {
                (value + room, 1)
            } else {
                (value - part, 0)
            }
        } else if value < room {
            (value + part, 0)
        } else {
            (value - room, 1)
        };
        self.by = whole + round;
        turned
    }
}

// Turns one place by what is carried into it. A fixed place passes all of it on.
fn turn_place<R: CountingRule>(rule: &R, text: &mut [u8], place: usize, carry: &mut Carry)
    requires text { IsText text.old }
    requires inside { place < length text.old }
    ensures way { carry.new.down ≡ carry.old.down }
    ensures rolled { let wheels = R.CountingRule.wheels rule.now in
        Rolled wheels text.old place carry.old.down carry.old.by text.new carry.new.by }
{
    let radix = rule.radix(text, place);
    if radix >= 2 {
        let turned = carry.roll(radix, rule.value(text, place));
        text[place] = rule.byte(text, place, turned);
    }
}

// Turns a text's bytes, the rightmost place first. Every wheel gets the byte of its value, also where that is the value
// it had.
pub(crate) fn turn_wheels<R: CountingRule>(rule: &R, text: &mut [u8], step: i64)
    requires { IsText text.old }
    ensures { Turned (R.CountingRule.wheels rule.now) text.old step text.new }
{
    if step == 0 {
        return;
    }
    let mut carry = Carry {
        down: step < 0,
        by: step.unsigned_abs(),
    };
    let mut left = text.len();
    while left > 0 && carry.by > 0 {
        left -= 1;
        turn_place(rule, text, left, &mut carry);
    }
    rule.rewrite(text, left);
}
