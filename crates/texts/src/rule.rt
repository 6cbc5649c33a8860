// A counting rule: how the places of a text count.
ghost use Rattle.std.specs.Prelude.{◌≡◌};
ghost use Rattle.texts.specs.Wheels.{Wheels, Lawful};
ghost use Rattle.texts.specs.Turning.{rewritten};

/// A place has a radix, that is how many values it can have (a place of radix 1 is fixed, any other is a wheel), a
/// value below it, and a byte for each such value. specs/Wheels.antt has the laws.
// Kept so: a rule is asked of a text that is being turned; a struct of text and place would borrow what is
// written between.
pub trait CountingRule {
    ghost wheels: { Self → Wheels };

    fn radix(&self, text: &[u8], place: usize) -> u8
        ensures { result ≡ (wheels self.now).radix text.now place };

    fn value(&self, text: &[u8], place: usize) -> u8
        ensures { result ≡ (wheels self.now).value text.now place };

    fn byte(&self, text: &[u8], place: usize, value: u8) -> u8
        ensures { result ≡ (wheels self.now).byte text.now place value };

    /// Gives each wheel among the first `places` of a text the byte of the value that it has: what turning leaves to do
    /// where nothing is carried any more. A rule whose wheels never have another byte has nothing to do, and may say so.
    fn rewrite(&self, text: &mut [u8], places: usize)
        ensures { text.new ≡ rewritten (wheels self.now) text.old places }
    {
        let mut left = places;
        while left > 0 {
            left -= 1;
            if left < text.len() && self.radix(text, left) >= 2 {
                text[left] = self.byte(text, left, self.value(text, left));
            }
        }
    }

    ghost lawful: { (r : Self) → Lawful (wheels r) };
}
