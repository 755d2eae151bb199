// A curve written as its page.

ghost use Rattle.std.specs.Prelude.{◌≡◌, ℕ, ◌+◌, ◌*◌, ◌<◌, ◌≤◌, length, MatchResult, slice_index};
ghost use Rattle.cause.specs.declared.Cause.TheVariants.{BufferShort};
ghost use Rattle.curve.specs.Page.{Spelt, Written};
ghost use Rattle.curve.specs.Changes.{Kept};
ghost use Rattle.curve.specs.Held.{held};

use crate::curve::Curve;
use cause::Cause;

// Writes `v` at `at`, the low byte first.
fn put(buffer: &mut [u8], at: usize, v: u16)
    requires { at + 2 ≤ length buffer.old }
    ensures spelt { Spelt buffer.new at v }
    ensures kept { Kept buffer.old buffer.new at (at + 2) }
{
    let [low, high] = v.to_le_bytes();
    buffer[at] = low;
    buffer[at + 1] = high;
}

impl Curve {
    // Writes this curve as its page at the start of a buffer that has room for it.
    fn fill(&self, buffer: &mut [u8])
        requires { 1 + 4 * self.now.count ≤ length buffer.old }
        ensures { Written (held self.now) buffer.old buffer.new (1 + 4 * self.now.count) }
    {
        let points = self.points();
        buffer[0] = points.len() as u8;
        for (j, point) in points.iter().enumerate() {
            put(buffer, 1 + 2 * j, point.month);
            put(buffer, 1 + 2 * self.count + 2 * j, point.haircut);
        }
    }

    // Writes this curve as its page and returns the length; the bytes after it stay.
    pub fn write(&self, buffer: &mut [u8]) -> Result<usize, Cause>
        ensures { MatchResult result
            (λ n. (n ≡ 1 + 4 * self.now.count) × Written (held self.now) buffer.old buffer.new n)
            (λ e. (e ≡ BufferShort) × (length buffer.old < 1 + 4 * self.now.count) × (buffer.new ≡ buffer.old)) }
    {
        let size = 1 + 4 * self.count;
        if buffer.len() < size {
            return Err(Cause::BufferShort);
        }
        self.fill(buffer);
        Ok(size)
    }
}
