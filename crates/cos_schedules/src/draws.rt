// Numbers that are drawn.
ghost use Rattle.std.specs.Prelude.{◌≡◌, ◌<◌, ◌%◌};
ghost use Rattle.cos_schedules.specs.Schedules.{following, drawn};

/// A generator of numbers. The same `x` draws the same numbers.
#[derive(Drop)]
pub struct Draws {
    pub x: u64,
}

impl Draws {
    /// Draws a number below 2^31.
    pub fn next(&mut self) -> u32
        ensures drawn { result ≡ drawn self.old.x }
        ensures x { self.new.x ≡ following self.old.x }
    {
        self.x = self
            .x
            .wrapping_mul(6_364_136_223_846_793_005)
            .wrapping_add(1_442_695_040_888_963_407);
        (self.x >> 33) as u32
    }

    /// Draws a number below `limit`.
    pub fn below(&mut self, limit: u64) -> u32
        requires { 0 < limit }
        ensures drawn { result ≡ drawn self.old.x % limit }
        ensures below { result < limit }
        ensures x { self.new.x ≡ following self.old.x }
    {
        (u64::from(self.next()) % limit) as u32
    }
}
