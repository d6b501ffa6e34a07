// The levels of interrupt lines.
ghost use Rattle.std.specs.Prelude.{◌≡◌};
ghost use Rattle.cos_api.specs.Levels as levels;

/// The levels of the 32 interrupt lines, line i in bit i, with that of one line set. From 32 on there is no line.
pub fn with_level(lines: u32, number: u32, level: bool) -> u32
    ensures { result ≡ levels.with_level lines number level }
{
    if number >= 32 {
        return lines;
    }
    let bit = 1 << number;
    if level { lines | bit } else { lines & !bit }
}
