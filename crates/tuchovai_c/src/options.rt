// Options as one number.
ghost use Rattle.std.specs.Prelude.{◌≡◌};
ghost use Rattle.tuchovai_c.specs.Numbers.{format_of, options_of};

use marks::{LinkOptions, OutputFormat};

fn format_of(number: u32) -> OutputFormat
    ensures { result ≡ format_of number }
{
    match number {
        0 => OutputFormat::Esm,
        1 => OutputFormat::Cjs,
        2 => OutputFormat::Iife,
        _ => OutputFormat::Umd,
    }
}

/// The format in the two lowest bits, then the four switches; none where a higher bit is set.
// No `TryFrom`: the number and the options are both types of others.
pub fn options_of(number: u32) -> Option<LinkOptions>
    ensures { result ≡ options_of number }
{
    if number >= 64 {
        return None;
    }
    Some(LinkOptions {
        format: format_of(number & 3),
        splitting_off: number >> 2 & 1 == 1,
        strict_order: number >> 3 & 1 == 1,
        manual_groups: number >> 4 & 1 == 1,
        profiler_names: number >> 5 & 1 == 1,
    })
}
