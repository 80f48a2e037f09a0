// The flag that a host adds to the number of a call on widths, 256: class A is wide.
ghost use Rattle.std.specs.Prelude.{◌≡◌};
ghost use Rattle.call_rows.specs.Flags.{setting_of, plain_of};

use widths::Ambiguous;

// The setting by a number with or without the flag.
pub fn setting_of(op: u32) -> Ambiguous
    ensures { result ≡ setting_of op }
{
    if op < 256 {
        return Ambiguous::Narrow;
    }
    Ambiguous::Wide
}

// The number without the flag.
pub fn plain_of(op: u32) -> u32
    ensures { result ≡ plain_of op }
{
    if op < 256 {
        return op;
    }
    op - 256
}
