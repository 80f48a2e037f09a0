// Facts about one code point.
ghost use Rattle.call_bytes.specs.Reply.{Replied, told};
ghost use Rattle.call_rows.specs.Characters.{fact};

// A fact about the code point x.
#[unsafe(no_mangle)]
pub extern "C" fn tsivareza_character(op: u32, x: u32, out: &mut [u32; 1]) -> u32
    ensures { Replied (told (fact op x)) out.old result out.new }
{
    call_rows::character(op, x, out)
}
