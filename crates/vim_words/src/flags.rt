// What a table's tokens say of the codes up to 255, and of the letters above.
ghost use Rattle.std.specs.Prelude.{◌≡◌, false, ◌≤◌, length};
ghost use Rattle.vim_reader.specs.Table.{kept};
ghost use Rattle.vim_words.specs.Flags.{flag_of, Told, Flags, last_letters};

use vim_grammar::VimToken;
use vim_reader::VimSpec;

// The flag of what a token says: 0 where it excludes.
fn said(out: bool) -> u32
    ensures { result ≡ flag_of out }
{
    if out { 0 } else { 1 }
}

// One more token: each code that it speaks of has what it says, and the others keep their flag.
fn tell(flags: &mut [u32; 256], t: VimToken)
    requires { length flags.old ≡ 256 }
    ensures { Told t flags.old flags.new }
{
    let flag = said(t.out);
    for c in 0..256 {
        let x = c as u32;
        if t.speaks(letters::is_letter(x), x) {
            flags[c] = flag;
        }
    }
}

// A flag for each code up to 255: 1 where the table holds it.
pub fn flags_of(spec: VimSpec) -> [u32; 256]
    requires { spec.len ≤ 128 }
    ensures { Flags (kept spec) result }
{
    let mut flags = [0u32; 256];
    for t in &spec.tokens[..spec.len] {
        tell(&mut flags, *t);
    }
    flags
}

// Whether the letters count: what the last token of letters says, no where there is none.
pub fn letters_of(spec: VimSpec) -> bool
    requires { spec.len ≤ 128 }
    ensures { result ≡ last_letters false (kept spec) }
{
    let mut is = false;
    for t in &spec.tokens[..spec.len] {
        if t.kind == 1 {
            is = !t.out;
        }
    }
    is
}
