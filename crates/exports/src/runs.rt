// A session, from its bytes to what it prints.
ghost use Rattle.session.specs.Session.{session_of};
ghost use Rattle.session.specs.Written.{Printed};

// Prints into `out` what the input asks for, and answers how many bytes that is.
#[unsafe(no_mangle)]
pub extern "C" fn tsivareza_session(input: &[u8], out: &mut [u8; 393240]) -> usize
    ensures { Printed out.old (session_of input.now) result out.new }
{
    session::session(input, out)
}
