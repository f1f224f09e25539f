// What asks something of the program: that what is shown lies in its output.
ghost use Rattle.std.specs.Prelude.{length};
ghost use Rattle.show.specs.Shown.{Fits};

use crate::{fail, write_output};
use show::Shown;
use std::rt::Env;

// Writes what is shown, and tells how it went.
pub fn write_shown(rt: &impl Env, name: &[u8], shown: Shown, out: &[u8])
    requires { Fits shown (length out.now) }
{
    match shown {
        Shown::Text(n) => write_output(rt, name, &out[..n], b'0'),
        Shown::Refused(n) => write_output(rt, name, &out[..n], b'1'),
        Shown::NoRoom => fail(rt, name, b": the answer has no room\n"),
    }
}
