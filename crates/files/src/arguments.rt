// The arguments of the call, by their numbers, of which 0 is the program's own name. They are bytes, and need not be text.
ghost use Rattle.std.specs.Prelude.{◌≤◌, length};

use std::env::FillError;
use std::io::Error;
use std::rt::Env;

// What the system calls an argument that is missing, and one that is longer than the lent bytes.
const EINVAL: i32 = 22;

const ENAMETOOLONG: i32 = 36;

// How many arguments there are.
pub fn arg_count(rt: &HostRuntime) -> usize {
    let mut s = [0u8; 1];
    for i in 0..usize::MAX {
        if let Err(FillError::NotPresent) = rt.arg(i, &mut s) {
            return i;
        }
    }
    usize::MAX
}

// An argument is put at the start of the lent bytes. Its length is answered, or why it is not there as a whole.
pub fn whole_arg(rt: &HostRuntime, i: usize, s: &mut [u8]) -> std::io::Result<usize> {
    match rt.arg(i, s) {
        Ok(n) => Ok(n),
        Err(FillError::NotPresent) => Err(Error::from_raw_os_error(EINVAL)),
        Err(FillError::TooLong) => Err(Error::from_raw_os_error(ENAMETOOLONG)),
    }
}

// The same, and 0 for one that is missing or longer than the lent bytes.
pub fn arg(rt: &HostRuntime, i: usize, s: &mut [u8]) -> usize
    ensures { result ≤ length s.new }
{
    match rt.arg(i, s) {
        Ok(n) => n,
        Err(_) => 0,
    }
}
