// Two tables are written, and neither takes its name before both are on the disk.
use crate::saves::{OTHER, set_aside, sync_directory, take_name};
use crate::system::unlink;
use lines::{Out, STDERR_FILENO};
use texts::first_of;

// The modes that the two new files have, where they are asked for: the umask gives one mode alone.
#[derive(Clone, Copy)]
pub struct Modes {
    pub one: Option<u32>,
    pub two: Option<u32>,
}

// One file is new, and the other could not take its name.
fn tell_half(one: &[u8], two: &[u8]) {
    let mut out = Out::to(STDERR_FILENO);
    out.put(b"scrieve: ");
    out.put_file(one);
    out.put(b" is new, ");
    out.put_file(two);
    out.put(b" is as it was\n");
    out.flush();
}

// The second step: both take their names, and the directories are on the disk too.
fn take_names(
    rt: &HostRuntime,
    one_other: &[u8],
    one: &[u8],
    two_other: &[u8],
    two: &[u8],
) -> bool {
    if !take_name(rt, one_other, one) {
        unlink(rt, two_other);
        return false;
    }
    if !take_name(rt, two_other, two) {
        tell_half(one, two);
        return false;
    }
    let is_one = sync_directory(rt, one);
    let is_two = sync_directory(rt, two);
    is_one & is_two
}

// Both stand under their names, and on the disk; else standard error says why not.
pub fn save_both(
    rt: &HostRuntime,
    one: &[u8],
    first: &[u8],
    two: &[u8],
    second: &[u8],
    modes: Modes,
) -> bool {
    let mut one_other = [0u8; OTHER];
    let mut two_other = [0u8; OTHER];
    let one_mode = modes.one;
    let two_mode = modes.two;
    let Some(n) = set_aside(rt, one, first, one_mode, &mut one_other) else {
        return false;
    };
    let Some(m) = set_aside(rt, two, second, two_mode, &mut two_other) else {
        unlink(rt, first_of(&one_other, n));
        return false;
    };
    take_names(
        rt,
        first_of(&one_other, n),
        one,
        first_of(&two_other, m),
        two,
    )
}
