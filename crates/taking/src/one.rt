// One field: "one byte of tag, two bytes of length, low byte first, then the body".
ghost use Rattle.std.specs.Prelude.{◌≡◌};
ghost use Rattle.taking.specs.Taking.{FieldOf};
ghost use Rattle.lists.specs.List.{is_string_tag, is_tag};

use lists::Fault;
use rows::is_known;

pub(crate) const CARRY: u32 = 127;

// A tag and the length of its body, which stands behind three bytes.
#[derive(Clone, Copy)]
pub(crate) struct Field {
    pub(crate) tag: u32,
    pub(crate) len: usize,
}

// A string section's tag.
pub(crate) fn is_string_tag(tag: u32) -> bool
    ensures { result ≡ is_string_tag tag }
{
    tag == 32 || tag == 33
}

fn is_tag(tag: u32) -> bool
    ensures { result ≡ is_tag tag }
{
    is_known(tag) | is_string_tag(tag) | (tag == CARRY)
}

// 50 is asked before 51: an unknown tag that is also cut short is an unknown tag.
pub(crate) fn take_field(s: &[u8]) -> Result<Field, Fault>
    ensures { FieldOf result s.now }
{
    if s.len() == 0 {
        return Err(Fault::CutShort);
    }
    let tag = s[0] as u32;
    if !is_tag(tag) {
        return Err(Fault::UnknownTag);
    }
    if s.len() < 3 {
        return Err(Fault::CutShort);
    }
    let len = s[1] as usize + s[2] as usize * 256;
    if s.len() - 3 < len {
        return Err(Fault::CutShort);
    }
    Ok(Field { tag, len })
}
