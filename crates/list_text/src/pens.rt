// A text that is written, or held against one that stands there.
ghost use Rattle.std.specs.Prelude.{◌≤◌, length};

use words::lay;

// Where it goes on, and whether it is held against what stands there.
#[derive(Clone, Copy)]
pub(crate) struct Pen {
    pub(crate) at: usize,
    pub(crate) is_held: bool,
}

// How many bytes two runs begin with alike.
pub(crate) fn alike(a: &[u8], b: &[u8]) -> usize
    ensures { (result ≤ length a.now) × (result ≤ length b.now) }
{
    let most = a.len().min(b.len());
    for i in 0..most {
        if a[i] != b[i] {
            return i;
        }
    }
    most
}

fn hold(out: &[u8], p: Pen, s: &[u8]) -> Result<Pen, usize> {
    let at = p.at;
    if out.len() < at {
        return Err(at);
    }
    let n = alike(&out[at..], s);
    if n < s.len() {
        return Err(at + n);
    }
    Ok(Pen { at: at + n, ..p })
}

// One piece more; or how far all was the same, or had room.
pub(crate) fn put(out: &mut [u8], p: Pen, s: &[u8]) -> Result<Pen, usize> {
    if p.is_held {
        return hold(out, p, s);
    }
    let at = p.at;
    if out.len() < at {
        return Err(at);
    }
    if out.len() - at < s.len() {
        return Err(at);
    }
    lay(out, at, s);
    Ok(Pen {
        at: at + s.len(),
        ..p
    })
}

pub(crate) fn put_number(out: &mut [u8], p: Pen, n: u32) -> Result<Pen, usize> {
    let mut digits = [0u8; 20];
    let k = io::decimal(n as u64, &mut digits);
    put(out, p, &digits[..k])
}
