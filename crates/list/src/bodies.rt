// A body in as many fields as it takes: "A body of exactly 65,535 bytes is followed by a field of tag 127 that carries it on, empty if need be".
ghost use Rattle.std.specs.Prelude.{◌≡◌, ◌+◌, ◌≤◌, length};
ghost use Rattle.list.specs.Making.{BodyPut};
ghost use Rattle.lists.specs.List.{body_fields, field, fields_length};
ghost use Rattle.paper.specs.terms.Put.{put};

const MOST: usize = 65535;

const CARRY: u8 = 127;

// How many bytes the fields of a body of so many bytes take.
pub(crate) fn fields_len(n: usize) -> usize
    requires { n ≤ 1000000 }
    ensures { result ≡ fields_length n }
{
    let fields = n / MOST + 1;
    n + 3 * fields
}

// One field at a place of an output.
fn put_field(tag: u8, body: &[u8], out: &mut [u8], at: usize)
    requires { (length body.now ≤ 65535) × (at + (3 + length body.now) ≤ length out.old) }
    ensures { out.new ≡ put out.old at (field tag body.now) }
{
    let len = body.len();
    let head = [tag, (len % 256) as u8, (len / 256) as u8];
    words::lay(out, at, &head);
    let behind = at + 3;
    words::lay(out, behind, body);
}

// All fields of a body, one behind the other.
pub(crate) fn put_body(tag: u8, body: &[u8], out: &mut [u8], at: usize)
    requires { (length body.now ≤ 1000000) × (at + fields_length (length body.now) ≤ length out.old) }
    ensures { out.new ≡ put out.old at (body_fields tag body.now) }
{
    let full = body.len() / MOST;
    let mut t = tag;
    for k in 0..full {
        let from = MOST * k;
        let to = from + MOST;
        put_field(t, &body[from..to], out, at + (3 + MOST) * k);
        t = CARRY;
    }
    let last = MOST * full;
    put_field(t, &body[last..], out, at + (3 + MOST) * full);
}

// A body's bytes, out of its fields, which begin at a place: laid at a place of an output.
pub(crate) fn gather_body(s: &[u8], at: usize, len: usize, out: &mut [u8], to: usize)
    requires { (len ≤ 1000000) × (at + fields_length len ≤ length s.now) × (to + len ≤ length out.old) }
    ensures { BodyPut s.now at len out.old to out.new }
{
    let full = len / MOST;
    for k in 0..full {
        let start = at + (3 + MOST) * k + 3;
        let end = start + MOST;
        words::lay(out, to + MOST * k, &s[start..end]);
    }
    let start = at + (3 + MOST) * full + 3;
    let end = start + len % MOST;
    words::lay(out, to + MOST * full, &s[start..end]);
}
