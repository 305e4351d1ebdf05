// Bytes that others chose, so that neither a terminal nor a reader is misled by them: printable ASCII as it is, a quote and a
// backslash behind a backslash, every other byte as \xNN, and all of it between quotes.
ghost use Rattle.std.specs.Prelude.{◌≡◌, ◌+◌, ◌*◌, ◌≤◌, ◌<◌, length};
ghost use Rattle.quotes.specs.Escape.{Appended, escaped_byte, hex_digit, is_printable, is_special};
ghost use Rattle.quotes.specs.Quote.{Quoted};

fn hex_digit(d: u8) -> u8
    requires { d < 16 }
    ensures { result ≡ hex_digit d }
{
    if d < 10 {
        return 48 + d;
    }
    87 + d
}

fn is_printable(b: u8) -> bool
    ensures { result ≡ is_printable b }
{
    32 <= b && b <= 126
}

// A quote or a backslash.
fn is_special(b: u8) -> bool
    ensures { result ≡ is_special b }
{
    b == 34 || b == 92
}

// One byte, escaped, is put at a place; the next place is answered.
fn escape_byte(b: u8, out: &mut [u8], at: usize) -> usize
    requires { at + 4 ≤ length out.old }
    ensures { Appended out.old at (escaped_byte b) result out.new }
{
    if is_special(b) {
        out[at] = 92;
        out[at + 1] = b;
        return at + 2;
    }
    if is_printable(b) {
        out[at] = b;
        return at + 1;
    }
    out[at] = 92;
    out[at + 1] = 120;
    out[at + 2] = hex_digit(b / 16);
    out[at + 3] = hex_digit(b % 16);
    at + 4
}

// The bytes, escaped and between quotes, are put at the start of an output that has room for them; how many they are is answered.
pub(crate) fn quote(s: &[u8], out: &mut [u8]) -> usize
    requires { 4 * length s.now + 2 ≤ length out.old }
    ensures { Quoted s.now out.old result out.new }
{
    out[0] = 34;
    let mut at = 1;
    for b in s {
        at = escape_byte(*b, out, at);
    }
    out[at] = 34;
    at + 1
}
