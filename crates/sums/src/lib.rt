// The fill of a lent slice before a call of a vector file's, and its sum after it.
#![tactic(auto)]

ghost use Rattle.std.specs.Prelude.{◌≡◌, ◌++◌, ◌<◌, length};
ghost use Rattle.paper.specs.declared.Order.TheVariants.{LowFirst};
ghost use Rattle.paper.specs.rules.Word.{bytes_of_words, word_bytes};
ghost use Rattle.sums.specs.Sum.{after_byte, lent_bytes, lent_places, sum_from, sum_of};

// The sum of no bytes.
const START: u64 = 1;

// The sum after one more byte.
fn add(sum: u64, byte: u64) -> u64
    requires { (sum < 4294967291) × (byte < 256) }
    ensures { (result < 4294967291) × (result ≡ after_byte sum byte) }
{
    (sum * 257 + byte) % 4294967291
}

// The sum after the four bytes of a place, low byte first.
fn add_place(sum: u64, place: u32) -> u64
    requires { sum < 4294967291 }
    ensures { (result < 4294967291) × (result ≡ sum_from sum (word_bytes LowFirst place)) }
{
    let w = place as u64;
    let s = add(sum, w % 256);
    let s = add(s, w / 256 % 256);
    let s = add(s, w / 65536 % 256);
    add(s, w / 16777216 % 256)
}

// The sum after the bytes of a slice.
fn add_bytes(start: u64, s: &[u8]) -> u64
    requires { start < 4294967291 }
    ensures { (result < 4294967291) × (result ≡ sum_from start s.now) }
{
    let mut sum = start;
    for byte in s {
        sum = add(sum, *byte as u64);
    }
    sum
}

// The sum of a slice of bytes, of two of them as if they were one, and of a slice of places.
pub fn of_bytes(s: &[u8]) -> u32
    ensures { result ≡ sum_of s.now }
{
    add_bytes(START, s) as u32
}

pub fn of_both(s: &[u8], t: &[u8]) -> u32
    ensures { result ≡ sum_of (s.now ++ t.now) }
{
    let sum = add_bytes(START, s);
    add_bytes(sum, t) as u32
}

pub fn of_places(s: &[u32]) -> u32
    ensures { result ≡ sum_of (bytes_of_words LowFirst s.now) }
{
    let mut sum = START;
    for place in s {
        sum = add_place(sum, *place);
    }
    sum as u32
}

// The same of so many bytes, and of so many places, as they are set before a call: of what a call is lent and does not touch.
pub fn bytes_lent(n: u32) -> u32
    ensures { result ≡ sum_of (lent_bytes n) }
{
    let mut sum = START;
    for _ in 0..n {
        sum = add(sum, 165);
    }
    sum as u32
}

pub fn places_lent(n: u32) -> u32
    ensures { result ≡ sum_of (bytes_of_words LowFirst (lent_places n)) }
{
    let mut sum = START;
    for _ in 0..n {
        sum = add_place(sum, 4294967295);
    }
    sum as u32
}

// Every place, and every byte, is set to what it must be before a call.
pub fn fill_places(s: &mut [u32])
    ensures { s.new ≡ lent_places (length s.old) }
{
    s.fill(4294967295);
}

pub fn fill_bytes(s: &mut [u8])
    ensures { s.new ≡ lent_bytes (length s.old) }
{
    s.fill(165);
}
