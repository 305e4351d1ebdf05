// Report 26: a table behind a base has the base's byte order.
ghost use Rattle.std.specs.Prelude.{◌≡◌};
ghost use Rattle.header.specs.Header.{begins_with};
ghost use Rattle.pairs.specs.Lean.{other_opening};

use paper::Order;

// The first two bytes are these.
fn begins_with(b: &[u8], first: u8, second: u8) -> bool
    ensures { result ≡ begins_with b.now first second }
{
    if b.len() < 2 {
        return false;
    }
    if b[0] != first {
        return false;
    }
    b[1] == second
}

// Report 26: a table behind a base begins with the other order's two bytes.
pub fn other_opening(base: &[u8], b: &[u8]) -> bool
    ensures { result ≡ other_opening base.now b.now }
{
    match words::order_of(base) {
        Order::LowFirst => begins_with(b, 0xeb, 0x9f),
        Order::HighFirst => begins_with(b, 0x9f, 0xeb),
    }
}
