// A column of a kind's row.
ghost use Rattle.std.specs.Prelude.{◌≡◌, ◌%◌, ◌/◌, ◌<◌};

// A column: the byte that counts so much.
pub(crate) fn column(row: u64, unit: u64) -> u32
    requires { 0 < unit }
    ensures { result ≡ row / unit % 256 }
{
    (row / unit % 256) as u32
}
