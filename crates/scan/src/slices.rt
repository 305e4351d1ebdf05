// A lent slice is left all 0.
ghost use Rattle.std.specs.Prelude.{◌≡◌, length};
ghost use Rattle.paper.specs.rules.Gate.{zeros};

pub fn clear(s: &mut [u32])
    ensures { s.new ≡ zeros (length s.old) }
{
    s.fill(0);
}
