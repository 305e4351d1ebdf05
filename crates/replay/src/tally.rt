// What becomes of a case, and how many cases came to what.
ghost use Rattle.std.specs.Prelude.{◌≡◌, ◌<◌};
ghost use Rattle.replay.specs.Count.{Counted, ran};

// A case that ran agreed or differed.
#[derive(Clone, Copy)]
pub(crate) enum Outcome {
    Agreed,
    Differed,
}

// Why no case is read behind this one: the input ends inside it, or it asks for more than the buffers hold.
#[derive(Clone, Copy)]
pub(crate) enum Stop {
    Cut,
    Large,
}

// The counts, and whether the file was read to its last case.
#[derive(Clone, Copy)]
pub(crate) struct Tally {
    pub agreed: u32,
    pub differed: u32,
    pub is_whole: bool,
}

impl Tally {
    pub(crate) fn new() -> Self
        ensures { ran result ≡ 0 }
    {
        Self {
            agreed: 0,
            differed: 0,
            is_whole: true,
        }
    }

    // The rest of the file cannot be read.
    pub(crate) fn stopped(mut self) -> Self
        ensures { ran result ≡ ran self }
    {
        self.is_whole = false;
        self
    }

    // One case more, under its outcome.
    pub(crate) fn counted(mut self, o: Outcome) -> Self
        requires { ran self < 4294967295 }
        ensures { Counted self result o }
    {
        match o {
            Outcome::Agreed => self.agreed += 1,
            Outcome::Differed => self.differed += 1,
        }
        self
    }
}
