// What is written waits in a buffer, which is written when it is full: a listing is then a few system calls and not
// one for each piece.
ghost use Rattle.std.specs.Prelude.{true, false, ◌≡◌, ◌+◌, ◌<◌, ◌≤◌, length};

use quotes::{cut_text, file_text, name_text};

// How many bytes the buffer has.
const ROOM: usize = 65536;

// Where it goes, whether every write has taken all its bytes, whether lines get a mark, how many bytes of records and of strings a base
// has before the table whose places are told (no strings where there is no base), and the bytes that wait: the first of the buffer.
#[derive(Clone, Copy)]
pub struct Out {
    pub fd: i32,
    pub is_whole: bool,
    pub is_marked: bool,
    pub records: u32,
    pub strings: u32,
    pub at: usize,
    pub buf: [u8; ROOM],
}

impl Out {
    pub fn to(fd: i32) -> Out
        ensures { (result.fd ≡ fd) × (result.at ≡ 0) × (result.is_whole ≡ true) × (result.is_marked ≡ false) × (result.records ≡ 0) × (result.strings ≡ 0) }
    {
        Out {
            fd,
            is_whole: true,
            is_marked: false,
            records: 0,
            strings: 0,
            at: 0,
            buf: [0u8; ROOM],
        }
    }

    // From here on every line gets a mark.
    pub fn mark(&mut self)
        ensures { (self.new.fd ≡ self.old.fd) × (self.new.at ≡ self.old.at) × (self.new.is_whole ≡ self.old.is_whole) × (self.new.is_marked ≡ true) × (self.new.records ≡ self.old.records) × (self.new.strings ≡ self.old.strings) × (self.new.buf ≡ self.old.buf) }
    {
        self.is_marked = true;
    }

    // From here on places are told of a table behind a base that has so many bytes of records and of strings.
    pub fn behind(&mut self, records: u32, strings: u32)
        ensures { (self.new.fd ≡ self.old.fd) × (self.new.at ≡ self.old.at) × (self.new.is_whole ≡ self.old.is_whole) × (self.new.is_marked ≡ self.old.is_marked) × (self.new.records ≡ records) × (self.new.strings ≡ strings) × (self.new.buf ≡ self.old.buf) }
    {
        self.records = records;
        self.strings = strings;
    }

    // After a write that failed no other is tried.
    fn write(&mut self, s: &[u8]) {
        self.is_whole = self.is_whole && io::write_all(self.fd, s);
    }

    // What waits is written; nothing does in one that says more wait than there is room for.
    pub fn flush(&mut self)
        ensures { self.new.at ≡ 0 }
    {
        if self.at <= ROOM {
            self.is_whole = self.is_whole && io::write_all(self.fd, &self.buf[..self.at]);
        }
        self.at = 0;
    }

    // A piece that there is room for.
    fn add(&mut self, s: &[u8])
        requires { self.old.at + length s.now ≤ 65536 }
    {
        let end = self.at + s.len();
        self.buf[self.at..end].copy_from_slice(s);
        self.at = end;
    }

    // One piece more. One that is longer than the buffer is written at once.
    pub fn put(&mut self, s: &[u8]) {
        if self.at <= ROOM && s.len() <= ROOM - self.at {
            return self.add(s);
        }
        self.flush();
        if ROOM < s.len() {
            return self.write(s);
        }
        self.add(s);
    }

    // What a line begins with: the mark of one that is not checked, or nothing.
    pub fn put_start(&mut self) {
        if self.is_marked {
            self.put(b"? ");
        }
    }

    pub fn put_wide(&mut self, n: u64) {
        let mut digits = [0u8; 20];
        let k = io::decimal(n, &mut digits);
        self.put(&digits[..k]);
    }

    pub fn put_number(&mut self, n: u32) {
        self.put_wide(n as u64);
    }

    // A text, and a number behind it.
    pub fn put_with(&mut self, text: &[u8], n: u64) {
        self.put(text);
        self.put_wide(n);
    }

    // A byte in hexadecimal.
    pub fn put_byte(&mut self, b: u8) {
        let mut digits = [0u8; 16];
        let k = io::hex(b as u64, 2, &mut digits);
        self.put(&digits[..k]);
    }

    // Bytes in hexadecimal, a blank before each.
    pub fn put_hex(&mut self, s: &[u8]) {
        for b in s {
            self.put(b" ");
            self.put_byte(*b);
        }
    }

    // A name of at most so many bytes, as it stands in a line.
    fn put_short(&mut self, s: &[u8]) {
        let mut space = [0u8; 510];
        let n = name_text(s, &mut space);
        self.put(&space[..n]);
    }

    // The first bytes of a name that is longer, between quotes, and behind them how many it has.
    fn put_cut(&mut self, s: &[u8])
        requires { 127 < length s.now }
    {
        let mut space = [0u8; 510];
        let n = cut_text(&s[0..127], &mut space);
        self.put(&space[..n]);
        self.put_with(b"... (", s.len() as u64);
        self.put(b" bytes)");
    }

    // A name: an identifier bare, any other between quotes, and of one with over 127 bytes the first of them.
    pub fn put_name(&mut self, s: &[u8]) {
        if s.len() <= 127 {
            self.put_short(s);
        } else {
            self.put_cut(s);
        }
    }

    // Some bytes of a name between quotes, without the quotes.
    fn put_some(&mut self, s: &[u8]) {
        let mut space = [0u8; 510];
        let n = cut_text(s, &mut space);
        if n < 2 {
            return;
        }
        let end = n - 1;
        self.put(&space[1..end]);
    }

    // A name that is longer than any identifier, with all its bytes.
    fn put_long(&mut self, s: &[u8]) {
        self.put(b"\"");
        for part in s.chunks(127) {
            self.put_some(part);
        }
        self.put(b"\"");
    }

    // A name with all its bytes.
    pub fn put_whole(&mut self, s: &[u8]) {
        if s.len() <= 127 {
            self.put_short(s);
        } else {
            self.put_long(s);
        }
    }

    // A file's name, bare or between quotes; nothing of one that is longer than any path.
    pub fn put_file(&mut self, s: &[u8]) {
        let mut space = [0u8; 16386];
        let n = file_text(s, &mut space);
        self.put(&space[..n]);
    }
}
