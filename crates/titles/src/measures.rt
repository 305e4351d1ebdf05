// A size in words.
use lines::Out;
use paper::Sized;

// A type's size. Of an accepted table it is always known.
pub fn put_size(out: &mut Out, s: Sized) {
    match s {
        Sized::Exact(n) => { out.put_with(b"size ", n as u64) }
        Sized::NoSize => out.put(b"no size"),
        Sized::Overflow => out.put(b"over 4294967295"),
        Sized::Lost => out.put(b"size not known"),
        Sized::TooFar => out.put(b"size not known"),
    }
}
