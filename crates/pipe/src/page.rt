// Output that is gathered on a page: it is written when the page is full and before the next read.
ghost use Rattle.std.specs.Prelude.{◌≡◌};
ghost use Rattle.pipe.specs.Page.{paged, gathered};

use arrayvec::ArrayVec;

// The bytes of one read, and of a page of output.
pub(crate) const PAGE: usize = 4096;

// Bytes after what is gathered.
pub(crate) fn gather(rt: &impl Print, page: &mut ArrayVec<u8, PAGE>, s: &[u8])
    ensures { page.new.items ≡ gathered PAGE page.old.items s.now }
{
    for b in s {
        put(rt, page, *b);
    }
}

fn put(rt: &impl Print, page: &mut ArrayVec<u8, PAGE>, b: u8)
    ensures { page.new.items ≡ paged PAGE page.old.items b }
{
    if page.is_full() {
        write(rt, page.as_slice());
        page.clear();
    }
    page.push(b);
}

// What cannot be written is lost.
pub(crate) fn write(rt: &impl Print, s: &[u8]) {
    let _ = rt.write_all(s);
}
