// Bytes and numbers, written at a cursor: each function answers the place after what it has written. A byte is
// written only where there is room for it.
ghost use Rattle.std.specs.Prelude.{◌≡◌};
ghost use Rattle.print_text.specs.Page.{page, pushed, pushes};
ghost use Rattle.print_text.specs.Text.{digits};

// One byte.
pub fn push(out: &mut [u8], at: usize, v: u8) -> usize
    ensures { page out.new result ≡ pushed v (page out.old at) }
{
    if at < out.len() {
        out[at] = v;
        return at + 1;
    }
    at
}

// Some bytes.
pub fn text(out: &mut [u8], at: usize, bytes: &[u8]) -> usize
    ensures { page out.new result ≡ pushes bytes.now (page out.old at) }
{
    let mut next = at;
    for v in bytes {
        next = push(out, next, *v);
    }
    next
}

// A number in decimal.
pub fn decimal(out: &mut [u8], at: usize, v: usize) -> usize
    ensures { page out.new result ≡ pushes (digits v) (page out.old at) }
{
    if v < 10 {
        return push(out, at, 48 + v as u8);
    }
    let next = decimal(out, at, v / 10);
    push(out, next, 48 + (v % 10) as u8)
}
