// The text of a Netpbm header. Bytes and decimal numbers are put into a lent buffer at a place that the
// caller gives; each function that puts answers the place after the last byte that it put, where the
// next one goes on. And what the bytes of such a text are: whitespace, the end of a comment, a digit.
#![tactic(auto)]

ghost use Rattle.std.specs.Prelude.{◌≡◌, [], ◌∷◌, ◌+◌, ◌≤◌, ◌<◌, length};
ghost use Rattle.netpbm_text.specs.Decimal.{digit, decimal};
ghost use Rattle.netpbm_text.specs.Written.{Wrote};
ghost use Rattle.netpbm_text.specs.Bytes.{white, ends_comment, is_digit};

// Copies source into out from the place at on.
pub fn put(out: &mut [u8], at: usize, source: &[u8]) -> usize
    requires { at + length source.now ≤ length out.old }
    ensures { Wrote out.old at source.now out.new result }
{
    let end = at + source.len();
    out[at..end].copy_from_slice(source);
    end
}

// Puts one decimal digit.
fn put_digit(out: &mut [u8], at: usize, d: u32) -> usize
    requires d_bound { d < 10 }
    requires at_in_bounds { at < length out.old }
    ensures { Wrote out.old at (digit d ∷ []) out.new result }
{
    out[at] = b'0' + d as u8;
    at + 1
}

// Puts n in decimal, without leading zeros: first what stands before its last digit, then that.
pub fn put_number(out: &mut [u8], at: usize, n: u32) -> usize
    requires { at + length (decimal n) ≤ length out.old }
    ensures { Wrote out.old at (decimal n) out.new result }
{
    if n < 10 {
        return put_digit(out, at, n);
    }
    let last = put_number(out, at, n / 10);
    put_digit(out, last, n % 10)
}

// How many digits put_number puts.
pub fn number_length(n: u32) -> usize
    ensures { result ≡ length (decimal n) }
{
    let mut rest = n;
    let mut digits: usize = 1;
    // A while: each turn divides by ten, and counts no steps of one.
    while 10 <= rest {
        rest /= 10;
        digits += 1;
    }
    digits
}

// Space, TAB, CR, LF.
pub fn is_white(byte: u8) -> bool
    ensures { result ≡ white byte }
{
    (byte == b' ') | ((byte == b'\t') | ((byte == b'\r') | (byte == b'\n')))
}

pub fn ends_comment(byte: u8) -> bool
    ensures { result ≡ ends_comment byte }
{
    (byte == b'\r') | (byte == b'\n')
}

pub fn is_digit(byte: u8) -> bool
    ensures { result ≡ is_digit byte }
{
    (b'0' <= byte) & (byte <= b'9')
}
