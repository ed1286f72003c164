// Bytes: copying, zeroing and testing them, and numbers in them, most significant byte first.
ghost use Rattle.std.specs.Prelude.{◌≡◌, ◌+◌, ◌≤◌, length, take, drop, replicate};
ghost use Rattle.meaning.specs.Basics.{zeros};
ghost use Rattle.meaning.specs.Numbers.{number, bytes};

// Copies bytes into a part of the same length. The compiler makes a memcpy of the loop; of `copy_from_slice` it makes a memmove, which a
// driver would have to bring too.
pub fn copy(to: &mut [u8], from: &[u8])
    requires { length to.old ≡ length from.now }
    ensures { to.new ≡ from.now }
{
    for k in 0..from.len() {
        to[k] = from[k];
    }
}

// Zeros all bytes: of a slot or of records that go, or of a journal before a run.
pub fn clear(to: &mut [u8])
    ensures { to.new ≡ replicate (length to.old) 0 }
{
    to.fill(0);
}

// Whether all bytes from a place on are zero. All are looked at: a loop without a way out is compiled to many bytes at a time.
pub fn zeros_from(from: &[u8], start: usize) -> bool
    ensures { result ≡ zeros (drop start from.now) }
{
    let mut all = true;
    for i in start..from.len() {
        all &= from[i] == 0;
    }
    all
}

// Writes a number in all the bytes of a part, most significant first.
pub fn put_number(to: &mut [u8], n: usize)
    ensures { to.new ≡ bytes (length to.old) n }
{
    let mut rest = n;
    for i in (0..to.len()).rev() {
        to[i] = (rest % 256) as u8;
        rest /= 256;
    }
}

// A slot number of one or two bytes.
pub fn slot_number(from: &[u8], at: usize, width: usize) -> usize
    requires { (at + width ≤ length from.now) × ((1 ≤ width) × (width ≤ 2)) }
    ensures { result ≡ number (take width (drop at from.now)) }
{
    if width == 2 {
        fields::number2(from, at)
    } else {
        usize::from(from[at])
    }
}
