// Numbers and tagged fields from bytes: the one reader that serves rules, labels and commands.
#![tactic(auto)]

ghost use Rattle.std.specs.Prelude.{◌≡◌, ◌+◌, ◌-◌, ◌<◌, ◌≤◌, length, take, drop};
ghost use Rattle.meaning.specs.Numbers.{number};
ghost use Rattle.fields.specs.Fields.{field_at, nth_field};

// A field: its tag, and where its payload starts and ends. The next field begins where it ends.
#[derive(Clone, Copy)]
pub struct Field {
    pub tag: u8,
    pub start: usize,
    pub end: usize,
}

// Where a field should begin, there are too few bytes for one.
#[derive(Clone, Copy)]
pub struct CutShort;

// The two-byte number at a place.
pub fn number2(bytes: &[u8], at: usize) -> usize
    requires { at + 2 ≤ length bytes.now }
    ensures { (result ≡ number (take 2 (drop at bytes.now))) × (result < 65536) }
{
    usize::from(u16::from_be_bytes([bytes[at], bytes[at + 1]]))
}

// The four-byte number at a place.
pub fn number4(bytes: &[u8], at: usize) -> usize
    requires { at + 4 ≤ length bytes.now }
    ensures { (result ≡ number (take 4 (drop at bytes.now))) × (result < 4294967296) }
{
    65536 * number2(bytes, at) + number2(bytes, at + 2)
}

// What reading at a place finds: a field, one that is cut short, or nothing left.
pub fn read_field(bytes: &[u8], at: usize) -> Option<Result<Field, CutShort>>
    ensures { result ≡ field_at bytes.now at }
{
    let len = bytes.len();
    if len <= at {
        return None;
    }
    if len - at < 3 {
        return Some(Err(CutShort));
    }
    let start = at + 3;
    let n = number2(bytes, at + 1);
    if len - start < n {
        return Some(Err(CutShort));
    }
    Some(Ok(Field {
        tag: bytes[at],
        start,
        end: start + n,
    }))
}

// The fields of bytes, one after the other, from a place on. One that is cut short is the last.
#[derive(Clone, Copy)]
pub struct Fields<'a> {
    pub bytes: &'a [u8],
    pub place: usize,
}

impl<'a> Fields<'a> {
    pub fn of(bytes: &'a [u8]) -> Fields<'a>
        ensures { (result.bytes ≡ bytes.entry) × (result.place ≡ 0) }
    {
        Fields { bytes, place: 0 }
    }
}

impl Iterator for Fields<'_> {
    type Item = Result<Field, CutShort>;

    ghost use Rattle.std.specs.Iterator.{at_most};
    ghost use Rattle.fields.specs.Fields.{Gives};

    ghost next_gives = { λ s r t. Gives s.bytes.now s.place r t.bytes.now t.place };

    ghost remaining = { λ s. at_most (length s.bytes.now - s.place) };

    #[inline(always)]
    fn next(&mut self) -> Option<Result<Field, CutShort>> {
        let found = read_field(self.bytes, self.place);
        match found {
            Some(Ok(field)) => self.place = field.end,
            Some(Err(CutShort)) => self.place = self.bytes.len(),
            None => {}
        }
        found
    }
}

// The payload of a field: the part of the bytes between its ends.
pub fn part(bytes: &[u8], start: usize, end: usize) -> &[u8]
    requires { (start ≤ end) × (end ≤ length bytes.now) }
    ensures { result.now ≡ take (end - start) (drop start bytes.now) }
{
    &bytes[start..end]
}

// The field of number n, counted from 0, of fields one after the other.
pub fn nth_field(bytes: &[u8], n: usize) -> Option<Result<Field, CutShort>>
    ensures { result ≡ nth_field n bytes.now 0 }
{
    let mut place = 0;
    for _ in 0..n {
        let Ok(field) = read_field(bytes, place)? else {
            return Some(Err(CutShort));
        };
        place = field.end;
    }
    read_field(bytes, place)
}
