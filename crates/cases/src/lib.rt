// What the programs over stored cases share. A stored file is a row of cases, each a field 0x07 whose payload is fields in turn
// and is not empty. One case is read at a time, so that a file may be of any length.
#![tactic(auto)]

ghost use Rattle.std.specs.Prelude.{◌≡◌, true, drop, IfSome};
ghost use Rattle.std.proofs.Math.Option.{none};
ghost use Rattle.meaning.specs.Image.{constant};
ghost use Rattle.parts.specs.Series.{For, nth_part};
ghost use Rattle.io.specs.Counts.{IsPrefixLen};
ghost use Rattle.cases.specs.Cases.{Copied};

// Reads the next n bytes to the front of the buffer, and says whether there are so many and the buffer has room for them. What
// stands behind them stays.
fn read_payload(buffer: &mut [u8], n: usize) -> bool
    ensures prefix_len { result ≡ true → IsPrefixLen n buffer.new }
    ensures buffer_unchanged { drop n buffer.new ≡ drop n buffer.old }
{
    n <= buffer.len() && io::read_full(0, &mut buffer[..n]) == n
}

// Reads the next case of standard input to the front of the buffer, and says how long it is; None where there is no whole case or
// the buffer is shorter. 65,535 bytes hold every case.
pub fn read_case(buffer: &mut [u8]) -> Option<usize>
    ensures { IfSome result (λ n. IsPrefixLen n buffer.new) }
{
    let mut head = [0u8; 3];
    if io::read_full(0, &mut head) != 3 || head[0] != 0x07 {
        return None;
    }
    let n = fields::number2(&head, 1);
    (n > 0 && read_payload(buffer, n)).then_some(n)
}

// Reads case after case of standard input, and calls f on each. A proved loop has to end, and nothing says that the input does:
// it takes turns up to a number that no run uses up.
pub fn each_case<F: FnMut(&[u8])>(mut f: F)
    requires { F.IsAlwaysCallable f }
{
    let mut buffer = io::large_buffer();
    for _ in 0..u64::MAX {
        let Some(n) = read_case(&mut buffer) else {
            return;
        };
        f(&buffer[..n]);
    }
}

// The payload of the field of number n of a case, counted from 0; nothing if there is none.
pub fn part(case: &[u8], n: usize) -> &[u8]
    ensures { result.now ≡ nth_part n case.now }
{
    parts::nth_part(case, n)
}

// The word that the field of number n holds; 0 if it holds none.
pub fn word(case: &[u8], n: usize) -> u32
    ensures { For (constant (nth_part n case.now)) (λ w. result ≡ w) × (constant (nth_part n case.now) ≡ none → result ≡ 0) }
{
    parts::word_of(part(case, n))
}

// Copies bytes to the front of a buffer, as many as it holds, and says how many. What stands behind them stays.
pub fn copy(to: &mut [u8], from: &[u8]) -> usize
    ensures { Copied from.now to.old to.new result }
{
    let n = from.len().min(to.len());
    to[..n].copy_from_slice(&from[..n]);
    n
}

// Writes a space and bytes in hexadecimal digits on standard output.
pub fn write_hex(bytes: &[u8]) {
    io::write_all(1, b" ");
    for b in bytes {
        io::print_hex(1, u64::from(*b), 2);
    }
}
