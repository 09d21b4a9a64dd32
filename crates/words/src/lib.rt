// Names as 24 bytes, zero padded: their form, their order, the reserved words, and a name without its padding.
#![tactic(auto)]

ghost use Rattle.std.specs.Prelude.{◌≡◌, ◌||◌, ◌≤◌, ◌∷◌, [], length, take, nat_eq};
ghost use Rattle.std.specs.List.{position};
ghost use Rattle.std.specs.Str.{bytes_eq};
// A definition that shares its name with a function here is marked with ᵈ.
ghost use Rattle.paper.specs.Record.{letter as letterᵈ, digit, is_name as is_nameᵈ, precedes as precedesᵈ};
ghost use Rattle.paper.specs.Scoping.{is_reserved as is_reservedᵈ};
ghost use Rattle.paper.specs.TheList.{trimmed};
ghost use Rattle.words.specs.Eights.{eight as eightᵈ};

// The reserved words, padded as a name is, so that 24 bytes are compared at once.
const PRINCIPAL: [u8; 24] = *b"principal\0\0\0\0\0\0\0\0\0\0\0\0\0\0\0";

const ACTION: [u8; 24] = *b"action\0\0\0\0\0\0\0\0\0\0\0\0\0\0\0\0\0\0";

const RESOURCE: [u8; 24] = *b"resource\0\0\0\0\0\0\0\0\0\0\0\0\0\0\0\0";

const CONTEXT: [u8; 24] = *b"context\0\0\0\0\0\0\0\0\0\0\0\0\0\0\0\0\0";

fn letter(x: u8) -> bool
    ensures { result ≡ letterᵈ x }
{
    x.is_ascii_alphabetic() | (x == b'_')
}

// What may follow a name's first byte.
fn word_byte(x: u8) -> bool
    ensures { result ≡ letterᵈ x || digit x }
{
    letter(x) | x.is_ascii_digit()
}

// Whether n is a name. No branch depends on the bytes, so that the compiler tests many at once.
pub fn is_name(n: [u8; 24]) -> bool
    ensures { result ≡ is_nameᵈ n }
{
    let mut ok = letter(n[0]);
    // Any byte but zero: no padding has begun.
    let mut last: u8 = 1;
    for &y in &n {
        ok &= (y == 0) | (word_byte(y) & (last != 0));
        last = y;
    }
    ok
}

// Eight bytes as one number, the first highest: the compiler makes one load of it, and a byte swap.
fn eight(n: [u8; 24], i: usize) -> u64
    requires { i ≤ 16 }
    ensures { result ≡ eightᵈ n i }
{
    u64::from_be_bytes(*n[i..].first_chunk::<8>().unwrap())
}

// Whether a comes strictly before b. The first numbers that differ decide, and only those are swapped: `<` on all three at once was measured, and reads
// a record of many names 11 percent slower.
pub fn precedes(a: [u8; 24], b: [u8; 24]) -> bool
    ensures { result ≡ precedesᵈ a b }
{
    for k in 0..3 {
        let x = eight(a, 8 * k);
        let y = eight(b, 8 * k);
        if x != y {
            return x < y;
        }
    }
    false
}

// The first 24 bytes.
pub fn copied(b: &[u8]) -> [u8; 24]
    requires { 24 ≤ length b.now }
    ensures { result ≡ take 24 b.now }
{
    *b.first_chunk::<24>().unwrap()
}

// A name as three numbers, which are the same as another's where the names are.
fn numbers(n: [u8; 24]) -> [u64; 3]
    ensures { result ≡ eightᵈ n 0 ∷ eightᵈ n 8 ∷ eightᵈ n 16 ∷ [] }
{
    [eight(n, 0), eight(n, 8), eight(n, 16)]
}

fn same(a: [u8; 24], b: [u8; 24]) -> bool
    ensures { result ≡ bytes_eq a b }
{
    numbers(a) == numbers(b)
}

// The numbers of the four words are constants to the compiler, so that a name is told from them without a branch.
pub fn is_reserved(n: [u8; 24]) -> bool
    ensures { result ≡ is_reservedᵈ n }
{
    same(PRINCIPAL, n) | same(ACTION, n) | same(RESOURCE, n) | same(CONTEXT, n)
}

// Where the padding begins, if there is any.
fn first_zero(b: &[u8]) -> Option<usize>
    ensures { result ≡ position (λ x. nat_eq x 0) b.now }
{
    b.iter().position(|x| *x == 0)
}

pub fn unpadded(b: &[u8]) -> &[u8]
    ensures { result.now ≡ trimmed b.now }
{
    match first_zero(b) {
        Some(text) => &b[..text],
        None => b,
    }
}
