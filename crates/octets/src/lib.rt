// Bytes and numbers of a slice at a place, for any place: past the end they are 0.
#![tactic(auto)]

ghost use Rattle.std.specs.Prelude.{◌≡◌, ◌+◌, ◌*◌, ◌<◌, drop, get_or};
ghost use Rattle.octets.specs.Eights.{eight as eightᵈ};

pub fn byte(b: &[u8], i: usize) -> u8
    ensures { result ≡ get_or b.now i 0 }
{
    b.get(i).copied().unwrap_or(0)
}

// The bytes from a place on.
pub fn tail(b: &[u8], i: usize) -> &[u8]
    ensures { result.now ≡ drop i b.now }
{
    b.get(i..).unwrap_or(&[])
}

// The byte after the one at a place.
pub fn byte_after(b: &[u8], i: usize) -> u8
    ensures { result ≡ get_or b.now (i + 1) 0 }
{
    byte(tail(b, i), 1)
}

// The two bytes at a place, the low one first.
pub fn number(b: &[u8], i: usize) -> u16
    ensures { result ≡ get_or b.now i 0 + 256 * get_or b.now (i + 1) 0 }
{
    match tail(b, i).first_chunk::<2>() {
        Some(both) => u16::from_le_bytes(*both),
        None => u16::from(byte(b, i)),
    }
}

// The eight bytes at a place as one number, the first lowest. Where all are there, the compiler makes one load of it.
pub fn eight(b: &[u8], i: usize) -> u64
    requires { i < 0x10000 }
    ensures { result ≡ eightᵈ b.now i }
{
    match b.get(i..i + 8) {
        Some(all) => u64::from_le_bytes(*all.first_chunk::<8>().unwrap()),
        None => {
            let rest = tail(b, i);
            u64::from_le_bytes(std::array::from_fn(|k| byte(rest, k)))
        }
    }
}
