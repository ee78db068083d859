//! Writing numbers and texts.
ghost use Rattle.std.specs.Prelude.{◌≡◌, ◌<◌, ◌+◌, ◌%◌, ◌^◌, ◌++◌, OnOk, OnErr, length};
ghost use Rattle.wire.specs.Wire as spec;

use mk_base::list::List;
use mk_base::memory::NoMemory;

/// The low seven bits of a number, with the bit that says that more bytes follow.
fn low_bits(n: u64) -> u8
    ensures { result ≡ n % 128 + 128 }
{
    (n % 128) as u8 + 128
}

/// Puts a number behind the bytes: unsigned LEB128, in the fewest bytes.
pub fn put_num(out: &mut List<u8>, n: u64) -> Result<(), NoMemory>
    requires { n < 2 ^ 32 }
    ensures ok { OnOk result (out.new ≡ out.old ++ spec.num n) }
    ensures err { OnErr result (out.new ≡ out.old) }
{
    let second = n / 128;
    let third = second / 128;
    let fourth = third / 128;
    let fifth = fourth / 128;
    if n < 128 {
        out.extend(&[n as u8])
    } else if second < 128 {
        out.extend(&[low_bits(n), second as u8])
    } else if third < 128 {
        out.extend(&[low_bits(n), low_bits(second), third as u8])
    } else if fourth < 128 {
        out.extend(&[low_bits(n), low_bits(second), low_bits(third), fourth as u8])
    } else {
        out.extend(&[
            low_bits(n),
            low_bits(second),
            low_bits(third),
            low_bits(fourth),
            fifth as u8,
        ])
    }
}

/// Puts a text behind the bytes: its length and its bytes.
pub fn put_text(out: &mut List<u8>, text: &[u8]) -> Result<(), NoMemory>
    requires { length text.now < 2 ^ 32 }
    ensures ok { OnOk result (out.new ≡ out.old ++ spec.text text.now) }
    ensures err { OnErr result (out.new ≡ out.old) }
{
    let before = out.len();
    put_num(out, text.len() as u64)?;
    let put = out.extend(text);
    if put.is_err() {
        out.truncate(before);
    }
    put
}
