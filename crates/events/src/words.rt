ghost use Rattle.std.specs.Prelude.{◌≡◌, ◌++◌, ◌≤◌, drop, OnOk, OnErr};
ghost use Rattle.std.specs.Fmt.{decimal};
ghost use Rattle.events.specs.Words.{hex_word};

use std::alloc::AllocError;

/// How many digits the greatest number has.
const DIGITS: usize = 10;

/// Writes a number's decimal digits at the end of a row, and says where they begin.
fn put_digits(row: &mut [u8; DIGITS], n: u32) -> usize
    ensures within { result ≤ 10 }
    ensures digits { drop result row.new ≡ decimal n }
{
    let mut start = DIGITS - 1;
    let mut rest = n;
    while rest >= 10 {
        row[start] = b'0' + (rest % 10) as u8;
        start -= 1;
        rest /= 10;
    }
    row[start] = b'0' + rest as u8;
    start
}

/// Appends a number in decimal digits.
pub fn push_number(out: &mut Vec<u8>, n: u32) -> Result<(), AllocError>
    ensures ok { OnOk result (out.new.items ≡ out.old.items ++ decimal n) }
    ensures err { OnErr result (out.new.items ≡ out.old.items) }
{
    let mut row = [0; DIGITS];
    let start = put_digits(&mut row, n);
    out.extend_from_slice(&row[start..])
}

/// Appends bytes in hexadecimal digits, or `-` where there are none.
pub fn push_hex(out: &mut Vec<u8>, bytes: &[u8]) -> Result<(), AllocError>
    ensures ok { OnOk result (out.new.items ≡ out.old.items ++ hex_word bytes.now) }
    ensures err { OnErr result (out.new.items ≡ out.old.items) }
{
    if bytes.is_empty() {
        return out.extend_from_slice(b"-".as_slice());
    }
    let start = out.len();
    // No memory has room for a sum that saturates.
    let end = start.saturating_add(bytes.len().saturating_mul(2));
    out.resize(end, 0)?;
    match hex::encode_to_slice(bytes, &mut out[start..]) {
        Ok(()) => Ok(()),
        Err(_) => unreachable!(),
    }
}
