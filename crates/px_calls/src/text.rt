// The pieces that texts are made of: words, numbers, keys and bodies.
//
// Each of these calls appends its piece to a text. Where memory is wanted, a part of the piece may stand behind the
// text; who began the text cuts it off again.
ghost use Rattle.std.specs.Prelude.{◌≡◌, ◌∷◌, ◌++◌, [], length, take, OnOk, OnErr};
ghost use Rattle.std.specs.Fmt.{decimal};
ghost use Rattle.hex.specs.Hex.{encode_lower};
ghost use Rattle.px_calls.specs.Texts.{BeginsWith, body_text};

use itoa::Buffer;
use std::alloc::AllocError;

pub fn put_words(words: &str, out: &mut Vec<u8>) -> Result<(), AllocError>
    ensures text { OnOk result (out.new.items ≡ out.old.items ++ words.now) }
    ensures kept { OnErr result (BeginsWith out.new.items out.old.items) }
{
    out.extend_from_slice(words.as_bytes())
}

pub fn put_number(number: u64, out: &mut Vec<u8>) -> Result<(), AllocError>
    ensures text { OnOk result (out.new.items ≡ out.old.items ++ decimal number) }
    ensures kept { OnErr result (BeginsWith out.new.items out.old.items) }
{
    let mut digits = Buffer::new();
    out.extend_from_slice(digits.format(number).as_bytes())
}

/// Two lower-case hexadecimal digits a byte.
pub fn put_hex(bytes: &[u8], out: &mut Vec<u8>) -> Result<(), AllocError>
    ensures text { OnOk result (out.new.items ≡ out.old.items ++ encode_lower bytes.now) }
    ensures kept { OnErr result (BeginsWith out.new.items out.old.items) }
{
    let start = out.len();
    let Some(digits) = bytes.len().checked_mul(2) else {
        return Err(AllocError);
    };
    let Some(end) = start.checked_add(digits) else {
        return Err(AllocError);
    };
    out.resize(end, 0)?;
    match hex::encode_to_slice(bytes, &mut out[start..]) {
        Ok(()) => Ok(()),
        Err(_) => Err(AllocError),
    }
}

/// The body's digits, `-` where it is empty.
pub fn put_body(body: &[u8], out: &mut Vec<u8>) -> Result<(), AllocError>
    ensures text { OnOk result (out.new.items ≡ out.old.items ++ body_text body.now) }
    ensures kept { OnErr result (BeginsWith out.new.items out.old.items) }
{
    if body.is_empty() {
        put_words("-", out)
    } else {
        put_hex(body, out)
    }
}
